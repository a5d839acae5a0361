// Parts, pages, addresses and sectors of the AT45DB081D: where things lie in the lent array.
// Internal to this repository: a caller here meets each `requires`; no entry point is in this crate.
#![tactic(auto)]

ghost use Rattle.std.specs.Prelude.{◌≡◌, ℕ, ◌+◌, ◌*◌, ◌/◌, ◌%◌, ◌≤◌, ◌<◌, ◌^◌, length};
ghost use Rattle.geometry.specs.Parts.{row, part_of, register_room, Sized, address_at, page_at, byte_at, page_start};
ghost use Rattle.geometry.specs.Sectors.{sector_of, first_page, end_page, sector_run, sector_count};

// A part: bytes a page, pages, how many numbers an address gives each page, status bit 0, pages a sector, and bytes of the protection and
// lockdown registers.
#[derive(Clone, Copy)]
pub struct Geometry {
    pub size: usize,
    pub pages: usize,
    pub field: usize,
    pub binary: bool,
    pub span: usize,
    pub register: usize,
}

// `count` pages from page `first` on.
#[derive(Clone, Copy)]
pub struct Run {
    pub first: usize,
    pub count: usize,
}

fn row(size: usize, pages: usize, field: usize, binary: bool) -> Geometry
    ensures { result ≡ row size pages field binary }
{
    Geometry {
        size: size,
        pages: pages,
        field: field,
        binary: binary,
        span: 256,
        register: 16,
    }
}

// The part whose array has `length` bytes, if there is one.
pub fn part_of(length: usize) -> Option<Geometry>
    ensures { result ≡ part_of length }
{
    if length == 1081344 {
        return Some(row(264, 4096, 512, false));
    }
    if length == 33792 {
        return Some(row(264, 128, 512, false));
    }
    if length == 1048576 {
        return Some(row(256, 4096, 256, true));
    }
    if length == 32768 {
        return Some(row(256, 128, 256, true));
    }
    None
}

// The 24-bit number of the three address bytes from index `at` on.
pub fn address_at(frame: &[u8], at: usize) -> usize
    requires { at + 3 ≤ length frame.now }
    ensures { (result ≡ address_at frame.now at) × (result < 16777216) }
{
    numbers::wide(frame[at]) * 65536
        + numbers::wide(frame[at + 1]) * 256
        + numbers::wide(frame[at + 2])
}

// n div d. A divisor that stands in the code is a multiplication or a shift for the processor, so those of the known parts do.
fn quotient(n: usize, d: usize) -> usize
    requires { 0 < d }
    ensures { result ≡ n / d }
{
    match d {
        512 => n / 512,
        256 => n / 256,
        _ => n / d,
    }
}

// n mod d, likewise.
fn remainder(n: usize, d: usize) -> usize
    requires { 0 < d }
    ensures { (result ≡ n % d) × (result < d) }
{
    match d {
        264 => n % 264,
        512 => n % 512,
        256 => n % 256,
        4096 => n % 4096,
        128 => n % 128,
        _ => n % d,
    }
}

// The page that an address names.
pub fn page_at(g: Geometry, address: usize) -> usize
    requires { (0 < g.field) × (0 < g.pages) }
    ensures { (result ≡ page_at g address) × (result < g.pages) }
{
    let field = g.field;
    let pages = g.pages;
    remainder(quotient(address, field), pages)
}

// The byte of its page that an address names.
pub fn byte_at(g: Geometry, address: usize) -> usize
    requires { (0 < g.field) × (0 < g.size) }
    ensures { (result ≡ byte_at g address) × (result < g.size) }
{
    let field = g.field;
    let size = g.size;
    remainder(remainder(address, field), size)
}

// Where a page begins in the array, or the array ends.
pub fn page_start(g: Geometry, page: usize) -> usize
    requires { (page ≤ g.pages) × (g.pages * g.size < 2 ^ 63) }
    ensures { (result ≡ page_start g page) × (result ≤ g.pages * g.size) }
{
    let size = g.size;
    page * size
}

// The sector of a page.
pub fn sector_of(g: Geometry, page: usize) -> usize
    requires { Sized g (g.pages * g.size) }
    ensures { result ≡ sector_of g page }
{
    let span = g.span;
    if page < 8 {
        0
    } else {
        quotient(page, span) + 1
    }
}

fn first_page(g: Geometry, sector: usize) -> usize
    requires { (Sized g (g.pages * g.size)) × (sector < register_room + 1) }
    ensures { result ≡ first_page g sector }
{
    let span = g.span;
    match sector {
        0 => 0,
        1 => 8,
        _ => span * (sector - 1),
    }
}

fn end_page(g: Geometry, sector: usize) -> usize
    requires { (Sized g (g.pages * g.size)) × (sector < register_room + 1) }
    ensures { result ≡ end_page g sector }
{
    let span = g.span;
    match sector {
        0 => 8,
        _ => span * sector,
    }
}

// A sector's pages, as far as the part has them.
pub fn sector_run(g: Geometry, sector: usize) -> Run
    requires { (Sized g (g.pages * g.size)) × (sector < register_room + 1) }
    ensures { (result ≡ sector_run g sector) × (result.first + result.count ≤ g.pages) }
{
    let pages = g.pages;
    let first = first_page(g, sector);
    let a = numbers::lesser(first, pages);
    let end = end_page(g, sector);
    let e = numbers::lesser(end, pages);
    Run {
        first: a,
        count: e - a,
    }
}

// How many sectors the part has.
pub fn sector_count(g: Geometry) -> usize
    requires { Sized g (g.pages * g.size) }
    ensures { result ≡ sector_count g }
{
    let last = g.pages - 1;
    sector_of(g, last) + 1
}
