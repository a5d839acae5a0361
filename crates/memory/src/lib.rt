// What operations do to the lent array and to a page buffer, and the bytes of replies.
// Internal to this repository: a caller here meets each `requires`; no entry point is in this crate.
#![tactic(auto)]

ghost use Rattle.std.specs.Prelude.{◌≡◌, ℕ, ◌+◌, ◌*◌, ◌≤◌, ◌<◌, List, length};
ghost use Rattle.geometry.specs.Parts.{Sized, page_of};
ghost use Rattle.memory.specs.Pages.{programmed, programmed_over, transferred, differing, erased, junked, in_sectors, junk_buffer};
ghost use Rattle.memory.specs.Replies.{replied, no_data, once_data, ring_data};

use geometry::{Geometry, Run};

// ---- pages

// The bytes of a page.
fn page_bytes(g: Geometry, array: &[u8], page: usize) -> &[u8]
    requires { (Sized g (length array.now)) × (page < g.pages) }
    ensures { result.now ≡ page_of g page array.now }
{
    let a = geometry::page_start(g, page);
    let e = a + g.size;
    &array[a..e]
}

// The page becomes the buffer's first bytes.
pub fn program(g: Geometry, array: &mut [u8], page: usize, buffer: &[u8])
    requires { (Sized g (length array.old)) × (page < g.pages) × (g.size ≤ length buffer.now) }
    ensures { array.new ≡ programmed g page buffer.now array.old }
{
    let size = g.size;
    let a = geometry::page_start(g, page);
    let e = a + size;
    slices::copy(&mut array[a..e], &buffer[..size]);
}

// The page becomes page AND buffer.
pub fn program_over(g: Geometry, array: &mut [u8], page: usize, buffer: &[u8])
    requires { (Sized g (length array.old)) × (page < g.pages) × (g.size ≤ length buffer.now) }
    ensures { array.new ≡ programmed_over g page buffer.now array.old }
{
    let size = g.size;
    let a = geometry::page_start(g, page);
    let e = a + size;
    slices::and_into(&mut array[a..e], &buffer[..size]);
}

// The buffer becomes the page.
pub fn transfer(g: Geometry, array: &[u8], page: usize, buffer: &mut [u8])
    requires { (Sized g (length array.now)) × (page < g.pages) × (g.size ≤ length buffer.old) }
    ensures { buffer.new ≡ transferred g page array.now buffer.old }
{
    let size = g.size;
    slices::copy(&mut buffer[..size], page_bytes(g, array, page));
}

// Whether buffer and page differ.
pub fn page_differs(g: Geometry, array: &[u8], page: usize, buffer: &[u8]) -> bool
    requires { (Sized g (length array.now)) × (page < g.pages) × (g.size ≤ length buffer.now) }
    ensures { result ≡ differing g page array.now buffer.now }
{
    let size = g.size;
    slices::differs(&buffer[..size], page_bytes(g, array, page))
}

// The pages of the run become FFh: lent on as one part from the array's middle.
pub fn erase(g: Geometry, array: &mut [u8], r: Run)
    requires { (Sized g (length array.old)) × (r.first + r.count ≤ g.pages) }
    ensures { array.new ≡ erased g r array.old }
{
    let first = r.first;
    let a = geometry::page_start(g, first);
    let e = geometry::page_start(g, first + r.count);
    slices::fill(&mut array[a..e], 255);
}

// The pages of the run become junk.
pub fn spoil(g: Geometry, array: &mut [u8], junk: &[u8], r: Run)
    requires { (Sized g (length array.old)) × (r.first + r.count ≤ g.pages) × (length junk.now ≡ 2 * g.size + length array.old) }
    ensures { array.new ≡ junked g junk.now r array.old }
{
    let first = r.first;
    let a = geometry::page_start(g, first);
    let e = geometry::page_start(g, first + r.count);
    let base = 2 * g.size;
    let from = base + a;
    let to = base + e;
    slices::copy(&mut array[a..e], &junk[from..to]);
}

// Each sector of the set, as a run, is given to `act`, lowest first: bit i is sector i.
fn each_sector<F: Fn(&mut [u8], Run)>(g: Geometry, array: &mut [u8], sectors: u32, act: F)
    requires sized { Sized g (length array.old) }
    requires callable { (part : _) (r : Run) → length part.now ≡ length array.old → r.first + r.count ≤ g.pages → F.pre act part r }
    ensures { (f : Run → List ℕ → List ℕ) → ((part : _) (r : Run) (left : _) → F.post act part r tt left → left.now ≡ f r part.now) → array.new ≡ in_sectors f g sectors array.old }
{
    let mut left = sectors;
    for s in 0..geometry::sector_count(g) {
        if left % 2 == 1 {
            act(array, geometry::sector_run(g, s));
        }
        left /= 2;
    }
}

// Each sector of the set becomes FFh.
pub fn erase_sectors(g: Geometry, array: &mut [u8], sectors: u32)
    requires { Sized g (length array.old) }
    ensures { array.new ≡ in_sectors (erased g) g sectors array.old }
{
    each_sector(g, array, sectors, |part, r| erase(g, part, r));
}

// Each sector of the set becomes junk.
pub fn spoil_sectors(g: Geometry, array: &mut [u8], junk: &[u8], sectors: u32)
    requires { (Sized g (length array.old)) × (length junk.now ≡ 2 * g.size + length array.old) }
    ensures { array.new ≡ in_sectors (junked g junk.now) g sectors array.old }
{
    each_sector(g, array, sectors, |part, r| spoil(g, part, junk, r));
}

// The buffer becomes the junk from index `at` on.
pub fn spoil_buffer(g: Geometry, buffer: &mut [u8], junk: &[u8], at: usize)
    requires { (g.size ≤ length buffer.old) × (at + g.size ≤ length junk.now) }
    ensures { buffer.new ≡ junk_buffer g junk.now at buffer.old }
{
    let size = g.size;
    let e = at + size;
    slices::copy(&mut buffer[..size], &junk[at..e]);
}

// ---- replies

// No data: FFh throughout.
pub fn reply_nothing(reply: &mut [u8], lead: usize)
    ensures { reply.new ≡ replied (length reply.old) lead no_data }
{
    slices::fill(reply, 255);
}

// The bytes after the lead, then FFh.
pub fn reply_once(reply: &mut [u8], lead: usize, bytes: &[u8])
    requires { lead ≤ length reply.old }
    ensures { reply.new ≡ replied (length reply.old) lead (once_data bytes.now) }
{
    slices::fill(reply, 255);
    let n = (reply.len() - lead).min(bytes.len());
    let e = lead + n;
    slices::copy(&mut reply[lead..e], &bytes[..n]);
}

// One byte, repeated after the lead.
pub fn reply_repeated(reply: &mut [u8], lead: usize, value: u8)
    requires { lead ≤ length reply.old }
    ensures { reply.new ≡ replied (length reply.old) lead (λ _. value) }
{
    slices::fill(&mut reply[..lead], 255);
    slices::fill(&mut reply[lead..], value);
}

// The first `size` bytes of `ring` from `start` on, wrapping, after the lead.
pub fn reply_ring(reply: &mut [u8], lead: usize, ring: &[u8], size: usize, start: usize)
    requires { (lead ≤ length reply.old) × (start < size) × (size ≤ length ring.now) }
    ensures { reply.new ≡ replied (length reply.old) lead (ring_data size start ring.now) }
{
    slices::fill(&mut reply[..lead], 255);
    slices::ring_read(&mut reply[lead..], ring, size, start);
}

// A page, wrapping in it: a part from the array's middle, handed on.
pub fn reply_page(
    g: Geometry,
    reply: &mut [u8],
    lead: usize,
    array: &[u8],
    page: usize,
    start: usize,
)
    requires { (Sized g (length array.now)) × (page < g.pages) × (start < g.size) × (lead ≤ length reply.old) }
    ensures { reply.new ≡ replied (length reply.old) lead (ring_data g.size start (page_of g page array.now)) }
{
    reply_ring(reply, lead, page_bytes(g, array, page), g.size, start);
}
