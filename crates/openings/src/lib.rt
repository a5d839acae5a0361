// How a driver starts, apart from any chip: the first state of each call.
// Every function takes any input: a call that is refused starts as ended.
#![tactic(auto)]

ghost use Rattle.std.specs.Prelude.{◌≡◌, length};
ghost use Rattle.slots.specs.Details.{storing, changing, reading, untold};
ghost use Rattle.slots.specs.Lists.{asking};
ghost use Rattle.worlds.specs.Start.{start_driver};

use dates::{Date, Term};
use slots::{Driver, Kind, Request};

// A put of a recipe with its term, for a chip whose array has `array` bytes.
pub fn start_put(array: usize, slot: usize, limit: usize, term: Term, recipe: &[u8]) -> Driver
    ensures { result ≡ start_driver array (asking Kind.Put slot limit) (storing term) (length recipe.now) 0 }
{
    let r = Request {
        kind: Kind::Put,
        slot,
        limit,
        detail: starts::storing(term),
    };
    starts::start(array, r, recipe.len(), 0)
}

// A patch of bytes at a place of the recipe.
pub fn start_patch(array: usize, slot: usize, limit: usize, place: usize, bytes: &[u8]) -> Driver
    ensures { result ≡ start_driver array (asking Kind.Patch slot limit) (changing place) (length bytes.now) 0 }
{
    let r = Request {
        kind: Kind::Patch,
        slot,
        limit,
        detail: starts::changing(place),
    };
    starts::start(array, r, bytes.len(), 0)
}

// A get on this date into a buffer of `buffer` bytes.
pub fn start_get(array: usize, slot: usize, limit: usize, today: Date, buffer: usize) -> Driver
    ensures { result ≡ start_driver array (asking Kind.Get slot limit) (reading today) 0 buffer }
{
    let r = Request {
        kind: Kind::Get,
        slot,
        limit,
        detail: starts::reading(today),
    };
    starts::start(array, r, 0, buffer)
}

pub fn start_wipe(array: usize, slot: usize, limit: usize) -> Driver
    ensures { result ≡ start_driver array (asking Kind.Wipe slot limit) untold 0 0 }
{
    let r = Request {
        kind: Kind::Wipe,
        slot,
        limit,
        detail: starts::untold(),
    };
    starts::start(array, r, 0, 0)
}
