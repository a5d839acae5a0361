// Which frames a deep or busy chip obeys.
// Internal to this repository: a caller here meets each `requires`; no entry point is in this crate.
#![tactic(auto)]

ghost use Rattle.std.specs.Prelude.{◌≡◌, true};
ghost use Rattle.control.specs.Obeyed.{class_of, allowed, is_wake, obeyed};
ghost use Rattle.control.specs.Rulings.{WithMarks};

use commands::Effect;
use control::{Class, Marks};
use registers::Usage;

#[tactic(auto, unfolding(control::specs::Obeyed::class_of))]
fn class_of(e: Effect) -> Class
    ensures { result ≡ class_of e }
{
    match e {
        Effect::ReadBuffer(buffer) | Effect::WriteBuffer(buffer) => Class::OfBuffer { buffer },
        Effect::ReadStatus => Class::Status,
        Effect::ReadId => Class::Id,
        Effect::Resume => Class::Wake,
        _ => Class::Other,
    }
}

#[tactic(auto, unfolding(control::specs::Obeyed::allowed))]
fn is_allowed(u: Usage, c: Class) -> bool
    ensures { result ≡ allowed u c }
{
    match u {
        Usage::Free => true,
        Usage::NoBuffer => matches!(c, Class::Status | Class::Id | Class::OfBuffer { .. }),
        Usage::Uses { buffer } => match c {
            Class::Status | Class::Id => true,
            Class::OfBuffer { buffer: other } => buffer != other,
            Class::Wake | Class::Other => false,
        },
        Usage::Exclusive => matches!(c, Class::Status),
    }
}

fn is_wake(c: Class) -> bool
    ensures { result ≡ is_wake c }
{
    matches!(c, Class::Wake)
}

#[tactic(auto, unfolding(control::specs::Obeyed::obeyed))]
pub fn is_obeyed(m: Marks, e: Effect) -> bool
    ensures { WithMarks m (λ r. result ≡ obeyed r e) }
{
    let c = class_of(e);
    if m.deep && !is_wake(c) {
        return false;
    }
    is_allowed(m.usage, c)
}
