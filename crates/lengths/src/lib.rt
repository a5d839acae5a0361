// The lengths that a step of the program `outline` lends. No function named here has a `requires`.
#![tactic(auto)]

pub use lending::lengths;
pub use room::Lengths;

mod lending;
mod room;
