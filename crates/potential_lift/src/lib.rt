//! The potentials of a request, from those of its machine.
#![tactic(auto)]

mod laws;
mod lines;

pub use laws::pairs_are_within;
pub use lines::potentials_of;
