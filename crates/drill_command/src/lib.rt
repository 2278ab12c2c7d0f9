//! The command `drill`: what is found in a network of nested tunnels, made from a number, with no file.
//!
//! The network has eight links at level 0, and each level above it is passed by way of the level below, twice. So the hops of the
//! cheapest walk double with each level, and a few hundred elements ask more of a search than files of any size. The answer is checked
//! against its certificate, and its rules are replayed, before it is told.
#![tactic(auto)]

mod drilling;
mod laws;
mod lines;

pub use drilling::drill;
pub use laws::drilled_replies_tell_the_outcome;
