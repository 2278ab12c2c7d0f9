//! One data unit that goes through a network, hop by hop.
//!
//! A [`Replay`] holds a unit: a class, a label or none, and a stack of frames. [`Replay::step`] takes it over one hop where the
//! definition of a step has a next unit (`circuit_spec`'s `Steps`) and the stack has room, and then it is that unit. Else the call
//! says which condition fails first, and the unit stays where it is.
//!
//! ```text
//!   c1 --ad--> s1 --t--> s2 --de--> c2
//!
//!   stack:     at c1 none,  at s1 and s2 the frame of ad's function and c1,  at c2 none
//! ```
//!
//! The conditions stand in `specs/Conditions`, one definition each. A step costs a few look-ups by id and binary searches in the
//! lists of ports that the element relates. All memory for frames is taken at the start.
#![tactic(auto)]

mod faults;
mod frames;
mod labels;
mod laws;
mod numbers;
mod relating;
mod replay;
#[cfg(test)]
mod tests;

pub use faults::StepFault;
pub use laws::{hops_that_fit, next_unit_is_one, refusal_is_one, refusals_tell_of_steps};
pub use replay::Replay;
