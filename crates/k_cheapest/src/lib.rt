//! The cheapest walks of a pushdown machine, in order of weight, as many as are asked for.
//!
//! A walk runs from a start to a target, with the empty stack at both ends. It is told apart from others by its steps alone, so a walk
//! that goes round a loop once more is another walk. What waits is not walks but sets of walks: those whose last steps are given and
//! whose steps before these are any segments of given pairs. The least weight of a segment of each pair is known from a search, so the
//! least weight of each set is known too. The lightest set is taken apart, by the last step or the last nest of its last segment, until
//! it is one walk: no other walk that is left weighs less. So the work is about that of looking at each step of the listed walks.
#![tactic(auto)]

mod choice;
#[cfg(test)]
mod enumeration;
mod expand;
mod found;
mod given;
mod item;
mod laws;
mod listing;
mod queue;
mod run;
mod setting;
#[cfg(test)]
mod tests;
mod todo;
mod ways;

pub use found::{KFound, KSteps, KWalk, KWalkList};
pub use laws::machine_steps_have_kinds;
pub use run::k_best;
