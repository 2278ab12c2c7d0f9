//! What the rules of a document do, taken by number: whether they carry the unit of its request.
//!
//! ```text
//!   request c1 any c2 any      rule 1 wrap ad c1 - s1 -      rule 2 carry t s1 - s2 -      rule 3 unwrap de s2 - c2 -
//! ```
//!
//! Here the unit begins at c1, and behind rule 3 it is at c2 with no frames round it: the rules carry it. No place is passed twice, so
//! they do in any order, each device looking only at the place where the unit is ([`carried_rules_forward`]). Without rule 2 its number
//! does not stand there; without rule 3 the unit has not arrived.
//!
//! `specs/Replaying` has the table of what is told: each condition with its word, in the order in which they count.
#![tactic(auto)]

mod carrying;
mod known;
mod laws;
mod replayed;
mod replaying;
mod slots;
#[cfg(test)]
mod tests;

pub use laws::{
    carried_rules_forward, exact_answers_are_carried, replayed_is_one, walks_are_carried,
};
pub use replayed::{ReplayCause, Replayed};
pub use replaying::{replay, replay_answer};
