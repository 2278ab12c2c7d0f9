//! Forwarding by rules: a unit that takes, at each place, the one rule that leaves from it.
//!
//! ```text
//!   rule 1 wrap ad c1 - s1 -      rule 2 carry t s1 - s2 -      rule 3 unwrap de s2 - c2 -
//!
//!   c1 --ad--> s1 --t--> s2 --de--> c2
//! ```
//!
//! [`forward`] begins at c1 with no frames round the unit. The one rule whose from class and label are c1 is rule 1, so its hop is
//! taken; and so on until the target. Neither the numbers nor the order of the rules count. Where a walk passes no place twice, the
//! rules of its hops carry the unit over exactly its hops ([`plain_walks_are_forwarded`]).
//!
//! The definition stands in `specs/Forwarding`: how a turn goes on, and a table of the faults by which forwarding stops.
#![tactic(auto)]

mod fault;
mod forwarding;
mod key;
mod laws;
mod table;
#[cfg(test)]
mod tests;
mod way;

pub use fault::ForwardFault;
pub use forwarding::forward;
pub use key::add_place;
pub use laws::{forwarding_is_one, plain_walks_are_forwarded};
pub use way::{meet, place_of, unit_at};
