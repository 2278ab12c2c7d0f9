//! What an answer is, what its certificate asks of it, and which answer a search gives.
//!
//! An [`Answer`] has the request, the outcome, the hops of a walk with their flags and rules of devices, and the potentials. Contracts see
//!
//! - `IsWellFormed`: the numbers and texts are those of the types, and the lists are in order;
//! - `Certificate`: the rules by which an answer shows of itself that it is right; what it shows of all walks is `BoundsWalks`;
//! - `IsExactAnswer`: the answer that a search gives.
//!
//! How an answer is written is no matter here.
#![tactic(auto)]

mod answer;
mod certificate;
mod order;

pub use answer::{Answer, FlagList, PotLine, PotList, RootName};
pub use certificate::{
    certificates_bound_walks, exact_answers_are_certified, potentials_are_one, walks_are_flagged,
    walks_end_allowed,
};
pub use order::{follows, well_formed};
