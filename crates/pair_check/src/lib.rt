//! Whether potentials of a machine keep the rules that bound its walks.
//!
//! A pair is a root and a state, and a potential gives it a weight. Potentials that keep these rules bound each segment of the machine
//! by the weight at its pair, whether or not they are the least ones:
//!
//! - a start is listed under the request with weight zero, and a root that is a state is listed at itself with weight zero;
//! - a flat step leads from a listed pair to one that is listed with at most the sum;
//! - a push leads from a listed pair to a listed root;
//! - a push, a listed pair of the root that it enters and a pop of its frame lead to one that is listed with at most the sum.
//!
//! Contracts see the rules as `KeepsRules` and a fault as `IsFaultOf` (`specs/Rules`). Nothing is searched for: each rule looks up what
//! the listed pairs lead to. The exits of what is entered with a frame are found once, from the pairs of the root or from the pops of the
//! frame, by which are fewer; and the places of the pairs of a root are noted by state before the first of them is judged. Where pairs of
//! one root push the same frame into the same state, a later one that weighs no less is not looked up. All this serves speed alone, and
//! the contract of `check_pairs` does not see it.
#![tactic(auto)]

mod beginning;
mod checking;
mod exits;
mod extending;
mod fault;
mod least;
mod listing;
mod nesting;
mod noted;
mod opening;
mod pops;
#[cfg(test)]
mod tests;
mod under;
mod ways;

pub use checking::check_pairs;
pub use fault::PairFault;
pub use least::least_listed;
