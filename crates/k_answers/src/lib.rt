//! What the cheapest walks of a request are, and what a list of them says of all walks.
//!
//! A [`KAnswer`] has the request, walks with their weights, and why no more of them are listed. Contracts see
//!
//! - `IsKList`: the walks are the `k` cheapest over kept labels, no two of them the same, in order of weight;
//! - `IsKAnswer`: so they are for the request, with the hop limit, and the first of them tells the outcome over all labels;
//! - `IsKFormed`: each weight has a cost and a number of hops, so it can be written.
//!
//! How the walks are found or written is no matter here.
#![tactic(auto)]

mod answer;
mod laws;

pub use answer::{KAnswer, KHops, KHopsList};
pub use laws::{first_walks_tell_outcomes, listed_weights_are_known};
