//! The segments of the machine of a network are the segments of the network.
#![tactic(auto)]

mod laws;

pub use laws::{pairs_are_lifted, reached_pairs_meet, segments_are_lifted};
