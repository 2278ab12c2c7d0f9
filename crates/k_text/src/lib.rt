//! The text of a list of the cheapest walks: how it is written.
//!
//! Contracts see `specs/Listing.antt`: the heading, the lines of each walk, why there are no more, and the last line. The lines of a
//! request and of a hop are those of a document.
#![tactic(auto)]

mod making;
mod writing;

pub use writing::k_write;
