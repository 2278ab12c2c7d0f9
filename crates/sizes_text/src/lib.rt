//! The text of sizes of frames: for an adaptation the octets that it puts before a frame, for a layer the octets that a frame may have.
//!
//! Contracts see `Table` (what sizes are), `Text` (how they are spelled) and `Reading` (what bytes say, and the first line that does not
//! fit).
#![tactic(auto)]

mod laws;
mod line;
mod reader;
mod sizes;
#[cfg(test)]
mod tests;

pub use laws::{read_sizes_are_spelled, refused_sizes_line_is_first, spelled_sizes_are_read};
pub use line::{Measure, SizeLine};
pub use line_fault::LineFault as SizesFault;
pub use reader::read_sizes;
pub use sizes::Sizes;
