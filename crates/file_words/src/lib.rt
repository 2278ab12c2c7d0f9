//! The network of the files that words name: it is accepted, or the run ends with the first fault of a read, a file or the network.
//!
//! A command may read more than its files: its own words. All words are read, the own ones first, before any file is parsed, and
//! faults are told by the number of their file alone.
#![tactic(auto)]

mod accepting;
mod fault_lines;
mod parsing;
mod reading;

pub use accepting::accept;
pub use parsing::{Sources, read_sources};
pub use reading::{FILE_LIMIT, FileWord};
