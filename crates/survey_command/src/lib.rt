//! The command `survey`: the counts of the files of the words.
#![tactic(auto)]

mod lines;
mod surveying;

pub use surveying::survey;
