//! The commands `check` and `replay`: what is said of a document over the files of the words.
//!
//! Both read one document, ANSWER, besides their files. `check` tells whether it holds, and `replay` whether its rules carry a unit.
#![tactic(auto)]

mod checking;
mod document;
mod examining;
mod lines;
mod replaying;

pub use document::ANSWER_LIMIT;
pub use examining::{Question, examine};
