//! The command that words spell: words that a program was called with, behind its name.
//!
//! Contracts see the words as a list of strings, and `specs/Words.antt` says which command they spell, if any.
#![tactic(auto)]

mod words;

pub use words::{Asked, Command, End, Examined, NameList, WordsFault, parse_words};
