//! Why a text of lines is not read: its first line that does not fit, or want of memory.
//!
//! Contracts see `Answering`: what a reader answers that goes from state to state by lines, and which line it names.
#![tactic(auto)]

mod fault;

pub use fault::{LineFault, at_line};
