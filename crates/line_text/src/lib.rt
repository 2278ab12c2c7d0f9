//! Texts of lines and lines of words: what is cut off the front of a text or of a line, and what is put at the end of a line.
//!
//! A grammar says which line may come next. Contracts see `Lines` (what a text says by a grammar, and the first line that does not fit),
//! `Fields` (what one word says) and `Cursor` (what is left of a line).
#![tactic(auto)]

mod front;
mod lines;
mod pushing;
mod reading;
mod wishes;
mod writing;

pub use front::{take_end, take_id, take_number, take_tag};
pub use lines::next_line;
pub use pushing::{push_id, push_number, push_place, push_tag, push_word};
pub use reading::{Refused, cut, id, next_word, number, tag};
pub use wishes::{read_wish, take_wish};
pub use writing::write_line;
