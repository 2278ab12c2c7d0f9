//! What a run prints, and its exit status.
//!
//! Contracts see a reply as its status and its text, a list of bytes. A part of the work gives its value or a `Stop`: a reply that
//! ends the run, or want of memory; `specs/Through.antt` says what such a part owes.
#![tactic(auto)]

mod page;
mod reply;
mod text;

pub use page::Page;
pub use reply::{Reply, Status, Stop, ended, k_status_of, one_line, print, status_of};
pub use text::{Text, Texts};
