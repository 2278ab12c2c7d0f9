//! The commands `find` and `route`: the document that answers a request over the files of the words.
#![tactic(auto)]

mod finding;
mod lines;

pub use finding::{find, request_reply};
