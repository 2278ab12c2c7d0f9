//! The command `k-find`: the list of the cheapest walks that answers a request over the files of the words.
#![tactic(auto)]

mod finding;

pub use finding::k_find;
