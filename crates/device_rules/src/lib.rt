//! The rules of devices: what a rule is, which lists of rules are laid out, and which rules the hops of a circuit have.
//!
//! A rule is a hop with its number. Contracts see `AreLaidOut` (by domain in the order of its bytes, and within a domain by number) and
//! `AreRulesOf` (hop i as rule i). How rules are written is no matter here.
#![tactic(auto)]

mod order;
mod rules;
mod sorting;

pub use order::laid_out;
pub use rules::{Rule, RuleList};
pub use sorting::rules_of;
