//! What answers a request: its outcome, the hops of a cheapest walk with their flags and rules, and the potentials.
#![tactic(auto)]

mod faults;
mod flagging;
mod known;
mod listing;
mod searching;
mod solving;

pub use faults::SolveFault;
pub use known::check_known;
pub use solving::{machine_of, solve};
