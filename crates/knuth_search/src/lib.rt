//! The cheapest segments of a pushdown machine: each reached pair with its least weight and a derivation of it.
#![tactic(auto)]

mod derived;
mod lane;
mod marks;
mod offered;
mod queue;
mod run;
#[cfg(test)]
mod saturation;
mod settle;
mod settled;
mod table;
#[cfg(test)]
mod tests;
mod ways;

pub use run::search;
pub use settled::Settled;
