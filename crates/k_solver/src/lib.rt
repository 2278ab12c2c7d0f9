//! The cheapest walks of a request over an inventory, as many as are asked for.
//!
//! The request's machine is that of `finder_core`. `k_cheapest` lists walks of it; here each of their steps becomes a hop. Different
//! steps have different hops, and each hop between open places is that of a step. So no two listed walks are the same, and what is not
//! listed is no lighter.
#![tactic(auto)]

mod listing;
mod solving;
#[cfg(test)]
mod tests;

pub use solving::k_solve;
