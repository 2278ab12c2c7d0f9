//! Networks of any size from a number, to try the search on: nested tunnels.
//!
//! Level 0 has eight links from the port x0 to the port y0. What runs through level k, from xk to yk, runs twice through level k - 1:
//! it is wrapped into it at xk and comes out at mk, and is wrapped again at mk and comes out at yk.
//!
//! ```text
//!   x1 --a1-->           -->u1-- m1 --b1-->           -->v1-- y1      level 1
//!             x0 ===> y0                   x0 ===> y0                 level 0
//! ```
//!
//! So a network of n levels has 7n + 10 elements, and its cheapest walk 5 * 2^n - 4 hops.
#![tactic(auto)]

mod elements;
mod generator;
mod laws;
mod levels;

pub use generator::{Generated, generate};
pub use laws::{generated_counts, generated_networks_are_accepted, generated_requests_have_walks};

#[cfg(test)]
mod tests;
