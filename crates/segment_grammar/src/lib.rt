//! The segments of a machine under its roots: what is reached, weights of reached pairs, and the steps by where they begin and end.
#![tactic(auto)]

mod frame_rows;
mod grouped;
mod index;
mod laws;
mod potentials;
mod rows;
#[cfg(test)]
mod tests;

pub use index::Index;
pub use laws::reached_pairs_are_generated;
pub use potentials::{Pot, Potentials};
pub use rows::Rows;
