//! In which order the roots of a machine are best searched: in lanes, one after another.
//!
//! A segment is searched under its root, the request or a state that a push enters, and what is found under a root inside is
//! used by the pairs outside that push into it. Where the inner root is searched to its end first, each pair outside meets all
//! of it at once, and a search keeps to the data of one root at a time. So each entered state has a lane of its own, numbered
//! from the inside out as far as pushes nest without a cycle, and all other roots share the last lane.
//!
//! The order serves speed alone. A search is right whatever lanes its roots have, so contracts say how many lanes there are
//! and that each root has one of them, and not which.
#![tactic(auto)]

mod components;
mod nesting;
mod plan;
mod roots;
#[cfg(test)]
mod tests;

pub use plan::Plan;
