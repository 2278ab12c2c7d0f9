//! The steps of a derivation, in order, one at a time. All memory is taken when the iterator is made, in time and space
//! linear in the number of steps; the stack is explicit, so that a derivation may be nested as deep as memory allows.
#![tactic(auto)]

mod fault;
mod iterator;
mod tasks;
#[cfg(test)]
mod tests;

pub use fault::UnfoldFault;
pub use iterator::Unfold;
