//! The product of a pushdown machine with finitely many marks, whose runs are the runs of the machine that a rule of marks allows.
//!
//! A rule says for each step, and each mark that a run may have before it, which mark it has behind it, or that the step must not be
//! taken then. A push puts a mark beside its frame, which depends on the mark before it, and a pop sees the mark of the frame that it
//! takes off. So what a run may do can depend on what it did, as far as finitely many marks tell it, and a mark can go on through a
//! frame, or wait in it and come back.
//!
//! The product is a machine again: its states are a state and a mark each, and its frames a frame and a mark. So whatever searches a
//! machine searches the allowed runs of a machine. Contracts say which steps it has, in which order; the laws say that its runs are the
//! runs of the machine together with runs of marks ([`product_runs_are_marked`]), and that each run of the machine that has a run of
//! marks is one of the product ([`marked_runs_are_in_product`]).
#![tactic(auto)]

mod building;
mod laws;
mod made;
mod marks;
mod numbers;
mod steps;
#[cfg(test)]
mod tests;

pub use laws::{
    marked_runs_are_in_product, numbers_are_apart, numbers_are_within, product_runs_are_marked,
};
pub use made::Product;
pub use marks::Marks;
