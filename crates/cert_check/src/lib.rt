//! Whether a document is a certificate.
//!
//! [`verify`] takes an answer and a network, and says that the answer is a certificate, or which rule fails first and at which line.
//! [`judge`] does so for the bytes of a document. A certificate bounds all walks: what is found is a circuit of the stated weight, and no
//! walk weighs less. Nothing is searched for, so a fault of a search is not repeated here: the hops are taken one by one
//! (`hop_check`), and the potentials are looked at against the machine of the request (`potential_check`).
//!
//! ```text
//!   circuit 1
//!   request a any b any
//!   outcome found 1 1
//!   hop 1 link l a - b - d
//!   domain d
//!   rule 1 carry l a - b -
//!   top a - 0 0
//!   top b - 1 1        were this 2 1, line 7 would be told: from a the link leads on with 1 1
//!   end
//! ```
#![tactic(auto)]

mod judging;
mod lines;
#[cfg(test)]
mod tests;
mod verifying;

pub use judging::judge;
pub use verifying::verify;
