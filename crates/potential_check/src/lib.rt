//! Whether the potentials of an answer bound all walks: the rules of a certificate on them, over the machine of the request.
//!
//! Each potential is turned into a pair of the machine, and the rules are those on pairs (`pair_check`). What fails is told as the first
//! rule that fails, with the first potential of which it does not hold or with the outcome. Nothing is searched for: potentials that
//! are below the least weights, and keep the rules, are accepted.
#![tactic(auto)]

mod agreeing;
mod checking;
mod fault;
mod pairs;

pub use checking::check_potentials;
pub use fault::PotentialFault;
