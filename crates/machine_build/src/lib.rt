//! The machine of a network: its states are open places, and its steps are hops.
#![tactic(auto)]

mod adding;
mod allowed;
mod building;
mod built;
mod frames;
mod moves;
mod passing;
mod sides;
mod ways;

pub use building::build;
pub use built::Built;
pub use kept_table::{KeptTable, kept_of};
