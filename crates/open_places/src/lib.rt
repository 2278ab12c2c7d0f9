//! The open places of a network whose label, if any, is kept.
#![tactic(auto)]

mod gathering;
mod opening;
mod places;
mod span;
mod spanning;

pub use opening::open_places;
pub use places::Places;
pub use span::Span;

#[cfg(test)]
mod tests;
