//! Whether the layers of a topology fit, or the first fault of them.
#![tactic(auto)]

mod checking;
mod classes;
mod comparing;
mod links;
mod making;
mod members;
mod numbers;
mod related;
mod repeats;
mod services;

pub use checking::check;
pub use circuit_spec::LayerFault;
