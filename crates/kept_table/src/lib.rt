//! The kept labels of a network, by label type.
//!
//! Two labels of a type are alike where no class set and no link set of that type has one without the other, and the request states
//! neither of them at an end of that type. A kept label is the least of a group of alike labels that meets a set.
//!
//! ```text
//!   class sets   vlan 100-110, vlan 105-120      the request states 110
//!   kept labels  100, 105, 110, 111
//! ```
//!
//! Contracts see a [`KeptTable`] as the list of its label types, each with its kept labels and the keeper of each label
//! (`specs/Table`). Sets are copied by their ranges, so that a wide set costs no more than a narrow one.
#![tactic(auto)]

mod building;
mod gathered;
mod gathering;
mod table;

pub use building::kept_of;
pub use table::KeptTable;

#[cfg(test)]
mod tests;
