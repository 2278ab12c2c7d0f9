//! The elements of a topology file: their types, and how they are read from the bytes of a file and written.
#![tactic(auto)]

mod element_reading;
mod element_writing;
mod elements;
mod fault;
mod file_reading;
mod file_writing;
mod fitted_labels;
mod kind;
mod label_reading;
mod label_writing;
mod laws;
mod lifetime_reading;
mod lifetime_writing;
mod lifetimes;
mod living;
mod member_reading;
mod member_writing;
mod sharing;
mod windows;

pub use elements::{
    AdaptE, ConvE, Domain, DomainList, Element, ElementList, Entry, IdList, Labels, LinkE, NodeE,
    PortE, SwitchE,
};
pub use fault::ReadFault;
pub use file_reading::read_domain;
pub use file_writing::write_domain;
pub use laws::{existing_is_decided, ids_are_decided};
pub use lifetimes::{Lifetime, Window, exists_throughout};
pub use windows::during;

#[cfg(test)]
mod tests;
