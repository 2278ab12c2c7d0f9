//! The rules of a document on its request, its hops, their flags and the rules of devices.
//!
//! [`check_hops`] says that these rules pass, or tells the first that fails, with its line. The hops are taken one by one, each in a few
//! look-ups; flags take one look-up a place in a map; and the rules of devices are listed once and compared one by one. So a check takes
//! about as long as reading the document does. It does not look at potentials.
#![tactic(auto)]

mod arriving;
mod carrying;
mod checking;
mod ends;
mod flagging;
mod ruling;
mod weighing;

pub use checking::check_hops;
pub use ruling::count_rule_lines;
