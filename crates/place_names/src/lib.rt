//! Ids, labels and places as they are named: which texts and numbers are ones, and in which order they stand.
//!
//! All texts and lists of names are held to the same order: ids by their bytes, no label before a label, places by port and then by label.
#![tactic(auto)]

mod names;

pub use names::{id_below, know_place, place_below, places_equal, tag_below, tags_equal};
