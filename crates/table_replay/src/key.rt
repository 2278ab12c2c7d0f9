use device_rules::Rule;
use keyed_hash::{Keyed, ReadDigest};
use ml_base::{Id, Tag};
use nml_inventory::Inventory;

/// Takes in a place, by an id for its class.
pub fn add_place(digest: &mut ReadDigest, class: &Id, label: Tag) {
    digest.add_text(class.text());
    match label {
        Some(label) => digest.add_number(u64::from(label) + 1),
        None => digest.add_number(0),
    }
}

/// The key of the places that rules leave from, which the files and the rules decide.
pub fn key_of(inventory: &Inventory, rules: &[Rule]) -> Keyed {
    let mut digest = ReadDigest::after(&inventory.hashing());
    for rule in rules {
        add_place(&mut digest, &rule.hop.from, rule.hop.from_label);
    }
    digest.key()
}
