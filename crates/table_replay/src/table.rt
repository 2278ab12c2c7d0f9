ghost use Rattle.std.specs.Prelude.{◌≡◌, ◌<◌, ◌≤◌, ◌+◌, IfOk, OnOk, Some, is_some, length, take, if◌then◌else◌, ◌≢◌};
ghost use Rattle.std.specs.Option.{option_copied};
ghost use Rattle.circuit_spec.specs.declared.hops.PlaceName.{PlaceName as Place};
ghost use Rattle.table_replay.specs.Tabled.{AddsRule, AreSlots, IsLeavingPlace, slot_at, slot_with};

use crate::key::key_of;
use circuit_spec::{Hop, PlaceName};
use device_rules::Rule;
use keyed_hash::Keyed;
use ml_base::NoMemory;
use nml_inventory::Inventory;
use std::alloc::Global;
use std::collections::HashMap;
use std::marker::Model;

/// The rules that leave from one place.
#[derive(Clone, Copy, Debug, PartialEq, Eq)]
pub enum Slot {
    /// One rule, by its number in the list.
    One(u64),
    Several,
}

/// The rules of a list by the places that they leave from. Contracts see the places with their slots.
#[derive(Drop)]
pub struct Table {
    slots: HashMap<PlaceName, Slot, Keyed>,
}

impl Model for Table {
    ghost use Rattle.std.specs.Prelude.{List};
    ghost use Rattle.circuit_spec.specs.declared.hops.PlaceName.{PlaceName as Place};
    ghost use Rattle.table_replay.specs.declared.table.Slot.{Slot as PlaceSlot};

    ghost Value = { List (Place × PlaceSlot) };

    ghost view = { λ table. table.slots.entries };
}

/// The place from which a hop leaves, if its port is there.
fn leaving_place(inventory: &Inventory, hop: &Hop) -> Result<Option<PlaceName>, NoMemory>
    ensures { IfOk result (IsLeavingPlace inventory.now hop.now) }
{
    match inventory.port(hop.from.text()) {
        Some(port) => Ok(Some(PlaceName {
            class: inventory.name(inventory.class(port)).share()?,
            label: hop.from_label,
        })),
        None => Ok(None),
    }
}

/// The slot of a place, where one is found, with a rule more.
fn slot_with(found: Option<&Slot>, number: u64) -> Slot
    ensures { result ≡ slot_with (option_copied found.entry) number }
{
    match found {
        Some(_) => Slot::Several,
        None => Slot::One(number),
    }
}

impl Table {
    /// Puts the rule of a number to those that leave from the place.
    fn add(&mut self, place: PlaceName, number: u64) -> Result<(), NoMemory>
        ensures adds { OnOk result (AddsRule self.old self.new place number) }
        ensures count { OnOk result (length self.new ≤ length self.old + 1) }
    {
        let slot = slot_with(self.slots.get(&place), number);
        let Ok(_) = self.slots.insert(place, slot) else {
            return Err(NoMemory);
        };
        Ok(())
    }

    /// What maps of the places that rules leave from hash by.
    pub fn hashing(&self) -> Keyed {
        *self.slots.hasher()
    }

    /// Takes the slot of a place out.
    pub fn take(&mut self, place: &PlaceName) -> Option<Slot>
        ensures slot { result ≡ slot_at self.old place.now }
        ensures others { (other : Place) → other ≢ place.now → slot_at self.new other ≡ slot_at self.old other }
        ensures count { length self.new + (if is_some result then 1 else 0) ≡ length self.old }
    {
        self.slots.remove(place)
    }
}

/// Puts the rule of a number to those before it.
fn add_rule(
    table: &mut Table,
    inventory: &Inventory,
    rules: &[Rule],
    number: usize,
) -> Result<(), NoMemory>
    requires below { number < length rules.now }
    requires slots { AreSlots inventory.now (take number rules.now) table.old }
    ensures slots { OnOk result (AreSlots inventory.now (take (number + 1) rules.now) table.new) }
    ensures count { OnOk result (length table.new ≤ length table.old + 1) }
{
    match leaving_place(inventory, &rules[number].hop)? {
        Some(place) => table.add(place, number as u64),
        None => Ok(()),
    }
}

/// The rules by the places that they leave from.
pub fn table_of(alloc: Global, inventory: &Inventory, rules: &[Rule]) -> Result<Table, NoMemory>
    ensures slots { IfOk result (AreSlots inventory.now rules.now) }
    ensures count { IfOk result (λ table. length table ≤ length rules.now) }
{
    let mut table = Table {
        slots: HashMap::with_hasher(alloc, key_of(inventory, rules)),
    };
    for number in 0..rules.len() {
        add_rule(&mut table, inventory, rules, number)?;
    }
    Ok(table)
}
