ghost use Rattle.std.specs.Prelude.{◌≡◌, ◌<◌, ◌∷◌, [], ◌++◌, IfOk, OnOk, filter, length};
ghost use Rattle.label_atoms.specs.Alike.{Climbing};
ghost use Rattle.label_sets.specs.Ranges.{is_within};
ghost use Rattle.circuit_spec.specs.Faults.{IsSound};
ghost use Rattle.circuit_spec.specs.Network.{ports};
ghost use Rattle.nml_inventory.specs.Aliases.{IsClassNumber};
ghost use Rattle.open_places.specs.Gathering.{labelled, within_ranges, Adds, AreGathered, IsPlaceOf};

use circuit_spec::PlaceName;
use kept_table::KeptTable;
use ml_base::{Id, NoMemory, PortNo, Tag};
use nml_elements::Labels;
use nml_inventory::Inventory;
use std::alloc::Global;

/// The places of all classes, class by class.
pub fn gather(
    alloc: Global,
    inventory: &Inventory,
    kept: &KeptTable,
) -> Result<Vec<PlaceName>, NoMemory>
    requires { IsSound inventory.now }
    ensures { IfOk result (λ places. AreGathered inventory.now kept.now (length (ports inventory.now)) places.items) }
{
    let mut places = Vec::new(alloc);
    for number in 0..inventory.ports() {
        add_port(&mut places, inventory, kept, PortNo(number))?;
    }
    Ok(places)
}

/// Adds the places of the class that a port names, if it names one.
fn add_port(
    places: &mut Vec<PlaceName>,
    inventory: &Inventory,
    kept: &KeptTable,
    port: PortNo,
) -> Result<(), NoMemory>
    requires sound { IsSound inventory.now }
    requires port { port.0 < length (ports inventory.now) }
    ensures { OnOk result (Adds (IsPlaceOf inventory.now kept.now port.0) places.old.items places.new.items) }
{
    inventory.is_merged();
    if inventory.class(port) != port {
        return Ok(());
    }
    add_class(places, inventory, kept, port)
}

/// Adds the places of a class, by its first port.
fn add_class(
    places: &mut Vec<PlaceName>,
    inventory: &Inventory,
    kept: &KeptTable,
    class: PortNo,
) -> Result<(), NoMemory>
    requires sound { IsSound inventory.now }
    requires port { class.0 < length (ports inventory.now) }
    requires first { IsClassNumber inventory.now class.0 class.0 }
    ensures { OnOk result (Adds (IsPlaceOf inventory.now kept.now class.0) places.old.items places.new.items) }
{
    let name = inventory.name(class);
    match inventory.labels_of(class) {
        Labels::Unlabelled => add_place(places, name, None),
        Labels::Of { labeltype, set } => {
            add_ranges(places, name, kept.labels(labeltype), set.ranges())
        }
    }
}

/// Adds the places of a class at those of the labels that are in one of the ranges.
pub fn add_ranges(
    places: &mut Vec<PlaceName>,
    class: &Id,
    labels: &[u32],
    ranges: &[(u32, u32)],
) -> Result<(), NoMemory>
    requires { Climbing 0 labels.now }
    ensures { OnOk result (places.new.items ≡ places.old.items ++ within_ranges class.now labels.now ranges.now) }
{
    for range in ranges {
        add_labels(places, class, within(labels, *range))?;
    }
    Ok(())
}

/// Adds the places of a class at these labels.
fn add_labels(places: &mut Vec<PlaceName>, class: &Id, labels: &[u32]) -> Result<(), NoMemory>
    ensures { OnOk result (places.new.items ≡ places.old.items ++ labelled class.now labels.now) }
{
    for label in labels {
        add_place(places, class, Some(*label))?;
    }
    Ok(())
}

/// Adds the place of a class at this label, or at none.
pub fn add_place(places: &mut Vec<PlaceName>, class: &Id, label: Tag) -> Result<(), NoMemory>
    ensures { OnOk result (places.new.items ≡ places.old.items ++ (record { class = class.now; label = label }) ∷ []) }
{
    let class = class.share()?;
    match places.push(PlaceName { class, label }) {
        Ok(()) => Ok(()),
        Err(_) => Err(NoMemory),
    }
}

/// Those of the labels that are in the range.
fn within(labels: &[u32], range: (u32, u32)) -> &[u32]
    requires { Climbing 0 labels.now }
    ensures { result.now ≡ filter (is_within range) labels.now }
{
    let first = labels.partition_point(|label| *label < range.0);
    let from_first = &labels[first..];
    let count = from_first.partition_point(|label| *label <= range.1);
    &from_first[..count]
}
