ghost use Rattle.std.specs.Prelude.{◌≡◌, ◌↔◌, ◌<◌, IsTrue, length};
ghost use Rattle.circuit_spec.specs.Faults.{IsSound};
ghost use Rattle.circuit_spec.specs.Network.{IsOpen, Name, Port, ports};
ghost use Rattle.circuit_spec.specs.Steps.{IsCarried};
ghost use Rattle.nml_inventory.specs.Relations.{AreClassLabels};
ghost use Rattle.packet_replay.specs.Carried.{admits};
ghost use Rattle.packet_replay.specs.Conditions.{FitsLabels, KeepsLabel, Way};
ghost use Rattle.packet_replay.specs.Numbered.{AreNumbers, IsEnd};

use crate::numbers::{End, Numbers, element_at};
use circuit_spec::{Hop, Unit};
use ml_base::Tag;
use nml_elements::{Element, Labels};
use nml_inventory::Inventory;

/// Whether two labels, or none, are the same.
pub fn is_same_label(one: Tag, other: Tag) -> bool
    ensures { IsTrue result ↔ one ≡ other }
{
    match (one, other) {
        (Some(one), Some(other)) => one == other,
        (None, None) => true,
        _ => false,
    }
}

/// Whether labels have the label, or there are none of either.
fn admits(labels: &Labels, label: Tag) -> bool
    ensures { result ≡ admits labels.now label }
{
    match (labels, label) {
        (Labels::Unlabelled, None) => true,
        (Labels::Of { set, .. }, Some(label)) => set.has(label),
        _ => false,
    }
}

/// The labels that all ports of the end's class have.
fn class_labels(inventory: &Inventory, end: End) -> &Labels
    requires sound { IsSound inventory.now }
    requires port { end.port.0 < length (ports inventory.now) }
    ensures { (id : Name) (class : Port) → IsEnd inventory.now id class end → AreClassLabels inventory.now class result.now }
{
    inventory.labels_of(end.port)
}

/// Whether the place of the end's class and the label is open.
fn is_open(inventory: &Inventory, end: End, label: Tag) -> bool
    requires sound { IsSound inventory.now }
    requires port { end.port.0 < length (ports inventory.now) }
    ensures { (id : Name) (class : Port) → IsEnd inventory.now id class end → IsTrue result ↔ IsOpen inventory.now class label }
{
    admits(class_labels(inventory, end), label)
}

/// Whether a link with these labels of its own takes the label.
fn is_carried(labels: &Labels, label: Tag) -> bool
    ensures { IsTrue result ↔ IsCarried labels.now label }
{
    match (labels, label) {
        (Labels::Unlabelled, _) => true,
        (Labels::Of { set, .. }, Some(label)) => set.has(label),
        _ => false,
    }
}

/// Whether the element's label rule holds.
fn keeps_label(element: &Element, hop: &Hop) -> bool
    ensures { IsTrue result ↔ KeepsLabel hop.now element.now }
{
    let same = is_same_label(hop.to_label, hop.from_label);
    match element {
        Element::Link(link) => same && is_carried(&link.labels, hop.from_label),
        Element::Switching(service) => service.swapping || same,
        _ => true,
    }
}

/// Whether both places of the hop are open.
fn are_open(inventory: &Inventory, hop: &Hop, numbers: Numbers) -> bool
    requires sound { IsSound inventory.now }
    requires numbers { (way : Way) × AreNumbers inventory.now hop.now way numbers }
    ensures { (way : Way) → AreNumbers inventory.now hop.now way numbers → IsTrue result ↔ (IsOpen inventory.now way.from hop.now.from_label × IsOpen inventory.now way.to hop.now.to_label) }
{
    is_open(inventory, numbers.from, hop.from_label) && is_open(inventory, numbers.to, hop.to_label)
}

/// Whether the unit has the from label, both places are open, and the element's label rule holds.
pub fn fits_labels(inventory: &Inventory, unit: &Unit, hop: &Hop, numbers: Numbers) -> bool
    requires sound { IsSound inventory.now }
    requires numbers { (way : Way) × AreNumbers inventory.now hop.now way numbers }
    ensures { (way : Way) → AreNumbers inventory.now hop.now way numbers → IsTrue result ↔ FitsLabels inventory.now unit.now hop.now way }
{
    if !is_same_label(unit.label, hop.from_label) {
        return false;
    }
    if !are_open(inventory, hop, numbers) {
        return false;
    }
    keeps_label(element_at(inventory, numbers.element), hop)
}
