ghost use Rattle.std.specs.Prelude.{◌≡◌, ◌↔◌, ◌<◌, [], IsTrue, MatchOption, Some, length, slice_get};
ghost use Rattle.nml_elements.specs.Labels.{is_among};
ghost use Rattle.circuit_spec.specs.Faults.{IsHere, IsKnown, IsKnownEnd, IsSound};
ghost use Rattle.circuit_spec.specs.Network.{IsClass, Port, ports};
ghost use Rattle.circuit_spec.specs.Steps.{IsWished, Walk};
ghost use Rattle.rule_replay.specs.Ends.{DoAgree, HasPlace, HasWished, IsAtEnd, IsClassAt, IsClassOf, IsNamedClass};

use circuit_spec::{Request, Unit};
use ml_base::{Id, PortNo, Tag, Wish};
use nml_elements::Labels;
use nml_inventory::Inventory;

/// Whether the label is among the labels.
fn has_label(labels: &Labels, label: u32) -> bool
    ensures { result ≡ is_among labels.now label }
{
    match labels {
        Labels::Unlabelled => false,
        Labels::Of { set, .. } => set.has(label),
    }
}

/// The class of the port of an id.
pub fn class_of(inventory: &Inventory, id: &Id) -> Option<PortNo>
    ensures { MatchOption result ((class : Port) → ¬ IsClass inventory.now id.now class) (λ number. IsClassOf inventory.now id.now number.0) }
{
    match inventory.port(id.text()) {
        Some(port) => Some(inventory.class(port)),
        None => None,
    }
}

/// Whether the label that is wished is in the set of the class.
fn is_here(inventory: &Inventory, number: PortNo, wish: Wish) -> bool
    requires sound { IsSound inventory.now }
    requires within { number.0 < length (ports inventory.now) }
    ensures { (class : Port) → IsClassAt inventory.now number.0 class → IsTrue result ↔ IsHere inventory.now class wish }
{
    match wish {
        Wish::Any => true,
        Wish::Value(label) => has_label(inventory.labels_of(number), label),
    }
}

/// Whether the end is a port, and the label that is wished there is in the set of its class.
fn is_known_end(inventory: &Inventory, id: &Id, wish: Wish) -> bool
    requires { IsSound inventory.now }
    ensures { IsTrue result ↔ IsKnownEnd inventory.now id.now wish }
{
    match class_of(inventory, id) {
        Some(class) => is_here(inventory, class, wish),
        None => false,
    }
}

/// Whether both ends of the request are known.
pub fn is_known(inventory: &Inventory, request: &Request) -> bool
    requires { IsSound inventory.now }
    ensures { IsTrue result ↔ IsKnown inventory.now request.now }
{
    is_known_end(inventory, &request.from, request.from_wish)
        && is_known_end(inventory, &request.to, request.to_wish)
}

/// Whether the class has the name.
fn is_named(inventory: &Inventory, number: PortNo, name: &Id) -> bool
    requires { number.0 < length (ports inventory.now) }
    ensures { (class : Port) → slice_get (ports inventory.now) number.0 ≡ Some class → IsTrue result ↔ (name.now ≡ class.id) }
{
    let own = inventory.name(number);
    *own == *name
}

/// Whether the id names a port of the class of this name.
fn is_in_class(inventory: &Inventory, id: &Id, name: &Id) -> bool
    ensures { IsTrue result ↔ IsNamedClass inventory.now id.now name.now }
{
    match class_of(inventory, id) {
        Some(class) => is_named(inventory, class, name),
        None => false,
    }
}

/// Whether the label, or none, is as the wish says.
fn is_wished(wish: Wish, label: Tag) -> bool
    ensures { IsTrue result ↔ IsWished wish label }
{
    match (wish, label) {
        (Wish::Any, _) => true,
        (Wish::Value(wished), Some(label)) => label == wished,
        (Wish::Value(_), None) => false,
    }
}

/// Whether the unit is in the class of TO, with a label that is wished there and no frames round it.
pub fn is_at_end(inventory: &Inventory, request: &Request, unit: &Unit) -> bool
    ensures { IsTrue result ↔ IsAtEnd inventory.now request.now unit.now }
{
    unit.stack.len() == 0
        && is_wished(request.to_wish, unit.label)
        && is_in_class(inventory, &request.to, &unit.class)
}

/// Whether a class with these labels has an open place.
fn has_place(labels: &Labels) -> bool
    ensures { IsTrue result ↔ HasPlace labels.now }
{
    match labels {
        Labels::Unlabelled => true,
        Labels::Of { set, .. } => set.least().is_some(),
    }
}

/// Whether the class has an open place that is wished, where a label that is wished is here.
fn has_wished(inventory: &Inventory, number: PortNo, wish: Wish) -> bool
    requires sound { IsSound inventory.now }
    requires within { number.0 < length (ports inventory.now) }
    ensures { (class : Port) → IsClassAt inventory.now number.0 class → IsHere inventory.now class wish → IsTrue result ↔ HasWished inventory.now class wish }
{
    match wish {
        Wish::Any => has_place(inventory.labels_of(number)),
        Wish::Value(_) => true,
    }
}

/// Whether an open place of the class is as both wishes say, where the labels that are wished are here.
fn do_agree(inventory: &Inventory, number: PortNo, one: Wish, other: Wish) -> bool
    requires sound { IsSound inventory.now }
    requires within { number.0 < length (ports inventory.now) }
    ensures { (class : Port) → IsClassAt inventory.now number.0 class → IsHere inventory.now class one → IsHere inventory.now class other → IsTrue result ↔ DoAgree inventory.now class one other }
{
    match one {
        Wish::Any => has_wished(inventory, number, other),
        Wish::Value(label) => is_wished(other, Some(label)),
    }
}

/// Whether one open place serves both ends.
pub fn serves_both(inventory: &Inventory, request: &Request) -> bool
    requires sound { IsSound inventory.now }
    requires known { IsKnown inventory.now request.now }
    ensures { IsTrue result ↔ Walk inventory.now request.now [] }
{
    match class_of(inventory, &request.from) {
        Some(class) => {
            is_in_class(inventory, &request.to, inventory.name(class))
                && do_agree(inventory, class, request.from_wish, request.to_wish)
        }
        None => false,
    }
}
