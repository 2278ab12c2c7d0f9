ghost use Rattle.std.specs.Prelude.{◌≡◌, ◌<◌, Some, length, slice_get, option_map};
ghost use Rattle.std.specs.Option.{option_copied};
ghost use Rattle.circuit_spec.specs.Faults.{same_type, type_of};
ghost use Rattle.circuit_spec.specs.Network.{Port, label_type, ports};
ghost use Rattle.layer_check.specs.Comparing.{differs_from, element_type, passes_at};

use ml_base::{Id, PortNo};
use nml_elements::{Element, Labels};
use nml_inventory::Inventory;

/// What ports are compared with: an encoding, or a label type or none.
#[derive(Clone, Copy)]
pub enum Reference<'a> {
    Encoding(&'a Id),
    LabelType(Option<&'a Id>),
}

/// The label type of labels, or none.
pub fn type_in(labels: &Labels) -> Option<&Id>
    ensures { option_copied result ≡ label_type labels.now }
{
    match labels {
        Labels::Unlabelled => None,
        Labels::Of { labeltype, .. } => Some(labeltype),
    }
}

fn element_type(element: &Element) -> Option<&Id>
    ensures { option_copied result ≡ element_type element.now }
{
    match element {
        Element::Port(port) => type_in(&port.labels),
        _ => None,
    }
}

/// The label type of a port, or none.
pub fn type_at(inventory: &Inventory, port: PortNo) -> Option<&Id>
    requires { port.0 < length (ports inventory.now) }
    ensures { option_map type_of (slice_get (ports inventory.now) port.0) ≡ Some (option_copied result) }
{
    inventory.is_merged();
    match inventory.element_no(inventory.name(port).text()) {
        Some(number) => match inventory.element(number) {
            Some(element) => element_type(element),
            None => None,
        },
        None => None,
    }
}

/// Whether both are the same, or neither is there.
pub fn same_type(one: Option<&Id>, other: Option<&Id>) -> bool
    ensures { result ≡ same_type (option_copied one.entry) (option_copied other.entry) }
{
    match (one, other) {
        (Some(one), Some(other)) => one == other,
        (None, None) => true,
        _ => false,
    }
}

/// Whether a port has another encoding, or label type, than the reference.
pub fn differs(inventory: &Inventory, port: PortNo, reference: Reference) -> bool
    requires { port.0 < length (ports inventory.now) }
    ensures { result ≡ passes_at inventory.now (differs_from reference.entry) port.0 }
{
    match reference {
        Reference::Encoding(encoding) => inventory.encoding_of(port) != encoding,
        Reference::LabelType(labeltype) => !same_type(type_at(inventory, port), labeltype),
    }
}
