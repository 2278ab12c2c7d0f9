ghost use Rattle.std.specs.Prelude.{◌≡◌, ◌<◌, IsTrue, length, option_map, slice_get};
ghost use Rattle.std.specs.Option.{option_and_then, option_copied};
ghost use Rattle.circuit_spec.specs.Faults.{switch_at};
ghost use Rattle.circuit_spec.specs.Network.{Placed, elements_of};
ghost use Rattle.layer_check.specs.Elements.{IsRepeat};

use crate::comparing::same_type;
use nml_elements::{Element, SwitchE};
use nml_inventory::Inventory;

/// The switching service that an element is, if it is one.
pub fn service_of(element: &Element) -> Option<&SwitchE>
    ensures { option_copied result ≡ switch_at element.now }
{
    match element {
        Element::Switching(service) => Some(service),
        _ => None,
    }
}

/// The switching service of a number, if the element is one.
fn service_at(inventory: &Inventory, number: u64) -> Option<&SwitchE>
    ensures { option_copied result ≡ option_and_then switch_at (option_map (λ (p : Placed). p.element) (slice_get (elements_of inventory.now) number)) }
{
    match inventory.element(number) {
        Some(element) => service_of(element),
        None => None,
    }
}

/// Whether an earlier service has the same ports and states the same encoding, so that this one fits where that one does.
pub fn is_repeat(inventory: &Inventory, number: u64) -> bool
    requires { number < length (elements_of inventory.now) }
    ensures { IsTrue result → IsRepeat inventory.now number }
{
    let Some(other) = inventory.twin_of(number) else {
        return false;
    };
    let Some(service) = service_at(inventory, number) else {
        return false;
    };
    let Some(earlier) = service_at(inventory, other) else {
        return false;
    };
    same_type(earlier.encoding.as_ref(), service.encoding.as_ref())
}
