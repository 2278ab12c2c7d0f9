ghost use Rattle.std.specs.Prelude.{◌≡◌, ◌<◌, [], Some, IfErr, OnOk, length, option_map, slice_get, take};
ghost use Rattle.std.specs.List.{flat_map};
ghost use Rattle.circuit_spec.specs.Network.{Placed, elements_of};
ghost use Rattle.circuit_spec.specs.Faults.{switch_faults, switches};
ghost use Rattle.layer_check.specs.Found.{IsFaultIn};
ghost use Rattle.layer_check.specs.Elements.{switch_faults_at, switch_faults_of};

use crate::making::FaultKind;
use crate::related::{Related, check_related};
use crate::repeats::{is_repeat, service_of};
use circuit_spec::LayerFault;
use nml_elements::{Element, SwitchE};
use nml_inventory::Inventory;

/// Whether the ports of a switching service fit it and one another, or what is wrong with them.
fn check_service<'a>(
    inventory: &'a Inventory,
    number: u64,
    service: &'a SwitchE,
) -> Result<(), LayerFault>
    requires { option_map (λ (p : Placed). p.element) (slice_get (elements_of inventory.now) number) ≡ Some (Element.Switching service.now) }
    ensures none { OnOk result (switch_faults inventory.now service.now ≡ []) }
    ensures fault { IfErr result (IsFaultIn (switch_faults inventory.now service.now)) }
{
    let related = Related {
        id: &service.id,
        encoding: service.encoding.as_ref(),
        own_type: None,
        one: inventory.inbound_of(number),
        other: inventory.outbound_of(number),
        layer: FaultKind::SwitchLayer,
        label_type: FaultKind::SwitchLabelType,
    };
    check_related(inventory, related)
}

/// Whether the element of a number is no switching service, or one whose ports fit, or what is wrong with them.
fn check_service_at(inventory: &Inventory, number: u64) -> Result<(), LayerFault>
    requires { number < length (elements_of inventory.now) }
    ensures none { OnOk result (switch_faults_at inventory.now number ≡ []) }
    ensures fault { IfErr result (IsFaultIn (switch_faults_at inventory.now number)) }
{
    match inventory.element(number) {
        Some(element) => match service_of(element) {
            Some(service) => check_service(inventory, number, service),
            None => Ok(()),
        },
        None => Ok(()),
    }
}

/// The same of the next element, where all before it fit. A service like an earlier one fits as that does, and is passed over.
fn check_next_service(inventory: &Inventory, number: u64) -> Result<(), LayerFault>
    requires within { number < length (elements_of inventory.now) }
    requires before { flat_map (switch_faults_of inventory.now) (take number (elements_of inventory.now)) ≡ [] }
    ensures none { OnOk result (switch_faults_at inventory.now number ≡ []) }
    ensures fault { IfErr result (IsFaultIn (switch_faults_at inventory.now number)) }
{
    if is_repeat(inventory, number) {
        return Ok(());
    }
    check_service_at(inventory, number)
}

/// Whether the ports of all switching services fit, or the first fault of the services in the order of elements.
pub fn check_services(inventory: &Inventory) -> Result<(), LayerFault>
    ensures none { OnOk result (flat_map (switch_faults inventory.now) (switches inventory.now) ≡ []) }
    ensures fault { IfErr result (IsFaultIn (flat_map (switch_faults inventory.now) (switches inventory.now))) }
{
    for number in 0..inventory.elements() {
        if let Err(fault) = check_next_service(inventory, number) {
            return Err(fault);
        }
    }
    Ok(())
}
