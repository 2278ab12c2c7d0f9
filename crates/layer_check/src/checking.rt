ghost use Rattle.std.specs.Prelude.{IfErr, OnOk};
ghost use Rattle.circuit_spec.specs.Faults.{IsSound};
ghost use Rattle.layer_check.specs.Found.{IsLayerFault};

use crate::classes::check_classes;
use crate::links::check_links;
use crate::services::check_services;
use circuit_spec::LayerFault;
use nml_inventory::Inventory;

/// Whether the layers of a topology fit, or the first fault of them: first of the classes of aliases in the order of their first
/// ports, then of the links and then of the switching services in the order of elements. A fault names ids of elements.
#[tactic(auto, using(crate::proofs::FirstFaults::link_first))]
pub fn check(inventory: &Inventory) -> Result<(), LayerFault>
    ensures sound { OnOk result (IsSound inventory.now) }
    ensures fault { IfErr result (IsLayerFault inventory.now) }
{
    if let Err(fault) = check_classes(inventory) {
        return Err(fault);
    }
    if let Err(fault) = check_links(inventory) {
        return Err(fault);
    }
    check_services(inventory)
}
