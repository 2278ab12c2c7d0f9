ghost use Rattle.std.specs.Prelude.{◌≡◌, ◌<◌, ℕ, Some, IfErr, OnOk, length, slice_get};
ghost use Rattle.circuit_spec.specs.Faults.{ClassesFit};
ghost use Rattle.circuit_spec.specs.Network.{Port, ports};
ghost use Rattle.nml_inventory.specs.Aliases.{IsClassNumber};
ghost use Rattle.layer_check.specs.Classes.{is_other, IsLeastUnfit, IsUnfit, IsUnfitClass};
ghost use Rattle.layer_check.specs.Found.{IsAliasFault, IsClassFault};

use crate::comparing::{Reference, differs, type_at};
use crate::making::{FaultKind, fault_of};
use crate::members::first_other_member;
use crate::numbers::lesser;
use circuit_spec::LayerFault;
use ml_base::PortNo;
use nml_inventory::Inventory;

/// Whether a port has another encoding or another label type than the first port of its class.
fn is_other(inventory: &Inventory, first: PortNo, port: PortNo) -> bool
    requires lead { first.0 < length (ports inventory.now) }
    requires member { port.0 < length (ports inventory.now) }
    ensures { (p q : Port) → slice_get (ports inventory.now) first.0 ≡ Some p → slice_get (ports inventory.now) port.0 ≡ Some q → result ≡ is_other p q }
{
    let encoding = Reference::Encoding(inventory.encoding_of(first));
    let labeltype = Reference::LabelType(type_at(inventory, first));
    differs(inventory, port, encoding) || differs(inventory, port, labeltype)
}

/// The class of a port that does not fit the first port of it.
fn unfit_class(inventory: &Inventory, port: PortNo) -> Option<PortNo>
    requires { port.0 < length (ports inventory.now) }
    ensures { IsUnfitClass inventory.now port.0 result }
{
    let class = inventory.class(port);
    if is_other(inventory, class, port) {
        return Some(class);
    }
    None
}

/// The first class that one of its ports does not fit.
fn first_unfit_class(inventory: &Inventory) -> Option<PortNo>
    ensures { IsLeastUnfit inventory.now (length (ports inventory.now)) result }
{
    inventory.is_merged();
    let mut first = None;
    for number in 0..inventory.ports() {
        first = lesser(first, unfit_class(inventory, PortNo(number)));
    }
    first
}

/// Whether all ports of a class fit its first port, or what is wrong with the first that does not.
fn check_class(inventory: &Inventory, class: PortNo) -> Result<(), LayerFault>
    requires { IsClassNumber inventory.now class.0 class.0 }
    ensures fits { OnOk result ((n : ℕ) → ¬ IsUnfit inventory.now n class.0) }
    ensures fault { IfErr result (IsClassFault inventory.now class.0) }
{
    let encoding = Reference::Encoding(inventory.encoding_of(class));
    let labeltype = Reference::LabelType(type_at(inventory, class));
    if let Some(other) = first_other_member(inventory, class, encoding) {
        return Err(fault_of(
            FaultKind::AliasEncoding,
            inventory.name(class),
            inventory.name(other),
        ));
    }
    if let Some(other) = first_other_member(inventory, class, labeltype) {
        return Err(fault_of(
            FaultKind::AliasLabelType,
            inventory.name(class),
            inventory.name(other),
        ));
    }
    Ok(())
}

/// Whether all ports fit their classes, or the first fault of the classes in the order of their first ports.
pub fn check_classes(inventory: &Inventory) -> Result<(), LayerFault>
    ensures fit { OnOk result (ClassesFit inventory.now) }
    ensures fault { IfErr result (IsAliasFault inventory.now) }
{
    inventory.is_merged();
    match first_unfit_class(inventory) {
        Some(class) => check_class(inventory, class),
        None => Ok(()),
    }
}
