ghost use Rattle.std.specs.Prelude.{◌≡◌, IfOk, IfErr, OnOk};
ghost use Rattle.nml_elements.specs.Labels.{is_among};
ghost use Rattle.circuit_spec.specs.Faults.{IsKnown, IsKnownEnd, IsSound};
ghost use Rattle.finder_core.specs.Refusals.{IsClassOf, IsMissed, IsRefusal, IsUnknown};

use crate::faults::SolveFault;
use circuit_spec::Request;
use ml_base::{Id, PortNo, Wish};
use nml_elements::Labels;
use nml_inventory::Inventory;

/// The class of the port of the id.
fn class_of(inventory: &Inventory, id: &Id) -> Result<PortNo, SolveFault>
    ensures ok { IfOk result (λ class. IsClassOf inventory.now id.now class.0) }
    ensures err { IfErr result (IsUnknown inventory.now id.now) }
{
    match inventory.port(id.text()) {
        Some(port) => Ok(inventory.class(port)),
        None => {
            let id = id.share()?;
            Err(SolveFault::UnknownPort { id })
        }
    }
}

/// Whether the label is among the labels.
fn has_label(labels: &Labels, label: u32) -> bool
    ensures { result ≡ is_among labels.now label }
{
    match labels {
        Labels::Unlabelled => false,
        Labels::Of { set, .. } => set.has(label),
    }
}

/// Refuses a wish that states a label which the class of its port does not have.
fn check_wish(inventory: &Inventory, id: &Id, class: PortNo, wish: Wish) -> Result<(), SolveFault>
    requires sound { IsSound inventory.now }
    requires class { IsClassOf inventory.now id.now class.0 }
    ensures ok { OnOk result (IsKnownEnd inventory.now id.now wish) }
    ensures err { IfErr result (IsMissed inventory.now id.now wish) }
{
    let Wish::Value(label) = wish else {
        return Ok(());
    };
    if has_label(inventory.labels_of(class), label) {
        return Ok(());
    }
    let id = id.share()?;
    Err(SolveFault::LabelNotHere { id, label })
}

/// Refuses a request that the topology does not know.
///
/// # Errors
///
/// `UnknownPort` where FROM or else TO is no port, `LabelNotHere` where the label that is stated at FROM or else at TO is not in the
/// set of its port's class, and `NoMemory`.
pub fn check_known(inventory: &Inventory, request: &Request) -> Result<(), SolveFault>
    requires sound { IsSound inventory.now }
    ensures ok { OnOk result (IsKnown inventory.now request.now) }
    ensures err { IfErr result (IsRefusal inventory.now request.now) }
{
    let from = match class_of(inventory, &request.from) {
        Ok(class) => class,
        Err(fault) => return Err(fault),
    };
    let to = match class_of(inventory, &request.to) {
        Ok(class) => class,
        Err(fault) => return Err(fault),
    };
    if let Err(fault) = check_wish(inventory, &request.from, from, request.from_wish) {
        return Err(fault);
    }
    if let Err(fault) = check_wish(inventory, &request.to, to, request.to_wish) {
        return Err(fault);
    }
    Ok(())
}
