ghost use Rattle.std.specs.Prelude.{◌≡◌, ◌&&◌, Bool, true, false, [], Some, IfErr, OnOk, find, option_map, unwrap_or};
ghost use Rattle.std.specs.Option.{option_copied};
ghost use Rattle.circuit_spec.specs.Network.{Port, ports};
ghost use Rattle.layer_check.specs.Comparing.{differs_from};
ghost use Rattle.layer_check.specs.Found.{IsFaultIn};
ghost use Rattle.layer_check.specs.Places.{first_place, number_of};
ghost use Rattle.layer_check.specs.Related.{AreListed, AreTogether, AreWithin, is_other_at, related_faults};

use crate::comparing::{Reference, differs, type_at};
use crate::making::{FaultKind, fault_of};
use crate::numbers::lesser;
use circuit_spec::LayerFault;
use ml_base::{Id, PortNo};
use nml_inventory::Inventory;

/// A link or a switching service: what it states of its layer, its ports in two lists, and the faults of them.
#[derive(Clone, Copy)]
pub struct Related<'a> {
    pub id: &'a Id,
    pub encoding: Option<&'a Id>,
    pub own_type: Option<&'a Id>,
    pub one: &'a [PortNo],
    pub other: &'a [PortNo],
    pub layer: FaultKind,
    pub label_type: FaultKind,
}

fn first_of(numbers: &[PortNo]) -> Option<PortNo>
    ensures { result ≡ find (λ n. true) numbers.now }
{
    numbers.first().copied()
}

/// The first of the ports that differs from the reference.
fn first_other(inventory: &Inventory, numbers: &[PortNo], reference: Reference) -> Option<PortNo>
    requires { AreWithin inventory.now numbers.now }
    ensures { result ≡ find (is_other_at inventory.now reference.entry) numbers.now }
{
    for port in numbers {
        if differs(inventory, *port, reference) {
            return Some(*port);
        }
    }
    None
}

/// The first of the ports of both lists.
fn first_of_both(inventory: &Inventory, one: &[PortNo], other: &[PortNo]) -> Option<PortNo>
    ensures { (test : Port → Bool) → AreTogether inventory.now test one.now other.now → number_of result ≡ first_place test (ports inventory.now) }
{
    let _ = inventory;
    lesser(first_of(one), first_of(other))
}

/// The first of the ports of both lists that differs from the reference.
fn other_of_both(
    inventory: &Inventory,
    one: &[PortNo],
    other: &[PortNo],
    reference: Reference,
) -> Option<PortNo>
    requires { AreListed inventory.now one.now other.now }
    ensures { (test : Port → Bool) → AreTogether inventory.now test one.now other.now → number_of result ≡ first_place (λ q. test q && differs_from reference.entry q) (ports inventory.now) }
{
    lesser(
        first_other(inventory, one, reference),
        first_other(inventory, other, reference),
    )
}

/// What is stated, or else the encoding of the first port.
fn encoding_stated<'a>(stated: Option<&'a Id>, first: &'a Id) -> &'a Id
    ensures { result.now ≡ unwrap_or (option_copied stated.entry) first.entry.now }
{
    match stated {
        Some(stated) => stated,
        None => first,
    }
}

/// What is stated, or else the label type of the first port.
fn type_stated<'a>(stated: Option<&'a Id>, first: Option<&'a Id>) -> Option<&'a Id>
    ensures { option_copied result ≡ unwrap_or (option_map Some (option_copied stated.entry)) (option_copied first.entry) }
{
    match stated {
        Some(stated) => Some(stated),
        None => first,
    }
}

/// Whether the ports of a link or a service fit, or what is wrong with the first that does not.
pub fn check_related(inventory: &Inventory, related: Related) -> Result<(), LayerFault>
    requires { AreListed inventory.now related.one.now related.other.now }
    ensures none { (test : Port → Bool) → AreTogether inventory.now test related.entry.one.now related.entry.other.now → OnOk result (related_faults inventory.now related.entry test ≡ []) }
    ensures fault { (test : Port → Bool) → AreTogether inventory.now test related.entry.one.now related.entry.other.now → IfErr result (IsFaultIn (related_faults inventory.now related.entry test)) }
{
    let Some(first) = first_of_both(inventory, related.one, related.other) else {
        return Ok(());
    };
    let encoding = encoding_stated(related.encoding, inventory.encoding_of(first));
    let reference = Reference::Encoding(encoding);
    if let Some(port) = other_of_both(inventory, related.one, related.other, reference) {
        return Err(fault_of(related.layer, related.id, inventory.name(port)));
    }
    let label_type = type_stated(related.own_type, type_at(inventory, first));
    let reference = Reference::LabelType(label_type);
    if let Some(port) = other_of_both(inventory, related.one, related.other, reference) {
        return Err(fault_of(related.label_type, related.id, inventory.name(port)));
    }
    Ok(())
}
