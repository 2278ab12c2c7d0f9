ghost use Rattle.std.specs.Prelude.{◌≡◌, ◌<◌, IfOk, length};
ghost use Rattle.std.specs.Option.{option_copied};
ghost use Rattle.circuit_spec.specs.declared.hops.Request.{Request as RequestValue};
ghost use Rattle.circuit_spec.specs.Faults.{ClassesFit, IsKnown, IsKnownEnd, IsSound};
ghost use Rattle.circuit_spec.specs.Kept.{link_at};
ghost use Rattle.circuit_spec.specs.Network.{elements_of, ports};
ghost use Rattle.kept_table.specs.Gathering.{AddsClassAt, AddsLabels, AddsLinkAt, AddsStated, IsGathered};

use crate::gathered::Gathered;
use circuit_spec::Request;
use ml_base::{Id, NoMemory, PortNo, Wish};
use nml_elements::{Element, Labels, LinkE};
use nml_inventory::Inventory;
use std::alloc::Global;

/// The sets of all classes and links and the labels that the request states, by label type.
pub fn gathered(
    alloc: Global,
    inventory: &Inventory,
    request: &Request,
) -> Result<Gathered, NoMemory>
    requires sound { IsSound inventory.now }
    requires known { IsKnown inventory.now request.now }
    ensures { IfOk result (IsGathered inventory.now request.now (length (ports inventory.now)) (length (elements_of inventory.now)) 2) }
{
    let classes = class_sets(alloc, inventory)?;
    let sets = link_sets(alloc, inventory, classes)?;
    let more = with_stated(alloc, inventory, sets, &request.from, request.from_wish)?;
    with_stated(alloc, inventory, more, &request.to, request.to_wish)
}

/// The sets of all classes, whatever the request.
fn class_sets(alloc: Global, inventory: &Inventory) -> Result<Gathered, NoMemory>
    requires { ClassesFit inventory.now }
    ensures { IfOk result (λ all. (r : RequestValue) → IsGathered inventory.now r (length (ports inventory.now)) 0 0 all) }
{
    let mut gathered = Gathered::new(alloc, inventory.hashing());
    for port in 0..inventory.ports() {
        gathered = with_class(alloc, inventory, gathered, PortNo(port))?;
    }
    Ok(gathered)
}

/// With the set of the class, if the port is the first of it.
fn with_class(
    alloc: Global,
    inventory: &Inventory,
    gathered: Gathered,
    port: PortNo,
) -> Result<Gathered, NoMemory>
    requires fit { ClassesFit inventory.now }
    requires within { port.0 < length (ports inventory.now) }
    ensures { IfOk result (AddsClassAt inventory.now port.0 gathered) }
{
    inventory.is_merged();
    if inventory.class(port).0 != port.0 {
        return Ok(gathered);
    }
    gathered.with_labels(alloc, inventory.labels_of(port))
}

/// With the own sets of all links.
fn link_sets(alloc: Global, inventory: &Inventory, classes: Gathered) -> Result<Gathered, NoMemory>
    requires { (r : RequestValue) → IsGathered inventory.now r (length (ports inventory.now)) 0 0 classes }
    ensures { IfOk result (λ all. (r : RequestValue) → IsGathered inventory.now r (length (ports inventory.now)) (length (elements_of inventory.now)) 0 all) }
{
    let mut gathered = classes;
    for number in 0..inventory.elements() {
        gathered = with_link_at(alloc, inventory, gathered, number)?;
    }
    Ok(gathered)
}

fn link_of(element: &Element) -> Option<&LinkE>
    ensures { option_copied result ≡ link_at element.now }
{
    match element {
        Element::Link(link) => Some(link),
        _ => None,
    }
}

/// With the own set of the link, if the element is one.
fn with_link_at(
    alloc: Global,
    inventory: &Inventory,
    gathered: Gathered,
    number: u64,
) -> Result<Gathered, NoMemory>
    ensures { IfOk result (AddsLinkAt inventory.now number gathered) }
{
    match inventory.element(number) {
        Some(element) => match link_of(element) {
            Some(link) => gathered.with_labels(alloc, &link.labels),
            None => Ok(gathered),
        },
        None => Ok(gathered),
    }
}

/// With the label that the request states at an end, if it states one at a port that has a label type.
fn with_stated(
    alloc: Global,
    inventory: &Inventory,
    gathered: Gathered,
    port: &Id,
    wish: Wish,
) -> Result<Gathered, NoMemory>
    requires fit { ClassesFit inventory.now }
    requires known { IsKnownEnd inventory.now port.now wish }
    ensures { IfOk result (AddsStated inventory.now port.now wish gathered) }
{
    let Wish::Value(label) = wish else {
        return Ok(gathered);
    };
    let Some(port) = inventory.port(port.text()) else {
        return Ok(gathered);
    };
    match inventory.labels_of(port) {
        Labels::Unlabelled => Ok(gathered),
        Labels::Of { labeltype, .. } => gathered.with_single(alloc, labeltype, label),
    }
}
