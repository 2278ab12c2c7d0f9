// The first fault of a topology, or its inventory.
ghost use Rattle.std.specs.Prelude.{◌≡◌, ◌≢◌, ◌<◌, ◌^◌, ◌≤◌, [], length, IfOk};
ghost use Rattle.circuit_spec.specs.Faults.{IsAccepted, IsSound, merge_faults};
ghost use Rattle.circuit_spec.specs.Network.{Topology, elements_of};
ghost use Rattle.nml_inventory.specs.Numbers.{IsMergeFault};
ghost use Rattle.layer_check.specs.Found.{IsLayerFault};
ghost use Rattle.file_words.specs.Accepting.{IsRejected, IsUnmerged, IsUnsound};
ghost use Rattle.file_words.specs.Lines.{layer_line, pair_line, spot_of};
ghost use Rattle.replies.specs.Through.{Passes, IsStop, IsText};

use crate::fault_lines::{make_merge_line, make_pair_line};
use circuit_spec::{LayerFault, MergeFault, Spot};
use layer_check::check;
use ml_base::{Id, NoMemory};
use nml_elements::DomainList;
use nml_inventory::{Inventory, merge};
use replies::{Status, Stop, Text, ended};
use std::alloc::Global;

fn unmerged(alloc: Global, fault: &MergeFault) -> Stop
    ensures { (T : Topology) → IsMergeFault T fault.now → IsStop result (IsUnmerged T) }
{
    match make_merge_line(alloc, fault) {
        Ok(line) => ended(alloc, Status::Fault, line),
        Err(NoMemory) => Stop::NoMemory,
    }
}

fn merged(alloc: Global, domains: DomainList) -> Result<Inventory, Stop>
    requires few { length (elements_of domains) < 2 ^ 32 }
    ensures same { IfOk result (λ inventory. inventory ≡ domains) }
    ensures merged { Passes result (λ inventory. merge_faults domains ≡ []) (IsUnmerged domains) }
{
    match merge(alloc, domains) {
        Ok(inventory) => Ok(inventory),
        Err(fault) => Err(unmerged(alloc, &fault)),
    }
}

/// Where the element of this id stands.
fn spot_of(inventory: &Inventory, id: &Id) -> Spot
    ensures { result ≡ spot_of inventory.now id.now }
{
    match inventory.element_no(id.text()) {
        Some(number) => inventory.spot(number),
        None => Spot {
            file: 0,
            element: 0,
        },
    }
}

fn line_on(
    alloc: Global,
    inventory: &Inventory,
    at: &Id,
    word: &[u8],
    first: &Id,
    second: &Id,
) -> Result<Text, NoMemory>
    requires { length word.now ≤ 20 }
    ensures { IfOk result (λ line. line ≡ pair_line (spot_of inventory.now at.now) word.now first.now second.now) }
{
    make_pair_line(alloc, spot_of(inventory, at), word, first, second)
}

/// The line on a fault of the layers.
fn make_layer_line(
    alloc: Global,
    inventory: &Inventory,
    fault: &LayerFault,
) -> Result<Text, NoMemory>
    ensures line { IfOk result (λ line. line ≡ layer_line inventory.now fault.now) }
    ensures told { IfOk result (λ line. fault.now ≢ LayerFault.NoMemory) }
{
    match fault {
        LayerFault::AliasEncoding { first, second } => {
            line_on(alloc, inventory, second, b"alias-encoding", first, second)
        }
        LayerFault::AliasLabelType { first, second } => {
            line_on(alloc, inventory, second, b"alias-label", first, second)
        }
        LayerFault::LinkLayer { link, port } => {
            line_on(alloc, inventory, link, b"link-layer", link, port)
        }
        LayerFault::LinkLabelType { link, port } => {
            line_on(alloc, inventory, link, b"link-label", link, port)
        }
        LayerFault::SwitchLayer { service, port } => {
            line_on(alloc, inventory, service, b"switch-layer", service, port)
        }
        LayerFault::SwitchLabelType { service, port } => {
            line_on(alloc, inventory, service, b"switch-label", service, port)
        }
        LayerFault::NoMemory => Err(NoMemory),
    }
}

fn unsound(alloc: Global, inventory: &Inventory, fault: &LayerFault) -> Stop
    requires merged { merge_faults inventory.now ≡ [] }
    requires found { IsLayerFault inventory.now fault.now }
    ensures { IsStop result (IsUnsound inventory.now) }
{
    match make_layer_line(alloc, inventory, fault) {
        Ok(line) => ended(alloc, Status::Fault, line),
        Err(NoMemory) => Stop::NoMemory,
    }
}

fn checked(alloc: Global, inventory: Inventory) -> Result<Inventory, Stop>
    requires merged { merge_faults inventory ≡ [] }
    ensures same { IfOk result (λ sound. sound ≡ inventory) }
    ensures sound { Passes result (λ sound. IsSound inventory) (IsUnsound inventory) }
{
    match check(&inventory) {
        Ok(()) => Ok(inventory),
        Err(fault) => Err(unsound(alloc, &inventory, &fault)),
    }
}

/// The inventory of these domains, where they are an accepted topology.
pub fn accept(alloc: Global, domains: DomainList) -> Result<Inventory, Stop>
    requires few { length (elements_of domains) < 2 ^ 32 }
    ensures same { IfOk result (λ inventory. inventory ≡ domains) }
    ensures accepted { Passes result (λ inventory. IsAccepted domains) (IsRejected domains) }
{
    let inventory = merged(alloc, domains)?;
    let inventory = checked(alloc, inventory)?;
    Ok(inventory)
}
