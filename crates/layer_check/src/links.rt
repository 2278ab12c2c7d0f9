ghost use Rattle.std.specs.Prelude.{◌≡◌, ◌<◌, [], Some, IfErr, OnOk, length, option_map, slice_get};
ghost use Rattle.std.specs.List.{flat_map};
ghost use Rattle.std.specs.Option.{option_copied};
ghost use Rattle.circuit_spec.specs.Network.{Placed, elements_of};
ghost use Rattle.circuit_spec.specs.Kept.{link_at, links};
ghost use Rattle.circuit_spec.specs.Faults.{link_faults};
ghost use Rattle.layer_check.specs.Found.{IsFaultIn};
ghost use Rattle.layer_check.specs.Elements.{link_faults_at};

use crate::comparing::type_in;
use crate::making::FaultKind;
use crate::related::{Related, check_related};
use circuit_spec::LayerFault;
use nml_elements::{Element, LinkE};
use nml_inventory::Inventory;

fn link_of(element: &Element) -> Option<&LinkE>
    ensures { option_copied result ≡ link_at element.now }
{
    match element {
        Element::Link(link) => Some(link),
        _ => None,
    }
}

/// Whether the ports of a link fit it and one another, or what is wrong with them.
fn check_link<'a>(inventory: &'a Inventory, number: u64, link: &'a LinkE) -> Result<(), LayerFault>
    requires { option_map (λ (p : Placed). p.element) (slice_get (elements_of inventory.now) number) ≡ Some (Element.Link link.now) }
    ensures none { OnOk result (link_faults inventory.now link.now ≡ []) }
    ensures fault { IfErr result (IsFaultIn (link_faults inventory.now link.now)) }
{
    let related = Related {
        id: &link.id,
        encoding: link.encoding.as_ref(),
        own_type: type_in(&link.labels),
        one: inventory.sources_of(number),
        other: inventory.sinks_of(number),
        layer: FaultKind::LinkLayer,
        label_type: FaultKind::LinkLabelType,
    };
    check_related(inventory, related)
}

/// Whether the element of a number is no link, or one whose ports fit, or what is wrong with them.
fn check_link_at(inventory: &Inventory, number: u64) -> Result<(), LayerFault>
    requires { number < length (elements_of inventory.now) }
    ensures none { OnOk result (link_faults_at inventory.now number ≡ []) }
    ensures fault { IfErr result (IsFaultIn (link_faults_at inventory.now number)) }
{
    match inventory.element(number) {
        Some(element) => match link_of(element) {
            Some(link) => check_link(inventory, number, link),
            None => Ok(()),
        },
        None => Ok(()),
    }
}

/// Whether the ports of all links fit, or the first fault of the links in the order of elements.
pub fn check_links(inventory: &Inventory) -> Result<(), LayerFault>
    ensures none { OnOk result (flat_map (link_faults inventory.now) (links inventory.now) ≡ []) }
    ensures fault { IfErr result (IsFaultIn (flat_map (link_faults inventory.now) (links inventory.now))) }
{
    for number in 0..inventory.elements() {
        if let Err(fault) = check_link_at(inventory, number) {
            return Err(fault);
        }
    }
    Ok(())
}
