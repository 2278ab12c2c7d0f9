ghost use Rattle.std.specs.Prelude.{◌≡◌, ◌<◌, ◌≤◌, length, map};
ghost use Rattle.ml_base.specs.declared.numbers.PortNo.{PortNo as PortNumber};
ghost use Rattle.circuit_spec.specs.Network.{elements_of, ports};
ghost use Rattle.nml_inventory.specs.Relations.{AreNumbersOf};
ghost use Rattle.machine_build.specs.Ways.{AreFitting, HaveSpans, carries, changes, is_far, is_near, takes};

use ml_base::{PortNo, Tag};
use nml_elements::{Element, Labels};
use nml_inventory::Inventory;
use open_places::{Places, Span};

/// The ports at the near side of an element, rising.
pub fn near_ports(inventory: &Inventory, number: u64) -> &[PortNo]
    requires { number < length (elements_of inventory.now) }
    ensures { AreNumbersOf inventory.now (is_near inventory.now) number (map (λ (p : PortNumber). p.0) result.now) }
{
    match inventory.element(number) {
        Some(Element::Switching(_) | Element::Conversion(_)) => inventory.inbound_of(number),
        Some(Element::Adaptation(_) | Element::Deadaptation(_)) => inventory.clients_of(number),
        _ => inventory.sources_of(number),
    }
}

/// The ports at the far side of an element, rising.
pub fn far_ports(inventory: &Inventory, number: u64) -> &[PortNo]
    requires { number < length (elements_of inventory.now) }
    ensures { AreNumbersOf inventory.now (is_far inventory.now) number (map (λ (p : PortNumber). p.0) result.now) }
{
    match inventory.element(number) {
        Some(Element::Switching(_) | Element::Conversion(_)) => inventory.outbound_of(number),
        Some(Element::Adaptation(_) | Element::Deadaptation(_)) => inventory.servers_of(number),
        _ => inventory.sinks_of(number),
    }
}

fn carries(labels: &Labels, label: Tag) -> bool
    ensures { result ≡ carries labels.now label }
{
    match labels {
        Labels::Unlabelled => true,
        Labels::Of { set, .. } => match label {
            Some(label) => set.has(label),
            None => false,
        },
    }
}

/// Whether the element takes the label.
pub fn takes(element: &Element, label: Tag) -> bool
    ensures { result ≡ takes element.now label }
{
    match element {
        Element::Link(link) => carries(&link.labels, label),
        _ => true,
    }
}

/// Whether another label may come out of the element than went in.
pub fn changes(element: &Element) -> bool
    ensures { result ≡ changes element.now }
{
    match element {
        Element::Link(_) => false,
        Element::Switching(service) => service.swapping,
        _ => true,
    }
}

/// The states of a port's class that have the label, or all of them where any may be there.
pub fn fitting(inventory: &Inventory, places: &Places, port: PortNo, any: bool, label: Tag) -> Span
    requires port { port.0 < length (ports inventory.now) }
    requires places { HaveSpans inventory.now places.now }
    ensures fitting { AreFitting inventory.now places.now.places port.0 any label result }
{
    let _ = inventory.class(port);
    let span = places.span(port);
    if any {
        return span;
    }
    match places.labelled(span, label) {
        Some(state) => Span {
            first: state.0,
            end: state.0 + 1,
        },
        None => Span {
            first: span.end,
            end: span.end,
        },
    }
}
