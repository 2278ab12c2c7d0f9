ghost use Rattle.std.specs.Prelude.{◌≡◌, ◌↔◌, ◌<◌, ◌&&◌, IsTrue, Some, length, slice_get};
ghost use Rattle.alias_merge.specs.Rising.{holds};
ghost use Rattle.circuit_spec.specs.Network.{Name, Placed, Port, elements_of, ports};
ghost use Rattle.packet_replay.specs.Conditions.{IsRelated, Relates, Way};
ghost use Rattle.packet_replay.specs.Numbered.{AreNumbers, IsEnd, Rises, kind_of, numbers_in, relates_by};

use crate::numbers::{End, Numbers, element_at};
use circuit_spec::{Hop, HopKind, Unit};
use ml_base::PortNo;
use nml_elements::Element;
use nml_inventory::Inventory;

/// Whether a rising list of ports has the port.
fn is_listed(found: &[PortNo], port: PortNo) -> bool
    ensures { Rises 0 (numbers_in found.now) → result ≡ holds (numbers_in found.now) port.0 }
{
    let place = found.partition_point(|listed| listed.0 < port.0);
    match found.get(place) {
        Some(listed) => listed.0 == port.0,
        None => false,
    }
}

/// Whether two rising lists have each its port.
fn are_listed(ones: &[PortNo], one: PortNo, others: &[PortNo], other: PortNo) -> bool
    ensures { Rises 0 (numbers_in ones.now) → Rises 0 (numbers_in others.now) → result ≡ (holds (numbers_in ones.now) one.0 && holds (numbers_in others.now) other.0) }
{
    is_listed(ones, one) && is_listed(others, other)
}

/// Whether the element relates the ports of the hop as hops of the kind want it.
fn relates_by(inventory: &Inventory, kind: HopKind, numbers: Numbers) -> bool
    requires { numbers.element < length (elements_of inventory.now) }
    ensures { (e : Placed) (p q : Port) → slice_get (elements_of inventory.now) numbers.element ≡ Some e → slice_get (ports inventory.now) numbers.from.port.0 ≡ Some p → slice_get (ports inventory.now) numbers.to.port.0 ≡ Some q → result ≡ relates_by inventory.now kind e.element p q }
{
    let element = numbers.element;
    let from = numbers.from.port;
    let to = numbers.to.port;
    match kind {
        HopKind::Link => are_listed(
            inventory.sources_of(element),
            from,
            inventory.sinks_of(element),
            to,
        ),
        HopKind::Adapt => are_listed(
            inventory.clients_of(element),
            from,
            inventory.servers_of(element),
            to,
        ),
        HopKind::Deadapt => are_listed(
            inventory.servers_of(element),
            from,
            inventory.clients_of(element),
            to,
        ),
        HopKind::Cross | HopKind::Convert => are_listed(
            inventory.inbound_of(element),
            from,
            inventory.outbound_of(element),
            to,
        ),
    }
}

/// The kind of the hops of an element, if it makes hops.
fn kind_of(element: &Element) -> Option<HopKind>
    ensures { result ≡ kind_of element.now }
{
    match element {
        Element::Link(_) => Some(HopKind::Link),
        Element::Switching(_) => Some(HopKind::Cross),
        Element::Adaptation(_) => Some(HopKind::Adapt),
        Element::Deadaptation(_) => Some(HopKind::Deadapt),
        Element::Conversion(_) => Some(HopKind::Convert),
        Element::Node(_) | Element::Port(_) => None,
    }
}

fn is_same_kind(one: HopKind, other: HopKind) -> bool
    ensures { IsTrue result ↔ one ≡ other }
{
    one == other
}

/// Whether the element is of the hop's kind and relates its two ports.
fn relates(inventory: &Inventory, hop: &Hop, numbers: Numbers) -> bool
    requires { (way : Way) × AreNumbers inventory.now hop.now way numbers }
    ensures { (way : Way) → AreNumbers inventory.now hop.now way numbers → IsTrue result ↔ Relates inventory.now hop.now way.placed.element }
{
    inventory.is_merged();
    match kind_of(element_at(inventory, numbers.element)) {
        Some(kind) => is_same_kind(hop.kind, kind) && relates_by(inventory, kind, numbers),
        None => false,
    }
}

/// Whether the element is of the hop's domain.
fn is_in_domain(inventory: &Inventory, hop: &Hop, numbers: Numbers) -> bool
    requires { (way : Way) × AreNumbers inventory.now hop.now way numbers }
    ensures { (way : Way) → AreNumbers inventory.now hop.now way numbers → IsTrue result ↔ hop.now.domain ≡ way.placed.domain.id }
{
    hop.domain == *inventory.domain_of(numbers.element)
}

/// Whether the unit is in the class of the end.
fn is_in_class(inventory: &Inventory, unit: &Unit, end: End) -> bool
    requires { end.class.0 < length (ports inventory.now) }
    ensures { (id : Name) (class : Port) → IsEnd inventory.now id class end → IsTrue result ↔ unit.now.class ≡ class.id }
{
    unit.class == *inventory.name(end.class)
}

/// Whether the element is of the hop's domain and kind and relates its ports, and the unit is in the from port's class.
pub fn is_related(inventory: &Inventory, unit: &Unit, hop: &Hop, numbers: Numbers) -> bool
    requires { (way : Way) × AreNumbers inventory.now hop.now way numbers }
    ensures { (way : Way) → AreNumbers inventory.now hop.now way numbers → IsTrue result ↔ IsRelated inventory.now unit.now hop.now way }
{
    is_in_domain(inventory, hop, numbers)
        && is_in_class(inventory, unit, numbers.from)
        && relates(inventory, hop, numbers)
}
