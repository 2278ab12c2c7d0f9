ghost use Rattle.std.specs.Prelude.{◌≡◌, ◌<◌, ◌^◌, [], IfOk, length, map};
ghost use Rattle.std.specs.Rc.{rc_str_bytes};
ghost use Rattle.circuit_spec.specs.Network.{Placed, Port, elements_of, id_of, ports};
ghost use Rattle.nml_inventory.specs.Tables.{in_element, in_entry, in_port, inbound_in, outbound_in, provided_in, lending_in, pairs_named};

use crate::kinds::ids_of;
use crate::numbered::Numbered;
use crate::port_ids::add_pairs;
use indexmap::IndexSet;
use keyed_hash::Keyed;
use ml_base::{Id, NoMemory, PortNo};
use nml_elements::{Element, PortE};
use std::alloc::Global;
use std::rc::RcStr;

/// The members in which a port names other elements than ports.
#[derive(Clone, Copy)]
pub enum PortMember {
    Sources,
    Sinks,
    Services,
}

/// What an element lists: ports, or the services to which a Node lends its own.
#[derive(Clone, Copy)]
pub enum Listing {
    Inbound,
    Outbound,
    Provided,
    Lending,
}

/// The ids that a port names in the member.
fn named_in(member: PortMember, port: &PortE) -> &[Id]
    ensures { result.now ≡ in_entry member port.now }
{
    match member {
        PortMember::Sources => port.sources.as_slice(),
        PortMember::Sinks => port.sinks.as_slice(),
        PortMember::Services => port.services.as_slice(),
    }
}

fn inbound_in(element: &Element) -> &[Id]
    ensures { result.now ≡ inbound_in element.now }
{
    match element {
        Element::Node(n) => n.inbound.as_slice(),
        Element::Switching(s) => ids_of(&s.inbound),
        Element::Conversion(c) => c.inbound.as_slice(),
        Element::Port(_) => &[],
        Element::Link(_) => &[],
        Element::Adaptation(_) => &[],
        Element::Deadaptation(_) => &[],
    }
}

fn outbound_in(element: &Element) -> &[Id]
    ensures { result.now ≡ outbound_in element.now }
{
    match element {
        Element::Node(n) => n.outbound.as_slice(),
        Element::Switching(s) => ids_of(&s.outbound),
        Element::Conversion(c) => c.outbound.as_slice(),
        Element::Port(_) => &[],
        Element::Link(_) => &[],
        Element::Adaptation(_) => &[],
        Element::Deadaptation(_) => &[],
    }
}

fn provided_in(element: &Element) -> &[Id]
    ensures { result.now ≡ provided_in element.now }
{
    match element {
        Element::Adaptation(a) => a.ports.as_slice(),
        Element::Deadaptation(a) => a.ports.as_slice(),
        Element::Node(_) => &[],
        Element::Port(_) => &[],
        Element::Link(_) => &[],
        Element::Switching(_) => &[],
        Element::Conversion(_) => &[],
    }
}

fn lending_in(element: &Element) -> &[Id]
    ensures { result.now ≡ lending_in element.now }
{
    match element {
        Element::Node(n) => n.services.as_slice(),
        Element::Port(_) => &[],
        Element::Link(_) => &[],
        Element::Switching(_) => &[],
        Element::Adaptation(_) => &[],
        Element::Deadaptation(_) => &[],
        Element::Conversion(_) => &[],
    }
}

/// The ids that an element lists.
fn listed_in(listing: Listing, element: &Element) -> &[Id]
    ensures { result.now ≡ in_element listing element.now }
{
    match listing {
        Listing::Inbound => inbound_in(element),
        Listing::Outbound => outbound_in(element),
        Listing::Provided => provided_in(element),
        Listing::Lending => lending_in(element),
    }
}

/// The number of each port with those of the elements that it names in the member.
pub fn port_arcs(
    alloc: Global,
    numbered: &Numbered,
    member: PortMember,
) -> Result<Vec<(u32, u32)>, NoMemory>
    ensures { IfOk result (λ arcs. arcs.items ≡ pairs_named (map (λ (e : Placed). id_of e.element) (elements_of numbered.now)) (in_port member) (ports numbered.now)) }
{
    let ids = numbered.element_ids();
    let mut arcs = Vec::new(alloc);
    for port in 0..numbered.ports() {
        let named = named_in(member, numbered.entry(PortNo(port)));
        add_pairs(&mut arcs, ids, port, named)?;
    }
    Ok(arcs)
}

/// The number of each element with those of the ids that it lists.
pub fn element_arcs(
    alloc: Global,
    numbered: &Numbered,
    listing: Listing,
    ids: &IndexSet<RcStr<Global>, Keyed>,
) -> Result<Vec<(u32, u32)>, NoMemory>
    requires { length ids.now.keys < 2 ^ 32 }
    ensures { IfOk result (λ arcs. arcs.items ≡ pairs_named (map rc_str_bytes ids.now.keys) (λ (e : Placed). in_element listing e.element) (elements_of numbered.now)) }
{
    let mut arcs = Vec::new(alloc);
    for number in 0..numbered.elements() {
        let listed = listed_in(listing, numbered.at(u64::from(number)));
        add_pairs(&mut arcs, ids, number, listed)?;
    }
    Ok(arcs)
}
