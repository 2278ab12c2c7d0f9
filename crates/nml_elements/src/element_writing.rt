// Writing one element and its lifetime.
ghost use Rattle.std.specs.Prelude.{◌≡◌, codes, IfOk, OnOk};
ghost use Rattle.serde_json.specs.View.{view, members_view};
ghost use Rattle.nml_elements.specs.Kept.{KeepsNode, KeepsPort, KeepsLink, KeepsSwitch, KeepsAdapt, KeepsConv, Keeps, KeepsEntry};
ghost use Rattle.nml_elements.specs.ElementWriting.{object_of, with_parts, port_type, link_type, node_parts, port_parts, link_parts, switch_parts, adapt_parts, conv_parts, element_parts, entry_data};

use crate::label_writing::put_labels;
use crate::lifetime_writing::put_lifetime;
use crate::member_writing::{
    Members, put_id, put_number, put_optional_id, put_optional_relation, put_relation,
    put_swapping, put_text,
};
use crate::{AdaptE, ConvE, Element, Entry, LinkE, NodeE, PortE, SwitchE};
use ml_base::NoMemory;
use serde_json::{Map, Value};
use std::alloc::Global;

fn put_node(members: &mut Members, alloc: Global, node: &NodeE) -> Result<(), NoMemory>
    ensures written { OnOk result (members_view members.new.entries ≡ with_parts (members_view members.old.entries) (node_parts node.now)) }
    ensures kept { OnOk result (KeepsNode node.now) }
{
    put_relation(members, alloc, "hasInboundPort", &node.inbound)?;
    put_relation(members, alloc, "hasOutboundPort", &node.outbound)?;
    put_relation(members, alloc, "hasService", &node.services)?;
    put_id(members, alloc, "id", &node.id)?;
    put_text(members, alloc, "type", "Node")?;
    Ok(())
}

fn port_type(group: bool) -> &'static str
    ensures { result.now ≡ port_type group }
{
    if group { "PortGroup" } else { "Port" }
}

fn put_port(members: &mut Members, alloc: Global, port: &PortE) -> Result<(), NoMemory>
    ensures written { OnOk result (members_view members.new.entries ≡ with_parts (members_view members.old.entries) (port_parts port.now.group port.now)) }
    ensures kept { OnOk result (KeepsPort port.now) }
{
    put_optional_id(members, alloc, "encoding", &port.encoding)?;
    put_labels(members, alloc, port.group, &port.labels)?;
    put_relation(members, alloc, "hasService", &port.services)?;
    put_id(members, alloc, "id", &port.id)?;
    put_relation(members, alloc, "isAlias", &port.aliases)?;
    put_relation(members, alloc, "isSink", &port.sinks)?;
    put_relation(members, alloc, "isSource", &port.sources)?;
    put_text(members, alloc, "type", port_type(port.group))?;
    Ok(())
}

fn link_type(group: bool) -> &'static str
    ensures { result.now ≡ link_type group }
{
    if group { "LinkGroup" } else { "Link" }
}

fn put_link(members: &mut Members, alloc: Global, link: &LinkE) -> Result<(), NoMemory>
    ensures written { OnOk result (members_view members.new.entries ≡ with_parts (members_view members.old.entries) (link_parts link.now.group link.now)) }
    ensures kept { OnOk result (KeepsLink link.now) }
{
    put_number(members, alloc, "cost", link.cost)?;
    put_optional_id(members, alloc, "encoding", &link.encoding)?;
    put_labels(members, alloc, link.group, &link.labels)?;
    put_id(members, alloc, "id", &link.id)?;
    put_text(members, alloc, "type", link_type(link.group))?;
    Ok(())
}

fn put_switch(members: &mut Members, alloc: Global, switch: &SwitchE) -> Result<(), NoMemory>
    ensures written { OnOk result (members_view members.new.entries ≡ with_parts (members_view members.old.entries) (switch_parts switch.now)) }
    ensures kept { OnOk result (KeepsSwitch switch.now) }
{
    put_number(members, alloc, "cost", switch.cost)?;
    put_optional_id(members, alloc, "encoding", &switch.encoding)?;
    put_optional_relation(members, alloc, "hasInboundPort", &switch.inbound)?;
    put_optional_relation(members, alloc, "hasOutboundPort", &switch.outbound)?;
    put_id(members, alloc, "id", &switch.id)?;
    put_swapping(members, alloc, "labelSwapping", switch.swapping)?;
    put_text(members, alloc, "type", "SwitchingService")?;
    Ok(())
}

fn put_adapt(
    members: &mut Members,
    alloc: Global,
    type_is: &str,
    adapt: &AdaptE,
) -> Result<(), NoMemory>
    ensures written { OnOk result (members_view members.new.entries ≡ with_parts (members_view members.old.entries) (adapt_parts type_is.now adapt.now)) }
    ensures kept { OnOk result (KeepsAdapt adapt.now) }
{
    put_id(members, alloc, "adaptationFunction", &adapt.function)?;
    put_number(members, alloc, "cost", adapt.cost)?;
    put_id(members, alloc, "id", &adapt.id)?;
    put_relation(members, alloc, "providesPort", &adapt.ports)?;
    put_text(members, alloc, "type", type_is)?;
    Ok(())
}

fn put_conv(members: &mut Members, alloc: Global, conv: &ConvE) -> Result<(), NoMemory>
    ensures written { OnOk result (members_view members.new.entries ≡ with_parts (members_view members.old.entries) (conv_parts conv.now)) }
    ensures kept { OnOk result (KeepsConv conv.now) }
{
    put_number(members, alloc, "cost", conv.cost)?;
    put_relation(members, alloc, "hasInboundPort", &conv.inbound)?;
    put_relation(members, alloc, "hasOutboundPort", &conv.outbound)?;
    put_id(members, alloc, "id", &conv.id)?;
    put_text(members, alloc, "type", "ConversionService")?;
    Ok(())
}

fn put_element(members: &mut Members, alloc: Global, element: &Element) -> Result<(), NoMemory>
    ensures written { OnOk result (members_view members.new.entries ≡ with_parts (members_view members.old.entries) (element_parts element.now)) }
    ensures kept { OnOk result (Keeps element.now) }
{
    match element {
        Element::Node(node) => put_node(members, alloc, node),
        Element::Port(port) => put_port(members, alloc, port),
        Element::Link(link) => put_link(members, alloc, link),
        Element::Switching(switch) => put_switch(members, alloc, switch),
        Element::Adaptation(adapt) => put_adapt(members, alloc, "AdaptationService", adapt),
        Element::Deadaptation(adapt) => put_adapt(members, alloc, "DeadaptationService", adapt),
        Element::Conversion(conv) => put_conv(members, alloc, conv),
    }
}

/// The object of an element, with its lifetime if it has one. The object has its members in the order of their names.
#[tactic(auto, unfolding(crate::specs::ElementWriting::entry_data, crate::specs::ElementWriting::object_of))]
pub(crate) fn entry_value(alloc: Global, entry: &Entry) -> Result<Value, NoMemory>
    ensures written { IfOk result (λ value. view value ≡ entry_data entry.now) }
    ensures kept { IfOk result (λ _. KeepsEntry entry.now) }
{
    let mut members = Map::new(alloc);
    put_lifetime(&mut members, alloc, &entry.lifetime)?;
    put_element(&mut members, alloc, &entry.element)?;
    Ok(Value::Object(members))
}
