ghost use Rattle.std.specs.Prelude.{IfOk};
ghost use Rattle.circuit_spec.specs.Faults.{IsSound};

use crate::{Replay, StepFault};
use circuit_spec::{FrameList, Hop, HopKind, Unit};
use layer_check::check;
use ml_base::{Id, IdFault, Tag};
use nml_elements::{DomainList, read_domain};
use nml_inventory::{Inventory, merge};
use std::alloc::Global;
use std::test::Fail;

const TUNNEL: &str =
    "{\"elements\":[{\"encoding\":\"eth\",\"id\":\"c1\",\"type\":\"Port\"},{\"encoding\":\"otn\",\"hasService\":[\"ad\"],\"id\":\"s1\",\"isSource\":[\"t\"],\"type\":\"Port\"},{\"encoding\":\"otn\",\"hasService\":[\"de\"],\"id\":\"s2\",\"isSink\":[\"t\"],\"type\":\"Port\"},{\"encoding\":\"eth\",\"id\":\"c2\",\"type\":\"Port\"},{\"adaptationFunction\":\"gfp\",\"id\":\"ad\",\"providesPort\":[\"c1\"],\"type\":\"AdaptationService\"},{\"adaptationFunction\":\"gfp\",\"id\":\"de\",\"providesPort\":[\"c2\"],\"type\":\"DeadaptationService\"},{\"id\":\"t\",\"type\":\"Link\"}],\"format\":1,\"topology\":\"d\"}";

const VLAN: &str =
    "{\"elements\":[{\"id\":\"p\",\"isSource\":[\"l\"],\"hasLabelGroup\":{\"labeltype\":\"vlan\",\"values\":\"100-200\"},\"type\":\"PortGroup\"},{\"id\":\"q\",\"isSink\":[\"l\"],\"hasLabelGroup\":{\"labeltype\":\"vlan\",\"values\":\"100-200\"},\"type\":\"PortGroup\"},{\"id\":\"l\",\"type\":\"LinkGroup\"}],\"format\":1,\"topology\":\"d\"}";

/// A sound topology of one file.
fn inventory_of(alloc: Global, text: &str) -> Result<Inventory, Fail>
    ensures { IfOk result IsSound }
{
    let mut domains = DomainList::new(alloc);
    domains.push(read_domain(alloc, text.as_bytes())?)?;
    let inventory = merge(alloc, domains)?;
    check(&inventory)?;
    Ok(inventory)
}

/// A unit without frames.
fn replay_at(alloc: Global, class: &str, label: Tag, room: u64) -> Result<Replay, Fail> {
    let unit = Unit {
        class: Id::new(alloc, class)?,
        label,
        stack: FrameList::new(alloc),
    };
    Ok(Replay::new(alloc, unit, room)?)
}

/// A hop of the domain d, without labels.
fn plain_hop(
    alloc: Global,
    kind: HopKind,
    element: &str,
    from: &str,
    to: &str,
) -> Result<Hop, IdFault> {
    Ok(Hop {
        kind,
        element: Id::new(alloc, element)?,
        from: Id::new(alloc, from)?,
        from_label: None,
        to: Id::new(alloc, to)?,
        to_label: None,
        domain: Id::new(alloc, "d")?,
    })
}

fn adapt(alloc: Global) -> Result<Hop, IdFault> {
    plain_hop(alloc, HopKind::Adapt, "ad", "c1", "s1")
}

fn link(alloc: Global) -> Result<Hop, IdFault> {
    plain_hop(alloc, HopKind::Link, "t", "s1", "s2")
}

fn deadapt(alloc: Global) -> Result<Hop, IdFault> {
    plain_hop(alloc, HopKind::Deadapt, "de", "s2", "c2")
}

/// A link hop of a VLAN link, from label 100 to label 101.
fn relabel(alloc: Global) -> Result<Hop, IdFault> {
    let mut hop = plain_hop(alloc, HopKind::Link, "l", "p", "q")?;
    hop.from_label = Some(100);
    hop.to_label = Some(101);
    Ok(hop)
}

/// Takes the unit over the hop in the topology of the text.
fn stepped(
    alloc: Global,
    text: &str,
    replay: &mut Replay,
    hop: &Hop,
) -> Result<Result<(), StepFault>, Fail> {
    let inventory = inventory_of(alloc, text)?;
    Ok(replay.step(&inventory, hop))
}

/// Whether a unit at the place takes the hop, or why it does not.
fn first_step(
    alloc: Global,
    text: &str,
    class: &str,
    label: Tag,
    room: u64,
    hop: &Hop,
) -> Result<Result<(), StepFault>, Fail> {
    let mut replay = replay_at(alloc, class, label, room)?;
    stepped(alloc, text, &mut replay, hop)
}

/// The unit behind the three hops through the tunnel.
fn through_the_tunnel(alloc: Global) -> Result<Replay, Fail> {
    let mut replay = replay_at(alloc, "c1", None, 1)?;
    stepped(alloc, TUNNEL, &mut replay, &adapt(alloc)?)??;
    stepped(alloc, TUNNEL, &mut replay, &link(alloc)?)??;
    stepped(alloc, TUNNEL, &mut replay, &deadapt(alloc)?)??;
    Ok(replay)
}

#[test]
fn refusals(rt: HostRuntime) -> Result<(), Fail> {
    let alloc = rt.alloc();
    let full = first_step(alloc, TUNNEL, "c1", None, 0, &adapt(alloc)?)?;
    assert_eq!(rt; full, Err(StepFault::Full));
    let frame = first_step(alloc, TUNNEL, "s2", None, 1, &deadapt(alloc)?)?;
    assert_eq!(rt; frame, Err(StepFault::Frame));
    let no_hop = first_step(alloc, TUNNEL, "c1", None, 1, &link(alloc)?)?;
    assert_eq!(rt; no_hop, Err(StepFault::NoHop));
    let label = first_step(alloc, VLAN, "p", Some(100), 0, &relabel(alloc)?)?;
    assert_eq!(rt; label, Err(StepFault::Label));
    Ok(())
}

#[test]
fn a_tunnel_is_passed(rt: HostRuntime) -> Result<(), Fail> {
    let replay = through_the_tunnel(rt.alloc())?;
    assert_eq!(rt; replay.unit().class.text(), "c2");
    assert_eq!(rt; replay.unit().stack.len(), 0);
    Ok(())
}
