ghost use Rattle.std.specs.Prelude.{IfOk};
ghost use Rattle.circuit_spec.specs.Faults.{IsSound};

use crate::{ForwardFault, forward};
use circuit_spec::{Hop, HopKind, HopList, PlaceName};
use device_rules::{RuleList, rules_of};
use layer_check::check;
use ml_base::{Id, IdFault};
use nml_elements::{DomainList, read_domain};
use nml_inventory::{Inventory, merge};
use std::alloc::Global;
use std::test::Fail;

const ONE: &str =
    "{\"elements\":[{\"id\":\"a\",\"isSource\":[\"l\"],\"type\":\"Port\"},{\"id\":\"b\",\"isSink\":[\"l\"],\"type\":\"Port\"},{\"id\":\"l\",\"type\":\"Link\"}],\"format\":1,\"topology\":\"d\"}";

const TUNNEL: &str =
    "{\"elements\":[{\"encoding\":\"eth\",\"id\":\"c1\",\"type\":\"Port\"},{\"encoding\":\"otn\",\"hasService\":[\"ad\"],\"id\":\"s1\",\"isSource\":[\"t\"],\"type\":\"Port\"},{\"encoding\":\"otn\",\"hasService\":[\"de\"],\"id\":\"s2\",\"isSink\":[\"t\"],\"type\":\"Port\"},{\"encoding\":\"eth\",\"id\":\"c2\",\"type\":\"Port\"},{\"adaptationFunction\":\"gfp\",\"id\":\"ad\",\"providesPort\":[\"c1\"],\"type\":\"AdaptationService\"},{\"adaptationFunction\":\"gfp\",\"id\":\"de\",\"providesPort\":[\"c2\"],\"type\":\"DeadaptationService\"},{\"id\":\"t\",\"type\":\"Link\"}],\"format\":1,\"topology\":\"d\"}";

const AGAIN: &str =
    "{\"elements\":[{\"id\":\"x1\",\"type\":\"Port\"},{\"id\":\"m1\",\"type\":\"Port\"},{\"id\":\"y1\",\"type\":\"Port\"},{\"hasService\":[\"f\",\"g\"],\"id\":\"x0\",\"isSource\":[\"l\"],\"type\":\"Port\"},{\"hasService\":[\"u\",\"v\"],\"id\":\"y0\",\"isSink\":[\"l\"],\"type\":\"Port\"},{\"adaptationFunction\":\"F\",\"id\":\"f\",\"providesPort\":[\"x1\"],\"type\":\"AdaptationService\"},{\"adaptationFunction\":\"G\",\"id\":\"g\",\"providesPort\":[\"m1\"],\"type\":\"AdaptationService\"},{\"adaptationFunction\":\"F\",\"id\":\"u\",\"providesPort\":[\"m1\"],\"type\":\"DeadaptationService\"},{\"adaptationFunction\":\"G\",\"id\":\"v\",\"providesPort\":[\"y1\"],\"type\":\"DeadaptationService\"},{\"id\":\"l\",\"type\":\"Link\"}],\"format\":1,\"topology\":\"d\"}";

const ZERO: &str =
    "{\"elements\":[{\"id\":\"a\",\"isSink\":[\"l2\"],\"isSource\":[\"l1\"],\"type\":\"Port\"},{\"id\":\"b\",\"isSink\":[\"l1\"],\"isSource\":[\"l2\",\"l3\"],\"type\":\"Port\"},{\"id\":\"c\",\"isSink\":[\"l3\"],\"type\":\"Port\"},{\"cost\":0,\"id\":\"l1\",\"type\":\"Link\"},{\"cost\":0,\"id\":\"l2\",\"type\":\"Link\"},{\"cost\":0,\"id\":\"l3\",\"type\":\"Link\"}],\"format\":1,\"topology\":\"d\"}";

/// A kind, and the ids of the element and of the two ends.
type Taken = (HopKind, [&'static str; 3]);

const ONE_HOPS: &[Taken] = &[(HopKind::Link, ["l", "a", "b"])];

const TUNNEL_HOPS: &[Taken] = &[
    (HopKind::Adapt, ["ad", "c1", "s1"]),
    (HopKind::Link, ["t", "s1", "s2"]),
    (HopKind::Deadapt, ["de", "s2", "c2"]),
];

const AGAIN_HOPS: &[Taken] = &[
    (HopKind::Adapt, ["f", "x1", "x0"]),
    (HopKind::Link, ["l", "x0", "y0"]),
    (HopKind::Deadapt, ["u", "y0", "m1"]),
    (HopKind::Adapt, ["g", "m1", "x0"]),
    (HopKind::Link, ["l", "x0", "y0"]),
    (HopKind::Deadapt, ["v", "y0", "y1"]),
];

const ZERO_HOPS: &[Taken] = &[
    (HopKind::Link, ["l1", "a", "b"]),
    (HopKind::Link, ["l2", "b", "a"]),
];

/// The rules of hops without labels, in one domain.
fn rules_for(alloc: Global, taken: &[Taken]) -> Result<RuleList, Fail> {
    let mut hops = HopList::new(alloc);
    for (kind, [element, from, to]) in taken {
        hops.push(Hop {
            kind: *kind,
            element: Id::new(alloc, element)?,
            from: Id::new(alloc, from)?,
            from_label: None,
            to: Id::new(alloc, to)?,
            to_label: None,
            domain: Id::new(alloc, "d")?,
        })?;
    }
    Ok(rules_of(alloc, &hops)?)
}

/// A sound topology of one file.
fn inventory_of(alloc: Global, text: &str) -> Result<Inventory, Fail>
    ensures { IfOk result IsSound }
{
    let mut domains = DomainList::new(alloc);
    domains.push(read_domain(alloc, text.as_bytes())?)?;
    let inventory = merge(alloc, domains)?;
    check(&inventory)?;
    Ok(inventory)
}

/// The place of a class without labels.
fn place(alloc: Global, class: &str) -> Result<PlaceName, IdFault> {
    Ok(PlaceName {
        class: Id::new(alloc, class)?,
        label: None,
    })
}

/// How many hops there are, or why forwarding stops.
fn counted(forwarded: Result<HopList, ForwardFault>) -> Result<u64, ForwardFault> {
    match forwarded {
        Ok(hops) => Ok(hops.len()),
        Err(fault) => Err(fault),
    }
}

/// How many hops the rules take from the one place to the other, or why they stop.
fn hops_of(
    alloc: Global,
    inventory: &Inventory,
    rules: &RuleList,
    start: &str,
    target: &str,
) -> Result<Result<u64, ForwardFault>, Fail>
    requires { IsSound inventory.now }
{
    let start = place(alloc, start)?;
    let target = place(alloc, target)?;
    Ok(counted(forward(alloc, inventory, rules, &start, &target)))
}

/// The same over the topology of a text.
fn hops_over(
    alloc: Global,
    topology: &str,
    rules: &RuleList,
    start: &str,
    target: &str,
) -> Result<Result<u64, ForwardFault>, Fail> {
    let inventory = inventory_of(alloc, topology)?;
    hops_of(alloc, &inventory, rules, start, target)
}

/// The same with the rules of these hops.
fn hops(
    alloc: Global,
    topology: &str,
    taken: &[Taken],
    start: &str,
    target: &str,
) -> Result<Result<u64, ForwardFault>, Fail> {
    let rules = rules_for(alloc, taken)?;
    hops_over(alloc, topology, &rules, start, target)
}

/// The word of a fault, and the place where it stops or the frames that are left.
fn said(fault: &ForwardFault) -> (&str, &str, u64) {
    match fault {
        ForwardFault::NoRule { at } => ("no rule", at.class.text(), 0),
        ForwardFault::TwoRules { at } => ("two rules", at.class.text(), 0),
        ForwardFault::Loop { at } => ("loop", at.class.text(), 0),
        ForwardFault::Step { at } => ("step", at.class.text(), 0),
        ForwardFault::Left { frames } => ("left", "", *frames),
        ForwardFault::NoMemory => ("no memory", "", 0),
    }
}

#[test]
fn rules_carry(rt: HostRuntime) -> Result<(), Fail> {
    let taken = hops(rt.alloc(), ONE, ONE_HOPS, "a", "b")?;
    assert_eq!(rt; taken, Ok(1));
    Ok(())
}

#[test]
fn rules_stop(rt: HostRuntime) -> Result<(), Fail> {
    let rows = [
        (ONE, [].as_slice(), "a", "b", ("no rule", "a", 0)),
        (AGAIN, AGAIN_HOPS, "x1", "y1", ("two rules", "x0", 0)),
        (ZERO, ZERO_HOPS, "a", "c", ("loop", "a", 0)),
        (TUNNEL, TUNNEL_HOPS, "c1", "s2", ("left", "", 1)),
        (TUNNEL, TUNNEL_HOPS, "s2", "c2", ("step", "s2", 0)),
    ];
    for (topology, taken, start, target, want) in rows {
        let stopped = hops(rt.alloc(), topology, taken, start, target)?;
        assert_eq!(rt; stopped.as_ref().err().map(said), Some(want));
    }
    Ok(())
}
