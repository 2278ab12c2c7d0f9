use crate::{RuleFault, read_rules, write_rules};
use circuit_spec::{Hop, HopKind, HopList};
use device_rules::rules_of;
use io_edges::MemSink;
use ml_base::{Id, Tag};
use std::alloc::Global;
use std::test::Fail;

fn hop(
    alloc: Global,
    kind: HopKind,
    ids: [&str; 3],
    labels: (Tag, Tag),
    domain: &str,
) -> Result<Hop, Fail> {
    let [element, from, to] = ids;
    Ok(Hop {
        kind,
        element: Id::new(alloc, element)?,
        from: Id::new(alloc, from)?,
        from_label: labels.0,
        to: Id::new(alloc, to)?,
        to_label: labels.1,
        domain: Id::new(alloc, domain)?,
    })
}

#[test]
fn rules_of_a_tunnel(rt: HostRuntime) -> Result<(), Fail> {
    let alloc = rt.alloc();
    let mut hops = HopList::new(alloc);
    let none = (None, None);
    hops.push(hop(alloc, HopKind::Adapt, ["ad", "c1", "s1"], none, "d")?)?;
    hops.push(hop(alloc, HopKind::Link, ["t", "s1", "s2"], none, "d")?)?;
    hops.push(hop(alloc, HopKind::Deadapt, ["de", "s2", "c2"], none, "d")?)?;
    let text =
        "domain d\nrule 1 wrap ad c1 - s1 -\nrule 2 carry t s1 - s2 -\nrule 3 unwrap de s2 - c2 -\n";
    let mut out = MemSink::new(alloc, 400)?;
    write_rules(&rules_of(alloc, &hops)?, &mut out)?;
    assert!(rt; out.written() == text.as_bytes());
    let mut again = MemSink::new(alloc, 400)?;
    write_rules(&read_rules(alloc, text.as_bytes())?, &mut again)?;
    assert!(rt; again.written() == text.as_bytes());
    Ok(())
}

#[test]
fn rules_stand_by_domain(rt: HostRuntime) -> Result<(), Fail> {
    let alloc = rt.alloc();
    let mut hops = HopList::new(alloc);
    let ids = ["s", "a", "b"];
    hops.push(hop(alloc, HopKind::Cross, ids, (Some(5), Some(6)), "e")?)?;
    hops.push(hop(alloc, HopKind::Cross, ids, (Some(6), Some(6)), "d")?)?;
    hops.push(hop(alloc, HopKind::Convert, ids, (Some(6), None), "e")?)?;
    let text =
        "domain d\nrule 2 connect s a 6 b 6\ndomain e\nrule 1 swap s a 5 b 6\nrule 3 convert s a 6 b -\n";
    let mut out = MemSink::new(alloc, 400)?;
    write_rules(&rules_of(alloc, &hops)?, &mut out)?;
    assert!(rt; out.written() == text.as_bytes());
    Ok(())
}

#[test]
fn first_misfits(rt: HostRuntime) -> Result<(), Fail> {
    for (text, line) in [
        ("domain d\nrule 1 swap s a 5 b 5\n", 2),
        ("domain d\nrule 1 connect s a 5 b 6\n", 2),
        ("domain d\n", 2),
        ("domain d\nrule 01 carry l a - b -\n", 2),
        ("domain d\nrule 1 carry l a - b -", 2),
        (
            "domain d\nrule 1 carry l a - b -\nrule 1 carry l a - b -\n",
            3,
        ),
        ("domain e\nrule 1 carry l a - b -\ndomain d\n", 3),
        ("rule 1 carry l a - b -\n", 1),
    ] {
        match read_rules(rt.alloc(), text.as_bytes()) {
            Ok(_) => assert!(rt; false, "taken: {text}"),
            Err(fault) => assert_eq!(rt; fault, RuleFault::Line { line }, "of {text}"),
        }
    }
    Ok(())
}
