ghost use Rattle.std.specs.Prelude.{IfOk};
ghost use Rattle.circuit_spec.specs.Faults.{IsSound};

use crate::{ReplayCause, Replayed, replay};
use layer_check::check;
use nml_elements::{DomainList, read_domain};
use nml_inventory::{Inventory, merge};
use std::alloc::Global;
use std::test::Fail;

const ONE: &str =
    "{\"elements\":[{\"id\":\"a\",\"isSource\":[\"l\"],\"type\":\"Port\"},{\"id\":\"b\",\"isSink\":[\"l\"],\"type\":\"Port\"},{\"id\":\"l\",\"type\":\"Link\"}],\"format\":1,\"topology\":\"d\"}";

const TUNNEL: &str =
    "{\"elements\":[{\"encoding\":\"eth\",\"id\":\"c1\",\"type\":\"Port\"},{\"encoding\":\"otn\",\"hasService\":[\"ad\"],\"id\":\"s1\",\"isSource\":[\"t\"],\"type\":\"Port\"},{\"encoding\":\"otn\",\"hasService\":[\"de\"],\"id\":\"s2\",\"isSink\":[\"t\"],\"type\":\"Port\"},{\"encoding\":\"eth\",\"id\":\"c2\",\"type\":\"Port\"},{\"adaptationFunction\":\"gfp\",\"id\":\"ad\",\"providesPort\":[\"c1\"],\"type\":\"AdaptationService\"},{\"adaptationFunction\":\"gfp\",\"id\":\"de\",\"providesPort\":[\"c2\"],\"type\":\"DeadaptationService\"},{\"id\":\"t\",\"type\":\"Link\"}],\"format\":1,\"topology\":\"d\"}";

const AGAIN: &str =
    "{\"elements\":[{\"id\":\"x1\",\"type\":\"Port\"},{\"id\":\"m1\",\"type\":\"Port\"},{\"id\":\"y1\",\"type\":\"Port\"},{\"hasService\":[\"f\",\"g\"],\"id\":\"x0\",\"isSource\":[\"l\"],\"type\":\"Port\"},{\"hasService\":[\"u\",\"v\"],\"id\":\"y0\",\"isSink\":[\"l\"],\"type\":\"Port\"},{\"adaptationFunction\":\"F\",\"id\":\"f\",\"providesPort\":[\"x1\"],\"type\":\"AdaptationService\"},{\"adaptationFunction\":\"G\",\"id\":\"g\",\"providesPort\":[\"m1\"],\"type\":\"AdaptationService\"},{\"adaptationFunction\":\"F\",\"id\":\"u\",\"providesPort\":[\"m1\"],\"type\":\"DeadaptationService\"},{\"adaptationFunction\":\"G\",\"id\":\"v\",\"providesPort\":[\"y1\"],\"type\":\"DeadaptationService\"},{\"id\":\"l\",\"type\":\"Link\"}],\"format\":1,\"topology\":\"d\"}";

const ONE_FOUND: &str =
    "circuit 1\nrequest a any b any\noutcome found 1 1\nhop 1 link l a - b - d\ndomain d\nrule 1 carry l a - b -\nend\n";

const AGAIN_FOUND: &str =
    "circuit 1\nrequest x1 any y1 any\noutcome found 6 6\ndomain d\nrule 1 wrap f x1 - x0 -\nrule 2 carry l x0 - y0 -\nrule 3 unwrap u y0 - m1 -\nrule 4 wrap g m1 - x0 -\nrule 5 carry l x0 - y0 -\nrule 6 unwrap v y0 - y1 -\nend\n";

const TUNNEL_CUT: &str =
    "circuit 1\nrequest c1 any c2 any\noutcome found 3 3\ndomain d\nrule 1 wrap ad c1 - s1 -\nrule 2 carry t s1 - s2 -\nend\n";

const TUNNEL_LACKING: &str =
    "circuit 1\nrequest c1 any c2 any\noutcome found 3 3\ndomain d\nrule 1 wrap ad c1 - s1 -\nrule 3 unwrap de s2 - c2 -\nend\n";

const TUNNEL_NONE: &str = "circuit 1\nrequest c1 any c2 any\noutcome none\nend\n";

/// A sound topology of one file.
fn inventory_of(alloc: Global, text: &str) -> Result<Inventory, Fail>
    ensures { IfOk result IsSound }
{
    let mut domains = DomainList::new(alloc);
    domains.push(read_domain(alloc, text.as_bytes())?)?;
    let inventory = merge(alloc, domains)?;
    check(&inventory)?;
    Ok(inventory)
}

/// What is told of the document.
fn told_over(alloc: Global, inventory: &Inventory, document: &str) -> Result<Replayed, Fail>
    requires { IsSound inventory.now }
{
    Ok(replay(alloc, inventory, document.as_bytes())?)
}

/// The same over the topology of a text.
fn told(alloc: Global, topology: &str, document: &str) -> Result<Replayed, Fail> {
    let inventory = inventory_of(alloc, topology)?;
    told_over(alloc, &inventory, document)
}

/// The first condition that fails.
fn failed(at: u64, cause: ReplayCause) -> Replayed {
    Replayed::NotCarried { at, cause }
}

/// The rules carry.
fn carried(rules: u64, any_order: bool) -> Replayed {
    Replayed::Carried { rules, any_order }
}

#[test]
fn documents_are_replayed(rt: HostRuntime) -> Result<(), Fail> {
    let rows = [
        (ONE, ONE_FOUND, carried(1, true)),
        (AGAIN, AGAIN_FOUND, carried(6, false)),
        (TUNNEL, TUNNEL_CUT, failed(2, ReplayCause::End)),
        (TUNNEL, TUNNEL_LACKING, failed(2, ReplayCause::Number)),
        (TUNNEL, TUNNEL_NONE, failed(0, ReplayCause::Outcome)),
        (ONE, AGAIN_FOUND, failed(0, ReplayCause::Request)),
        (ONE, "", failed(0, ReplayCause::Text)),
    ];
    for (topology, document, want) in rows {
        assert_eq!(rt; told(rt.alloc(), topology, document)?, want);
    }
    Ok(())
}
