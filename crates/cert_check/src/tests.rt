ghost use Rattle.std.specs.Prelude.{IfOk};
ghost use Rattle.circuit_spec.specs.Faults.{IsSound};

use crate::judge;
use circuit_spec::Outcome;
use layer_check::check;
use nml_elements::{DomainList, read_domain};
use nml_inventory::{Inventory, merge};
use std::alloc::Global;
use std::test::Fail;
use verdict::{Rule, Verdict};

/// A link l from a to b.
const ONE: &str =
    "{\"elements\":[{\"id\":\"a\",\"isSource\":[\"l\"],\"type\":\"Port\"},{\"id\":\"b\",\"isSink\":[\"l\"],\"type\":\"Port\"},{\"cost\":1,\"id\":\"l\",\"type\":\"Link\"}],\"format\":1,\"topology\":\"d\"}";

/// A certificate.
const VALID: &str =
    "circuit 1\nrequest a any b any\noutcome found 1 1\nhop 1 link l a - b - d\ndomain d\nrule 1 carry l a - b -\ntop a - 0 0\ntop b - 1 1\nend\n";

/// At b more is listed than the link leads on with.
const HIGH: &str =
    "circuit 1\nrequest a any b any\noutcome found 1 1\nhop 1 link l a - b - d\ndomain d\nrule 1 carry l a - b -\ntop a - 0 0\ntop b - 2 1\nend\n";

/// The end is missing.
const UNENDED: &str =
    "circuit 1\nrequest a any b any\noutcome found 1 1\nhop 1 link l a - b - d\ndomain d\nrule 1 carry l a - b -\ntop a - 0 0\ntop b - 1 1\n";

/// No potentials are listed.
const BARE: &str =
    "circuit 1\nrequest a any b any\noutcome found 1 1\nhop 1 link l a - b - d\ndomain d\nrule 1 carry l a - b -\nend\n";

fn inventory_of(alloc: Global, text: &str) -> Result<Inventory, Fail>
    ensures { IfOk result IsSound }
{
    let mut domains = DomainList::new(alloc);
    domains.push(read_domain(alloc, text.as_bytes())?)?;
    let inventory = merge(alloc, domains)?;
    check(&inventory)?;
    Ok(inventory)
}

/// The verdict on a document over the one link.
fn told(alloc: Global, document: &str) -> Result<Verdict, Fail> {
    let inventory = inventory_of(alloc, ONE)?;
    Ok(judge(alloc, &inventory, document.as_bytes())?)
}

#[test]
fn verdicts(rt: HostRuntime) -> Result<(), Fail> {
    let alloc = rt.alloc();
    let outcome = Outcome::Found { cost: 1, hops: 1 };
    for (document, verdict) in [
        (VALID, Verdict::Valid { outcome }),
        (
            HIGH,
            Verdict::NotValid {
                line: 7,
                rule: Rule::Extends,
            },
        ),
        (
            UNENDED,
            Verdict::NotValid {
                line: 9,
                rule: Rule::Grammar,
            },
        ),
        (
            BARE,
            Verdict::NotValid {
                line: 3,
                rule: Rule::Starts,
            },
        ),
    ] {
        assert_eq!(rt; told(alloc, document)?, verdict);
    }
    Ok(())
}
