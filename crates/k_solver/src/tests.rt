ghost use Rattle.std.specs.Prelude.{IfOk};
ghost use Rattle.circuit_spec.specs.Faults.{IsSound};

use crate::k_solve;
use circuit_spec::Request;
use finder_core::SolveFault;
use k_answers::KAnswer;
use layer_check::check;
use ml_base::{Id, KEnd, Wish};
use nml_elements::{DomainList, read_domain};
use nml_inventory::{Inventory, merge};
use std::alloc::Global;
use std::test::Fail;

/// A link from a to b of cost 3, and one of cost 2.
const TWO: &str =
    "{\"elements\":[{\"id\":\"a\",\"isSource\":[\"l1\",\"l2\"],\"type\":\"Port\"},{\"id\":\"b\",\"isSink\":[\"l1\",\"l2\"],\"type\":\"Port\"},{\"cost\":3,\"id\":\"l1\",\"type\":\"Link\"},{\"cost\":2,\"id\":\"l2\",\"type\":\"Link\"}],\"format\":1,\"topology\":\"d\"}";

/// Links from a to b, back, and on to c, of no cost.
const ZERO: &str =
    "{\"elements\":[{\"id\":\"a\",\"isSink\":[\"l2\"],\"isSource\":[\"l1\"],\"type\":\"Port\"},{\"id\":\"b\",\"isSink\":[\"l1\"],\"isSource\":[\"l2\",\"l3\"],\"type\":\"Port\"},{\"id\":\"c\",\"isSink\":[\"l3\"],\"type\":\"Port\"},{\"cost\":0,\"id\":\"l1\",\"type\":\"Link\"},{\"cost\":0,\"id\":\"l2\",\"type\":\"Link\"},{\"cost\":0,\"id\":\"l3\",\"type\":\"Link\"}],\"format\":1,\"topology\":\"d\"}";

/// A link from a to b of cost 2^64 - 1, and one from there to c of cost 1.
const BIG: &str =
    "{\"elements\":[{\"id\":\"a\",\"isSource\":[\"l1\"],\"type\":\"Port\"},{\"id\":\"b\",\"isSink\":[\"l1\"],\"isSource\":[\"l2\"],\"type\":\"Port\"},{\"id\":\"c\",\"isSink\":[\"l2\"],\"type\":\"Port\"},{\"cost\":18446744073709551615,\"id\":\"l1\",\"type\":\"Link\"},{\"id\":\"l2\",\"type\":\"Link\"}],\"format\":1,\"topology\":\"d\"}";

/// A sound topology of one file.
fn inventory_of(alloc: Global, text: &str) -> Result<Inventory, Fail>
    ensures { IfOk result IsSound }
{
    let mut domains = DomainList::new(alloc);
    domains.push(read_domain(alloc, text.as_bytes())?)?;
    let inventory = merge(alloc, domains)?;
    check(&inventory)?;
    Ok(inventory)
}

/// A request from a port to a port, with any labels.
fn request_of(alloc: Global, from: &str, to: &str) -> Result<Request, Fail> {
    Ok(Request {
        from: Id::new(alloc, from)?,
        from_wish: Wish::Any,
        to: Id::new(alloc, to)?,
        to_wish: Wish::Any,
    })
}

/// The links of each walk.
fn links_of(alloc: Global, answer: &KAnswer) -> Result<String, Fail> {
    let mut text = String::new(alloc);
    for walk in answer.walks.as_slice() {
        for hop in walk.hops.as_slice() {
            text.push_str(hop.element.text())?;
            text.push_str(" ")?;
        }
        text.push_str(";")?;
    }
    Ok(text)
}

/// Whether the port q is refused.
fn refuses_q(alloc: Global, inventory: &Inventory) -> Result<bool, Fail>
    requires { IsSound inventory.now }
{
    let request = request_of(alloc, "a", "q")?;
    match k_solve(alloc, inventory, &request, 1) {
        Err(SolveFault::UnknownPort { id }) => Ok(id.text() == "q"),
        _ => Ok(false),
    }
}

#[test]
fn walks_of_requests(rt: HostRuntime) -> Result<(), Fail> {
    let alloc = rt.alloc();
    for (text, to, k, links, end) in [
        (TWO, "b", 3, "l2 ;l1 ;", KEnd::NoMore),
        (ZERO, "c", 2, "l1 l3 ;l1 l2 l1 l3 ;", KEnd::Enough),
        (BIG, "c", 2, "", KEnd::Past),
    ] {
        let inventory = inventory_of(alloc, text)?;
        let request = request_of(alloc, "a", to)?;
        let answer = k_solve(alloc, &inventory, &request, k)?;
        assert_eq!(rt; links_of(alloc, &answer)?.as_str(), links);
        assert_eq!(rt; answer.end, end);
        assert!(rt; refuses_q(alloc, &inventory)?);
    }
    Ok(())
}
