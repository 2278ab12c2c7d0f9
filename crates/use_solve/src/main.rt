//! A use of the calls below the top call: files are read and accepted, and a request is solved over their network. The answer is data;
//! here the element of each hop is printed.
#![tactic(auto)]

ghost use Rattle.std.specs.Prelude.{◌≤◌, IfOk, length};
ghost use Rattle.circuit_spec.specs.Faults.{IsSound};

use anyhow::{Result, bail};
use circuit_spec::Request;
use file_words::{accept, read_sources};
use finder_core::solve;
use io_edges::{Files, MemFiles, Name};
use ml_base::{Id, Wish};
use nml_inventory::Inventory;
use replies::Stop;
use std::alloc::Global;

/// The port `a` leads over the link `l` to the port `b`.
const ONE: &str =
    "{\"format\":1,\"topology\":\"d\",\"elements\":[{\"type\":\"Port\",\"id\":\"a\",\"isSource\":[\"l\"]},{\"type\":\"Port\",\"id\":\"b\",\"isSink\":[\"l\"]},{\"type\":\"Link\",\"id\":\"l\"}]}";

/// The network of the files of these names, or the reply that says why there is none.
fn network<F: Files>(alloc: Global, names: &[Name], files: &mut F) -> Result<Inventory, Stop>
    requires { length names.now ≤ 64 }
    ensures { IfOk result (λ inventory. IsSound inventory) }
{
    let sources = read_sources(alloc, &[], names, files)?;
    let inventory = accept(alloc, sources.domains)?;
    Ok(inventory)
}

fn request(alloc: Global) -> Result<Request> {
    Ok(Request {
        from: Id::new(alloc, "a")?,
        from_wish: Wish::Any,
        to: Id::new(alloc, "b")?,
        to_wish: Wish::Any,
    })
}

fn show_circuit(rt: &HostRuntime, inventory: &Inventory) -> Result<()>
    requires { IsSound inventory.now }
{
    let request = request(rt.alloc())?;
    let answer = solve(rt.alloc(), inventory, &request)?;
    for hop in answer.hops.as_slice() {
        println!(rt; "{}", hop.element.text())?;
    }
    Ok(())
}

fn main(rt: HostRuntime) -> Result<()> {
    let mut files = MemFiles::new(rt.alloc());
    files.put("one.json", ONE.as_bytes())?;
    let name = Name::new(rt.alloc(), "one.json")?;
    match network(rt.alloc(), &[name], &mut files) {
        Ok(inventory) => show_circuit(&rt, &inventory),
        Err(_) => bail!("no accepted topology"),
    }
}
