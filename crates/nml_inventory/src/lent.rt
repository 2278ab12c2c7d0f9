ghost use Rattle.std.specs.Prelude.{◌≡◌, ◌<◌, ◌^◌, ◌++◌, All, IfOk, IsTrue, OnOk, length, map};
ghost use Rattle.ml_base.specs.declared.numbers.PortNo.{PortNo as PortNumber};
ghost use Rattle.circuit_spec.specs.Network.{elements_of, ports};
ghost use Rattle.nml_inventory.specs.Loans.{AreLoans, LendWithin, lent_arcs, lent_by, shared};
ghost use Rattle.nml_inventory.specs.declared.lent.Holding.TheVariants.{Lent};
ghost use Rattle.nml_inventory.specs.Tables.{held_by, IsTable, lent_of, lent_over, takes_number};

use crate::loans::{Loan, Loans};
use crate::numbered::Numbered;
use crate::relation::Relation;
use crate::shared::Shared;
use alias_merge::rising_groups;
use ml_base::{Id, NoMemory, PortNo};
use nml_elements::Element;
use std::alloc::{AllocError, Global};

/// For each SwitchingService that lists nothing the ports that Nodes lend to it, by the loans and the ports that each Node lists. The
/// ports of a loan are kept once.
pub fn lent_ports(
    alloc: Global,
    numbered: &Numbered,
    loans: &Loans,
    listed: &Relation,
) -> Result<Shared, NoMemory>
    requires loans { AreLoans numbered.now loans.now.kinds.keys loans.now.rows.items }
    requires listed { IsTable (length (elements_of numbered.now)) (length (ports numbered.now)) listed.now }
    ensures { IfOk result (λ table. table ≡ shared (lent_by numbered.now listed.now loans.now.kinds.keys) loans.now.rows.items) }
{
    let kinds = loans.kinds.as_slice();
    let count = kinds.len() as u32;
    match arcs(alloc, numbered, kinds, listed) {
        Ok(arcs) => {
            let groups = rising_groups(alloc, count, numbered.ports(), &arcs)?;
            let lists = Relation::new(alloc, count, &groups)?;
            Shared::new(alloc, lists, loans.rows.as_slice())
        }
        Err(_) => Err(NoMemory),
    }
}

/// The numbers of all loans with those of their ports.
fn arcs(
    alloc: Global,
    numbered: &Numbered,
    kinds: &[Loan],
    listed: &Relation,
) -> Result<Vec<(u32, u32)>, AllocError>
    requires few { length kinds.now < 2 ^ 32 }
    requires nodes { All (LendWithin (length (elements_of numbered.now))) kinds.now }
    requires listed { IsTable (length (elements_of numbered.now)) (length (ports numbered.now)) listed.now }
    ensures { IfOk result (λ arcs. arcs.items ≡ lent_arcs numbered.now listed.now kinds.now) }
{
    let mut arcs = Vec::new(alloc);
    for row in 0..kinds.len() {
        let loan = &kinds[row];
        lend_nodes(
            &mut arcs,
            numbered,
            listed,
            row as u32,
            &loan.encoding,
            loan.nodes.as_slice(),
        )?;
    }
    Ok(arcs)
}

/// Adds the ports of Nodes that have the encoding, where one is stated.
fn lend_nodes(
    arcs: &mut Vec<(u32, u32)>,
    numbered: &Numbered,
    listed: &Relation,
    row: u32,
    encoding: &Option<Id>,
    nodes: &[u32],
) -> Result<(), AllocError>
    requires listed { IsTable (length (elements_of numbered.now)) (length (ports numbered.now)) listed.now }
    requires nodes { All (λ n. n < length (elements_of numbered.now)) nodes.now }
    ensures { OnOk result (arcs.new.items ≡ arcs.old.items ++ lent_over numbered.now listed.now row encoding.now nodes.now) }
{
    for node in nodes {
        lend_ports(arcs, numbered, row, encoding, listed.of(u64::from(*node)))?;
    }
    Ok(())
}

/// Adds those of the ports that have the encoding, where one is stated.
fn lend_ports(
    arcs: &mut Vec<(u32, u32)>,
    numbered: &Numbered,
    row: u32,
    encoding: &Option<Id>,
    found: &[PortNo],
) -> Result<(), AllocError>
    requires { All (λ n. n < length (ports numbered.now)) (map (λ (p : PortNumber). p.0) found.now) }
    ensures { OnOk result (arcs.new.items ≡ arcs.old.items ++ lent_of numbered.now row encoding.now (map (λ (p : PortNumber). p.0) found.now)) }
{
    for port in found {
        if takes(numbered, encoding, *port) {
            arcs.push((row, port.0))?;
        }
    }
    Ok(())
}

/// Whether the port has the encoding, where one is stated.
fn takes(numbered: &Numbered, encoding: &Option<Id>, port: PortNo) -> bool
    requires { port.0 < length (ports numbered.now) }
    ensures { result ≡ takes_number numbered.now encoding.now port.0 }
{
    match encoding {
        Some(encoding) => numbered.encoding_of(port).text() == encoding.text(),
        None => true,
    }
}

/// Where the ports of a service stand: it lists them, or Nodes lend them to it, or it has none.
#[derive(Clone, Copy)]
pub enum Holding {
    Own,
    Lent,
    Neither,
}

/// Where the ports of an element stand that switches or converts.
pub fn held_by(element: &Element) -> Holding
    ensures { result ≡ held_by element.now }
{
    match element {
        Element::Switching(s) => {
            if s.inbound.is_none() && s.outbound.is_none() {
                Holding::Lent
            } else {
                Holding::Own
            }
        }
        Element::Conversion(_) => Holding::Own,
        Element::Node(_) => Holding::Neither,
        Element::Port(_) => Holding::Neither,
        Element::Link(_) => Holding::Neither,
        Element::Adaptation(_) => Holding::Neither,
        Element::Deadaptation(_) => Holding::Neither,
    }
}

/// Whether an element has its ports of Nodes.
pub fn is_lent(element: &Element) -> bool
    ensures { IsTrue result → held_by element.now ≡ Lent }
{
    match held_by(element) {
        Holding::Lent => true,
        Holding::Own => false,
        Holding::Neither => false,
    }
}
