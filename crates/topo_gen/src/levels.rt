// The domain of each level.
ghost use Rattle.std.specs.Prelude.{◌≡◌, ◌≤◌, ◌<◌, ◌+◌, ◌++◌, ◌^◌, [], ◌∷◌, IfOk, OnOk, length, codes, map};
ghost use Rattle.topo_gen.specs.Tunnels.{named, port, link, services_above, first_port, last_port, link_numbers, link_ids, ground, tunnel};

use crate::elements::{adaptation, deadaptation, domain_of, link, named, port};
use ml_base::{Items, NoMemory};
use nml_elements::{Domain, Element, IdList};
use std::alloc::Global;

/// How many links level 0 has.
const LINKS: u32 = 8;

fn services_above(
    alloc: Global,
    levels: u32,
    level: u32,
    first: &str,
    second: &str,
) -> Result<IdList, NoMemory>
    ensures { IfOk result (λ ids. ids ≡ services_above levels level first.now second.now) }
{
    let mut ids = Items::new(alloc);
    if level < levels {
        ids.push(named(alloc, first, level + 1)?)?;
        ids.push(named(alloc, second, level + 1)?)?;
    }
    Ok(ids)
}

fn first_port(alloc: Global, levels: u32, level: u32, sources: IdList) -> Result<Element, NoMemory>
    ensures { IfOk result (λ e. e ≡ first_port levels level sources) }
{
    let id = named(alloc, "x", level)?;
    let services = services_above(alloc, levels, level, "a", "b")?;
    Ok(port(alloc, id, sources, Items::new(alloc), services))
}

fn last_port(alloc: Global, levels: u32, level: u32, sinks: IdList) -> Result<Element, NoMemory>
    ensures { IfOk result (λ e. e ≡ last_port levels level sinks) }
{
    let id = named(alloc, "y", level)?;
    let services = services_above(alloc, levels, level, "u", "v")?;
    Ok(port(alloc, id, Items::new(alloc), sinks, services))
}

fn middle_port(alloc: Global, level: u32) -> Result<Element, NoMemory>
    ensures { IfOk result (λ e. e ≡ port (named (codes "m") level) [] [] []) }
{
    let id = named(alloc, "m", level)?;
    Ok(port(
        alloc,
        id,
        Items::new(alloc),
        Items::new(alloc),
        Items::new(alloc),
    ))
}

fn link_ids(alloc: Global) -> Result<IdList, NoMemory>
    ensures { IfOk result (λ ids. ids ≡ link_ids) }
{
    let mut ids = Items::new(alloc);
    for before in 0..LINKS {
        ids.push(named(alloc, "l", before + 1)?)?;
    }
    Ok(ids)
}

fn push_links(alloc: Global, elements: &mut Vec<Element>) -> Result<(), NoMemory>
    ensures { OnOk result (elements.new.items ≡ elements.old.items ++ map (λ i. link (named (codes "l") i) i) link_numbers) }
{
    for before in 0..LINKS {
        let number = before + 1;
        let id = named(alloc, "l", number)?;
        push(elements, link(id, u64::from(number)))?;
    }
    Ok(())
}

fn push(elements: &mut Vec<Element>, element: Element) -> Result<(), NoMemory>
    ensures { OnOk result (elements.new.items ≡ elements.old.items ++ element ∷ []) }
{
    match elements.push(element) {
        Ok(()) => Ok(()),
        Err(_) => Err(NoMemory),
    }
}

/// Level 0 of a network of these many levels.
#[tactic(auto, unfolding(crate::specs::Tunnels::ground))]
pub fn ground(alloc: Global, levels: u32) -> Result<Domain, NoMemory>
    ensures { IfOk result (λ domain. domain ≡ ground levels) }
{
    let mut elements = Vec::new(alloc);
    push(
        &mut elements,
        first_port(alloc, levels, 0, link_ids(alloc)?)?,
    )?;
    push(
        &mut elements,
        last_port(alloc, levels, 0, link_ids(alloc)?)?,
    )?;
    push_links(alloc, &mut elements)?;
    domain_of(alloc, 0, elements)
}

/// A level from 1 on of a network of these many levels.
#[tactic(auto, unfolding(crate::specs::Tunnels::tunnel))]
pub fn tunnel(alloc: Global, levels: u32, level: u32) -> Result<Domain, NoMemory>
    ensures { IfOk result (λ domain. domain ≡ tunnel levels level) }
{
    let mut elements = Vec::new(alloc);
    push(
        &mut elements,
        first_port(alloc, levels, level, Items::new(alloc))?,
    )?;
    push(&mut elements, middle_port(alloc, level)?)?;
    push(
        &mut elements,
        last_port(alloc, levels, level, Items::new(alloc))?,
    )?;
    push(&mut elements, adaptation(alloc, level, "a", "F", "x")?)?;
    push(&mut elements, adaptation(alloc, level, "b", "G", "m")?)?;
    push(&mut elements, deadaptation(alloc, level, "u", "F", "m")?)?;
    push(&mut elements, deadaptation(alloc, level, "v", "G", "y")?)?;
    domain_of(alloc, level, elements)
}
