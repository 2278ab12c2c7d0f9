// The parts of a network: ids, ports, links and services.
ghost use Rattle.std.specs.Prelude.{◌≡◌, ◌<◌, ◌^◌, [], ◌∷◌, IfOk, length};
ghost use Rattle.topo_gen.specs.Tunnels.{named, port, link, adaptation, deadaptation, entries_from, domain_of};

use ml_base::{Id, Items, NoMemory};
use nml_elements::{AdaptE, Domain, Element, ElementList, Entry, IdList, Labels, LinkE, PortE};
use std::alloc::Global;

/// The id of a letter and a number.
pub fn named(alloc: Global, letter: &str, number: u32) -> Result<Id, NoMemory>
    ensures { IfOk result (λ id. id ≡ named letter.now number) }
{
    let Ok(text) = format!(in alloc; "{letter}{number}") else {
        return Err(NoMemory);
    };
    match Id::new(alloc, &text) {
        Ok(id) => Ok(id),
        // a letter and a number are an id, so memory alone was wanting
        Err(_) => Err(NoMemory),
    }
}

/// A port without a label, an encoding or an alias.
pub fn port(alloc: Global, id: Id, sources: IdList, sinks: IdList, services: IdList) -> Element
    ensures { result ≡ port id sources sinks services }
{
    Element::Port(PortE {
        id,
        group: false,
        encoding: None,
        labels: Labels::Unlabelled,
        sources,
        sinks,
        services,
        aliases: Items::new(alloc),
    })
}

/// A link without a label or an encoding.
pub fn link(id: Id, cost: u64) -> Element
    ensures { result ≡ link id cost }
{
    Element::Link(LinkE {
        id,
        group: false,
        encoding: None,
        labels: Labels::Unlabelled,
        cost,
    })
}

/// What an adaptation or a deadaptation of cost 1 says, in a level: the letters of its id, its function and its client port.
fn service(
    alloc: Global,
    level: u32,
    letter: &str,
    function: &str,
    client: &str,
) -> Result<AdaptE, NoMemory>
    ensures { IfOk result (λ s. s ≡ record { id = named letter.now level; function = named function.now level; cost = 1; ports = named client.now level ∷ [] }) }
{
    let mut ports = Items::new(alloc);
    ports.push(named(alloc, client, level)?)?;
    Ok(AdaptE {
        id: named(alloc, letter, level)?,
        function: named(alloc, function, level)?,
        cost: 1,
        ports,
    })
}

/// An adaptation of a level, by the letters of its id, its function and its client port.
pub fn adaptation(
    alloc: Global,
    level: u32,
    letter: &str,
    function: &str,
    client: &str,
) -> Result<Element, NoMemory>
    ensures { IfOk result (λ e. e ≡ adaptation (named letter.now level) (named function.now level) (named client.now level)) }
{
    Ok(Element::Adaptation(service(alloc, level, letter, function, client)?))
}

/// A deadaptation of a level, likewise.
pub fn deadaptation(
    alloc: Global,
    level: u32,
    letter: &str,
    function: &str,
    client: &str,
) -> Result<Element, NoMemory>
    ensures { IfOk result (λ e. e ≡ deadaptation (named letter.now level) (named function.now level) (named client.now level)) }
{
    Ok(Element::Deadaptation(service(alloc, level, letter, function, client)?))
}

/// The elements as entries without a lifetime, numbered from 1.
fn numbered(alloc: Global, elements: Vec<Element>) -> Result<ElementList, NoMemory>
    requires { length elements.items < 2 ^ 32 }
    ensures { IfOk result (λ entries. entries ≡ entries_from 1 elements.items) }
{
    let mut entries = Items::new(alloc);
    for element in elements {
        let number = entries.len() + 1;
        entries.push(Entry {
            number,
            element,
            lifetime: None,
        })?;
    }
    Ok(entries)
}

/// The domain of a level, of these elements.
pub fn domain_of(alloc: Global, level: u32, elements: Vec<Element>) -> Result<Domain, NoMemory>
    requires { length elements.items < 2 ^ 32 }
    ensures { IfOk result (λ domain. domain ≡ domain_of level elements.items) }
{
    Ok(Domain {
        id: named(alloc, "d", level)?,
        encoding: None,
        elements: numbered(alloc, elements)?,
    })
}
