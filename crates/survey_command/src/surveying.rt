// The counts of the files.
ghost use Rattle.std.specs.Prelude.{◌≡◌, ◌<◌, ◌^◌, ◌≤◌, ◌+◌, ◌-◌, ◌++◌, if◌then◌else◌, [], ◌∷◌, IfOk, OnOk, length, take};
ghost use Rattle.std.specs.List.{concat};
ghost use Rattle.circuit_spec.specs.Faults.{is_link, is_service};
ghost use Rattle.circuit_spec.specs.Network.{elements_of};
ghost use Rattle.nml_inventory.specs.Relations.{IsClassCount};
ghost use Rattle.file_words.specs.Accepting.{IfAccepted};
ghost use Rattle.survey_command.specs.Lines.{survey_line, domain_line, count_line};
ghost use Rattle.file_words.specs.Reading.{OverFiles, file_words};
ghost use Rattle.survey_command.specs.Surveying.{IsSurvey, counts, heading, links_in, services_in};
ghost use Rattle.replies.specs.Through.{Gives};

use crate::lines::{make_count_line, make_domain_line, make_survey_line};
use file_words::{accept, read_sources};
use io_edges::{Files, Name};
use ml_base::NoMemory;
use nml_elements::{Domain, DomainList, Element};
use nml_inventory::Inventory;
use replies::{Page, Reply, Status, Stop, Texts};
use std::alloc::Global;

fn is_link(element: &Element) -> bool
    ensures { result ≡ is_link element.now }
{
    matches!(element, Element::Link(_))
}

fn is_service(element: &Element) -> bool
    ensures { result ≡ is_service element.now }
{
    match element {
        Element::Switching(_) | Element::Conversion(_) => true,
        Element::Adaptation(_) | Element::Deadaptation(_) => true,
        Element::Node(_) | Element::Port(_) | Element::Link(_) => false,
    }
}

/// How many links the files have, and how many services.
#[derive(Clone, Copy)]
struct Counts {
    links: u64,
    services: u64,
}

fn counted(counts: Counts, element: &Element) -> Counts
    requires links { counts.links < 2 ^ 64 - 1 }
    requires services { counts.services < 2 ^ 64 - 1 }
    ensures links { result.links ≡ counts.links + (if is_link element.now then 1 else 0) }
    ensures services { result.services ≡ counts.services + (if is_service element.now then 1 else 0) }
{
    Counts {
        links: counts.links + u64::from(is_link(element)),
        services: counts.services + u64::from(is_service(element)),
    }
}

/// The counts with the element of this number.
fn counted_at(inventory: &Inventory, number: u64, counts: Counts) -> Counts
    requires fits { number < 2 ^ 64 - 1 }
    requires within { number < length (elements_of inventory.now) }
    requires links { counts.links ≡ links_in (take number (elements_of inventory.now)) }
    requires services { counts.services ≡ services_in (take number (elements_of inventory.now)) }
    ensures links { result.links ≡ links_in (take (number + 1) (elements_of inventory.now)) }
    ensures services { result.services ≡ services_in (take (number + 1) (elements_of inventory.now)) }
{
    match inventory.element(number) {
        Some(element) => counted(counts, element),
        None => counts,
    }
}

/// How many links and services there are.
fn count_elements(inventory: &Inventory) -> Counts
    ensures links { result.links ≡ links_in (elements_of inventory.now) }
    ensures services { result.services ≡ services_in (elements_of inventory.now) }
{
    let mut counts = Counts {
        links: 0,
        services: 0,
    };
    for number in 0..inventory.elements() {
        counts = counted_at(inventory, number, counts);
    }
    counts
}

/// The first lines: one for each file.
fn heading_of(alloc: Global, domains: &[Domain]) -> Result<Texts, NoMemory>
    ensures { IfOk result (λ lines. lines ≡ heading domains.now) }
{
    let mut lines = Texts::new(alloc);
    lines.push(make_survey_line(alloc)?)?;
    for domain in domains {
        lines.push(make_domain_line(alloc, domain)?)?;
    }
    Ok(lines)
}

fn push_count(alloc: Global, lines: &mut Texts, word: &[u8], count: u64) -> Result<(), NoMemory>
    requires { length word.now ≤ 20 }
    ensures { OnOk result (lines.new ≡ lines.old ++ count_line word.now count ∷ []) }
{
    let line = make_count_line(alloc, word, count)?;
    lines.push(line)?;
    Ok(())
}

fn push_counts(alloc: Global, lines: &mut Texts, inventory: &Inventory) -> Result<u32, NoMemory>
    ensures counted { IfOk result (IsClassCount inventory.now) }
    ensures lines { IfOk result (λ classes. lines.new ≡ lines.old ++ counts inventory.now classes) }
{
    let classes = inventory.class_count();
    let counts = count_elements(inventory);
    push_count(alloc, lines, b"ports ", inventory.ports() as u64)?;
    push_count(alloc, lines, b"classes ", classes as u64)?;
    push_count(alloc, lines, b"links ", counts.links)?;
    push_count(alloc, lines, b"services ", counts.services)?;
    push_count(
        alloc,
        lines,
        b"open-references ",
        inventory.open_references(),
    )?;
    Ok(classes)
}

fn survey_in(alloc: Global, mut lines: Texts, inventory: &Inventory) -> Result<Reply, NoMemory>
    requires { lines ≡ heading inventory.now }
    ensures { IfOk result (IsSurvey inventory.now) }
{
    push_counts(alloc, &mut lines, inventory)?;
    Ok(Reply {
        status: Status::Done,
        text: Page::of_lines(lines),
    })
}

fn survey_over(alloc: Global, domains: DomainList) -> Result<Reply, Stop>
    requires few { length (elements_of domains) < 2 ^ 32 }
    ensures { Gives result (IfAccepted IsSurvey domains) }
{
    let lines = heading_of(alloc, domains.as_slice())?;
    let inventory = accept(alloc, domains)?;
    let reply = survey_in(alloc, lines, &inventory)?;
    Ok(reply)
}

/// The reply to `survey`: the counts of the files of these names.
pub fn survey<F: Files>(alloc: Global, names: &[Name], files: &mut F) -> Result<Reply, Stop>
    requires few { length names.now ≤ 64 }
    ensures { Gives result (OverFiles (F.store files.old) (F.store files.new) [] (file_words 1 names.now) (λ held. IfAccepted IsSurvey)) }
{
    let sources = read_sources(alloc, &[], names, files)?;
    let reply = survey_over(alloc, sources.domains)?;
    Ok(reply)
}
