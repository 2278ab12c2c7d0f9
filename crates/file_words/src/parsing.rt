// The domains that the files say.
ghost use Rattle.std.specs.Prelude.{◌≡◌, ◌≤◌, ◌<◌, ◌*◌, ◌^◌, ◌++◌, IfOk, length};
ghost use Rattle.circuit_spec.specs.Network.{elements_of};
ghost use Rattle.replies.specs.Through.{Each, Ends, Passes, IsStop, IsText};
ghost use Rattle.file_words.specs.Lines.{fault_line};
ghost use Rattle.file_words.specs.Reading.{AreSources, EndsEarly, IsDomain, IsFaulty, file_words};

use crate::fault_lines::make_fault_line;
use crate::reading::{FileWord, file_words, read_all};
use io_edges::{Files, Name};
use ml_base::NoMemory;
use nml_elements::{Domain, DomainList, ReadFault, read_domain};
use replies::{Status, Stop, Text, Texts, ended};
use std::alloc::Global;

fn faulty(alloc: Global, number: u64, fault: ReadFault) -> Stop
    ensures { IsStop result (IsText Status.Fault (fault_line number fault)) }
{
    match make_fault_line(alloc, number, &fault) {
        Ok(line) => ended(alloc, Status::Fault, line),
        Err(NoMemory) => Stop::NoMemory,
    }
}

fn parse_file(alloc: Global, number: u64, bytes: &Text) -> Result<Domain, Stop>
    ensures passes { Passes result (IsDomain bytes.now) (IsFaulty number bytes.now) }
    ensures few { IfOk result (λ domain. length domain.elements ≤ 16777216) }
{
    match read_domain(alloc, bytes.bytes()) {
        Ok(domain) => Ok(domain),
        Err(ReadFault::NoMemory) => Err(Stop::NoMemory),
        Err(fault) => Err(faulty(alloc, number, fault)),
    }
}

/// The domains, or the first fault.
fn parse_files(alloc: Global, contents: &[Text]) -> Result<DomainList, Stop>
    ensures passes { Passes result (Each IsDomain contents.now) (Ends IsDomain IsFaulty contents.now) }
    ensures few { IfOk result (λ domains. length (elements_of domains) ≤ 16777216 * length contents.now) }
{
    let mut domains = DomainList::new(alloc);
    let mut number = 0;
    for bytes in contents {
        number += 1;
        domains.push(parse_file(alloc, number, bytes)?)?;
    }
    Ok(domains)
}

/// What a command goes by: what its own words hold, and the domains of its files.
#[derive(Drop)]
pub struct Sources {
    pub held: Texts,
    pub domains: DomainList,
}

/// What the words hold.
fn sources_of<F: Files>(
    alloc: Global,
    own: &[FileWord],
    words: &[FileWord],
    files: &mut F,
) -> Result<Sources, Stop>
    ensures passes { Passes result (AreSources (F.store files.old) own.now words.now) (EndsEarly (F.store files.old) (F.store files.new) own.now words.now) }
    ensures few { IfOk result (λ sources. length (elements_of sources.domains) ≤ 16777216 * length words.now) }
{
    let read = read_all(alloc, own, words, files)?;
    let domains = parse_files(alloc, read.files.as_slice())?;
    Ok(Sources {
        held: read.own,
        domains,
    })
}

/// What the own words of a command hold, and the domains of the files of these names. All are read, the own words first, before any
/// file is parsed.
pub fn read_sources<F: Files>(
    alloc: Global,
    own: &[FileWord],
    names: &[Name],
    files: &mut F,
) -> Result<Sources, Stop>
    requires { length names.now ≤ 64 }
    ensures passes { Passes result (AreSources (F.store files.old) own.now (file_words 1 names.now)) (EndsEarly (F.store files.old) (F.store files.new) own.now (file_words 1 names.now)) }
    ensures few { IfOk result (λ sources. length (elements_of sources.domains) < 2 ^ 32) }
{
    let words = file_words(alloc, names)?;
    let sources = sources_of(alloc, own, words.as_slice(), files)?;
    Ok(sources)
}
