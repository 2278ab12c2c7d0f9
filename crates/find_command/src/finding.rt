// The reply to a search.
ghost use Rattle.std.specs.Prelude.{◌≡◌, ◌≢◌, ◌≤◌, ◌<◌, ◌^◌, [], IfOk, length};
ghost use Rattle.circuit_spec.specs.Faults.{IsSound};
ghost use Rattle.circuit_spec.specs.Network.{elements_of};
ghost use Rattle.line_text.specs.Lines.{text_of};
ghost use Rattle.answer_text.specs.Spelling.{lines_of};
ghost use Rattle.answer_spec.specs.WellFormed.{IsWellFormed};
ghost use Rattle.file_words.specs.Accepting.{IfAccepted};
ghost use Rattle.find_command.specs.Finding.{IsFound, shown, without_potentials};
ghost use Rattle.find_command.specs.Lines.{request_line};
ghost use Rattle.file_words.specs.Reading.{OverFiles, file_words};
ghost use Rattle.replies.specs.Status.{status_of};
ghost use Rattle.replies.specs.Through.{Gives, IsText};

use crate::lines::{make_label_not_here_line, make_unknown_port_line};
use answer_spec::{Answer, PotList};
use circuit_spec::Request;
use file_words::{accept, read_sources};
use finder_core::{SolveFault, solve};
use io_edges::{Files, Name};
use ml_base::NoMemory;
use nml_elements::DomainList;
use nml_inventory::Inventory;
use replies::{Page, Reply, Status, Stop, Text, one_line, status_of};
use std::alloc::Global;

/// The answer without its potentials.
fn without_potentials(alloc: Global, mut answer: Answer) -> Answer
    ensures { result ≡ without_potentials answer }
{
    answer.potentials = PotList::new(alloc);
    answer
}

/// What is shown of an answer.
fn shown(alloc: Global, answer: Answer, potentials: bool) -> Answer
    ensures { result ≡ shown potentials answer }
{
    if potentials {
        return answer;
    }
    without_potentials(alloc, answer)
}

/// The reply to a request that the topology does not know: a line that tells the first cause.
pub fn request_reply(alloc: Global, fault: &SolveFault) -> Result<Reply, NoMemory>
    ensures told { IfOk result (λ reply. fault.now ≢ SolveFault.NoMemory) }
    ensures line { IfOk result (IsText Status.NoRequest (request_line fault.now)) }
{
    let line = request_text(alloc, fault)?;
    let reply = one_line(alloc, Status::NoRequest, line)?;
    Ok(reply)
}

fn request_text(alloc: Global, fault: &SolveFault) -> Result<Text, NoMemory>
    ensures told { IfOk result (λ line. fault.now ≢ SolveFault.NoMemory) }
    ensures line { IfOk result (λ line. line ≡ request_line fault.now) }
{
    match fault {
        SolveFault::UnknownPort { id } => make_unknown_port_line(alloc, id),
        SolveFault::LabelNotHere { id, label } => make_label_not_here_line(alloc, id, *label),
        SolveFault::NoMemory => Err(NoMemory),
    }
}

/// The reply that shows this answer.
#[tactic(auto, using(crate::proofs::Shown::shown_formed))]
fn answered(alloc: Global, answer: Answer, potentials: bool) -> Reply
    requires { IsWellFormed answer }
    ensures formed { IsWellFormed (shown potentials answer) }
    ensures text { IsText (status_of answer.outcome) (text_of (lines_of (shown potentials answer))) result }
{
    let status = status_of(&answer.outcome);
    let document = shown(alloc, answer, potentials);
    Reply {
        status,
        text: Page::of_answer(document),
    }
}

fn find_in(
    alloc: Global,
    inventory: &Inventory,
    request: &Request,
    potentials: bool,
) -> Result<Reply, NoMemory>
    requires { IsSound inventory.now }
    ensures { IfOk result (IsFound request.now potentials inventory.now) }
{
    match solve(alloc, inventory, request) {
        Ok(answer) => Ok(answered(alloc, answer, potentials)),
        Err(fault) => request_reply(alloc, &fault),
    }
}

fn find_over(
    alloc: Global,
    request: &Request,
    potentials: bool,
    domains: DomainList,
) -> Result<Reply, Stop>
    requires few { length (elements_of domains) < 2 ^ 32 }
    ensures { Gives result (IfAccepted (IsFound request.now potentials) domains) }
{
    let inventory = accept(alloc, domains)?;
    let reply = find_in(alloc, &inventory, request, potentials)?;
    Ok(reply)
}

/// The reply to `find`, with potentials, or to `route`, without: over the files of these names.
pub fn find<F: Files>(
    alloc: Global,
    request: &Request,
    potentials: bool,
    names: &[Name],
    files: &mut F,
) -> Result<Reply, Stop>
    requires few { length names.now ≤ 64 }
    ensures { Gives result (OverFiles (F.store files.old) (F.store files.new) [] (file_words 1 names.now) (λ held. IfAccepted (IsFound request.now potentials))) }
{
    let sources = read_sources(alloc, &[], names, files)?;
    let reply = find_over(alloc, request, potentials, sources.domains)?;
    Ok(reply)
}
