// The reply to a search for several walks.
ghost use Rattle.std.specs.Prelude.{◌≤◌, ◌<◌, ◌^◌, [], IfOk, length};
ghost use Rattle.circuit_spec.specs.Faults.{IsSound};
ghost use Rattle.circuit_spec.specs.Network.{elements_of};
ghost use Rattle.line_text.specs.Lines.{text_of};
ghost use Rattle.k_text.specs.Listing.{k_lines_of};
ghost use Rattle.file_words.specs.Accepting.{IfAccepted};
ghost use Rattle.file_words.specs.Reading.{OverFiles, file_words};
ghost use Rattle.k_find_command.specs.Listing.{IsKFound};
ghost use Rattle.replies.specs.Status.{k_status_of};
ghost use Rattle.replies.specs.Through.{Gives, IsText};

use circuit_spec::Request;
use file_words::{accept, read_sources};
use find_command::request_reply;
use io_edges::{Files, Name};
use k_answers::KAnswer;
use k_solver::k_solve;
use ml_base::NoMemory;
use nml_elements::DomainList;
use nml_inventory::Inventory;
use replies::{Page, Reply, Stop, k_status_of};
use std::alloc::Global;

/// The reply that shows this list.
fn listed(answer: KAnswer) -> Reply
    ensures { IsText (k_status_of answer.walks answer.end) (text_of (k_lines_of answer)) result }
{
    let status = k_status_of(&answer);
    Reply {
        status,
        text: Page::of_list(answer),
    }
}

fn k_find_in(
    alloc: Global,
    inventory: &Inventory,
    request: &Request,
    k: u32,
) -> Result<Reply, NoMemory>
    requires some { 1 ≤ k }
    requires sound { IsSound inventory.now }
    ensures { IfOk result (IsKFound request.now k inventory.now) }
{
    match k_solve(alloc, inventory, request, k) {
        Ok(answer) => Ok(listed(answer)),
        Err(fault) => request_reply(alloc, &fault),
    }
}

fn k_find_over(alloc: Global, request: &Request, k: u32, domains: DomainList) -> Result<Reply, Stop>
    requires some { 1 ≤ k }
    requires few { length (elements_of domains) < 2 ^ 32 }
    ensures { Gives result (IfAccepted (IsKFound request.now k) domains) }
{
    let inventory = accept(alloc, domains)?;
    let reply = k_find_in(alloc, &inventory, request, k)?;
    Ok(reply)
}

/// The reply to `k-find`, over the files of these names.
pub fn k_find<F: Files>(
    alloc: Global,
    request: &Request,
    k: u32,
    names: &[Name],
    files: &mut F,
) -> Result<Reply, Stop>
    requires some { 1 ≤ k }
    requires few { length names.now ≤ 64 }
    ensures { Gives result (OverFiles (F.store files.old) (F.store files.new) [] (file_words 1 names.now) (λ held. IfAccepted (IsKFound request.now k))) }
{
    let sources = read_sources(alloc, &[], names, files)?;
    let reply = k_find_over(alloc, request, k, sources.domains)?;
    Ok(reply)
}
