// The reply to a question on a document.
ghost use Rattle.std.specs.Prelude.{◌≡◌, ◌≤◌, ◌<◌, ◌^◌, IfOk, length};
ghost use Rattle.circuit_spec.specs.Faults.{IsSound};
ghost use Rattle.circuit_spec.specs.Network.{elements_of};
ghost use Rattle.file_words.specs.Accepting.{IfAccepted};
ghost use Rattle.file_words.specs.Reading.{OverFiles, file_words};
ghost use Rattle.replies.specs.Through.{Gives};
ghost use Rattle.check_command.specs.Documents.{answer_words};
ghost use Rattle.check_command.specs.Examining.{IsExamined, IsToldOf};

use crate::checking::judged;
use crate::document::read_document;
use crate::replaying::carried_out;
use file_words::{Sources, accept};
use io_edges::{Files, Name};
use ml_base::NoMemory;
use nml_inventory::Inventory;
use replies::{Reply, Stop, Text};
use std::alloc::Global;

/// What is asked of a document.
#[derive(Clone, Copy, Debug, PartialEq, Eq)]
pub enum Question {
    /// Whether it holds.
    Check,
    /// Whether its rules carry a unit.
    Replay,
}

fn told_of(
    alloc: Global,
    question: Question,
    inventory: &Inventory,
    bytes: &[u8],
) -> Result<Reply, NoMemory>
    requires { IsSound inventory.now }
    ensures { IfOk result (IsToldOf question inventory.now bytes.now) }
{
    match question {
        Question::Check => judged(alloc, inventory, bytes),
        Question::Replay => carried_out(alloc, inventory, bytes),
    }
}

fn examine_in(
    alloc: Global,
    question: Question,
    inventory: &Inventory,
    held: &[Text],
) -> Result<Reply, NoMemory>
    requires sound { IsSound inventory.now }
    requires one { length held.now ≡ 1 }
    ensures { IfOk result (IsExamined question held.now inventory.now) }
{
    let document = &held[0];
    told_of(alloc, question, inventory, document.bytes())
}

fn examine_over(alloc: Global, question: Question, sources: Sources) -> Result<Reply, Stop>
    requires one { length sources.held ≡ 1 }
    requires few { length (elements_of sources.domains) < 2 ^ 32 }
    ensures { Gives result (IfAccepted (IsExamined question sources.held) sources.domains) }
{
    let inventory = accept(alloc, sources.domains)?;
    let reply = examine_in(alloc, question, &inventory, sources.held.as_slice())?;
    Ok(reply)
}

/// The reply to `check` or `replay`: to this question on the document of this name, over the files of these names.
pub fn examine<F: Files>(
    alloc: Global,
    question: Question,
    answer: &Name,
    names: &[Name],
    files: &mut F,
) -> Result<Reply, Stop>
    requires few { length names.now ≤ 64 }
    ensures { Gives result (OverFiles (F.store files.old) (F.store files.new) (answer_words answer.now) (file_words 1 names.now) (λ held. IfAccepted (IsExamined question held))) }
{
    let sources = read_document(alloc, answer, names, files)?;
    let reply = examine_over(alloc, question, sources)?;
    Ok(reply)
}
