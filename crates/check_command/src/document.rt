// The word that names a document.
ghost use Rattle.std.specs.Prelude.{◌≡◌, ◌<◌, ◌≤◌, ◌^◌, IfOk, length};
ghost use Rattle.circuit_spec.specs.Network.{elements_of};
ghost use Rattle.file_words.specs.Reading.{AreSources, EndsEarly, file_words};
ghost use Rattle.replies.specs.Through.{Passes};
ghost use Rattle.check_command.specs.Documents.{answer_word, answer_words};

use file_words::{FileWord, Sources, read_sources};
use io_edges::{Files, Name};
use ml_base::{Items, NoMemory};
use replies::Stop;
use std::alloc::Global;

/// The most bytes that a document may have that is read.
pub const ANSWER_LIMIT: u64 = 1_073_741_824;

/// The word of a document. Lines tell it as file 0.
fn answer_word(alloc: Global, answer: &Name) -> Result<FileWord, NoMemory>
    ensures { IfOk result (λ word. word ≡ answer_word answer.now) }
{
    Ok(FileWord {
        number: 0,
        name: Name::new(alloc, answer.text())?,
        limit: ANSWER_LIMIT,
    })
}

fn answer_words(alloc: Global, answer: &Name) -> Result<Items<FileWord>, NoMemory>
    ensures { IfOk result (λ own. own ≡ answer_words answer.now) }
{
    let mut own = Items::new(alloc);
    own.push(answer_word(alloc, answer)?)?;
    Ok(own)
}

/// What the document holds, and the domains of the files of these names.
pub(crate) fn read_document<F: Files>(
    alloc: Global,
    answer: &Name,
    names: &[Name],
    files: &mut F,
) -> Result<Sources, Stop>
    requires { length names.now ≤ 64 }
    ensures passes { Passes result (AreSources (F.store files.old) (answer_words answer.now) (file_words 1 names.now)) (EndsEarly (F.store files.old) (F.store files.new) (answer_words answer.now) (file_words 1 names.now)) }
    ensures few { IfOk result (λ sources. length (elements_of sources.domains) < 2 ^ 32) }
{
    let own = answer_words(alloc, answer)?;
    let sources = read_sources(alloc, own.as_slice(), names, files)?;
    Ok(sources)
}
