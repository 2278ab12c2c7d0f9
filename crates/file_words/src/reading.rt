// The files of the words, in order.
ghost use Rattle.std.specs.Prelude.{◌≡◌, ◌≤◌, ◌++◌, IfOk, length};
ghost use Rattle.replies.specs.Through.{Passes, IsStop, IsText};
ghost use Rattle.file_words.specs.Lines.{read_line};
ghost use Rattle.file_words.specs.Reading.{AreAllRead, AreRead, IsRead, IsRefused, StopsReading, file_words};

use io_edges::{FileFault, Files, Line, Name};
use ml_base::{Items, NoMemory};
use replies::{Status, Stop, Text, Texts, ended};
use std::alloc::Global;

/// The most bytes that a topology file may have.
pub const FILE_LIMIT: u64 = 16_777_216;

/// A word that names a file: the number by which a line on it tells it, and the most bytes that the file may have.
#[derive(Drop)]
pub struct FileWord {
    pub number: u64,
    pub name: Name,
    pub limit: u64,
}

fn file_word(alloc: Global, number: u64, name: &Name) -> Result<FileWord, NoMemory>
    ensures { IfOk result (λ word. word ≡ record { number = number; name = name.now; limit = 16777216 }) }
{
    Ok(FileWord {
        number,
        name: Name::new(alloc, name.text())?,
        limit: FILE_LIMIT,
    })
}

/// The words of topology files, numbered from 1.
pub(crate) fn file_words(alloc: Global, names: &[Name]) -> Result<Items<FileWord>, NoMemory>
    ensures words { IfOk result (λ words. words ≡ file_words 1 names.now) }
    ensures many { IfOk result (λ words. length words ≡ length names.now) }
{
    let mut words = Items::new(alloc);
    let mut number = 0;
    for name in names {
        number += 1;
        words.push(file_word(alloc, number, name)?)?;
    }
    Ok(words)
}

#[tactic(auto, unfolding(crate::specs::Lines::read_line))]
fn make_read_line(alloc: Global, number: u64, answer: &[u8]) -> Result<Text, NoMemory>
    requires { length answer.now ≤ 10 }
    ensures { IfOk result (λ line. line ≡ read_line number answer.now) }
{
    let mut line = Line::new();
    line.push(b"read ");
    line.push_number(number);
    line.push(b" ");
    line.push(answer);
    line.push(b"\n");
    Text::copy(alloc, line.bytes())
}

fn refused(alloc: Global, status: Status, number: u64, answer: &[u8]) -> Stop
    requires { length answer.now ≤ 10 }
    ensures { IsStop result (IsText status (read_line number answer.now)) }
{
    match make_read_line(alloc, number, answer) {
        Ok(line) => ended(alloc, status, line),
        Err(NoMemory) => Stop::NoMemory,
    }
}

fn read_word<F: Files>(alloc: Global, word: &FileWord, files: &mut F) -> Result<Text, Stop>
    ensures read { Passes result (IsRead (F.store files.old) word.now) (IsRefused (F.store files.old) (F.store files.new) word.now) }
    ensures kept { (F.store files.new).contents ≡ (F.store files.old).contents }
    ensures reads { (F.store files.old).reads ≤ (F.store files.new).reads }
    ensures faults { (F.store files.old).faults ≤ (F.store files.new).faults }
{
    match files.read_file(alloc, word.name.text(), word.limit) {
        Ok(bytes) => Ok(Text::new(bytes)),
        Err(FileFault::Absent) => Err(refused(alloc, Status::NotRead, word.number, b"absent")),
        Err(FileFault::Failed) => Err(refused(alloc, Status::NotRead, word.number, b"failed")),
        Err(FileFault::TooBig) => Err(refused(alloc, Status::TooBig, word.number, b"too-big")),
        Err(FileFault::NoMemory) => Err(Stop::NoMemory),
    }
}

/// What the files of the words hold.
pub(crate) fn read_words<F: Files>(
    alloc: Global,
    words: &[FileWord],
    files: &mut F,
) -> Result<Texts, Stop>
    ensures passes { Passes result (AreRead (F.store files.old) words.now) (StopsReading (F.store files.old) (F.store files.new) words.now) }
    ensures kept { (F.store files.new).contents ≡ (F.store files.old).contents }
    ensures reads { (F.store files.old).reads ≤ (F.store files.new).reads }
    ensures faults { (F.store files.old).faults ≤ (F.store files.new).faults }
    ensures many { IfOk result (λ contents. length contents ≡ length words.now) }
{
    let mut contents = Texts::new(alloc);
    for word in words {
        contents.push(read_word(alloc, word, files)?)?;
    }
    Ok(contents)
}

/// What all words hold.
#[derive(Drop)]
pub(crate) struct AllRead {
    pub own: Texts,
    pub files: Texts,
}

/// Reads the own words of a command, and then those of its files.
pub(crate) fn read_all<F: Files>(
    alloc: Global,
    own: &[FileWord],
    words: &[FileWord],
    files: &mut F,
) -> Result<AllRead, Stop>
    ensures passes { Passes result (AreAllRead (F.store files.old) own.now words.now) (StopsReading (F.store files.old) (F.store files.new) (own.now ++ words.now)) }
    ensures many { IfOk result (λ read. length read.files ≡ length words.now) }
{
    let held = read_words(alloc, own, files)?;
    let contents = read_words(alloc, words, files)?;
    Ok(AllRead {
        own: held,
        files: contents,
    })
}
