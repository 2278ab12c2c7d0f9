ghost use Rattle.std.specs.Prelude.{◌≡◌, ◌<◌, ◌≤◌, ◌+◌, ◌&&◌, string_bytes, IsTrue, IfOk, length, map, nat_le, nat_lt};
ghost use Rattle.std.specs.List.{list_all};
ghost use Rattle.line_text.specs.Fields.{id_of, wish_of};
ghost use Rattle.command_words.specs.Words.{asked_of, check_of, command_of, count_of, drill_of, end_of, examined_of, files_of, find_of, k_find_of, replay_of, survey_of, has_bytes, CountsFew, NamesFewFiles};
ghost use Rattle.command_words.specs.Spells.{Spells};

use circuit_spec::Request;
use io_edges::Name;
use line_text::Refused;
use ml_base::{Id, Items, NoMemory, Wish};
use std::alloc::Global;
use thiserror::Error;

/// Names of files, in order.
pub type NameList = Items<Name>;

/// What the words ask for.
#[derive(Drop)]
pub enum Command {
    /// The cheapest circuit of the request over these topology files, shown with its potentials or without.
    Find {
        request: Request,
        files: NameList,
        potentials: bool,
    },
    /// As many of its cheapest circuits, listed.
    KFind {
        k: u32,
        request: Request,
        files: NameList,
    },
    /// Whether the document in this file holds over these topology files.
    Check {
        answer: Name,
        files: NameList,
    },
    /// Whether its rules carry a data unit.
    Replay {
        answer: Name,
        files: NameList,
    },
    /// The counts of these topology files.
    Survey {
        files: NameList,
    },
    /// A circuit through a network of these many levels, which is made for it.
    Drill {
        levels: u32,
    },
}

/// A request, and the topology files that it is asked over.
#[derive(Drop)]
pub struct Asked {
    pub request: Request,
    pub files: NameList,
}

/// A document, and the topology files that it is examined over.
#[derive(Drop)]
pub struct Examined {
    pub answer: Name,
    pub files: NameList,
}

/// An end of a request.
#[derive(Drop)]
pub struct End {
    pub port: Id,
    pub wish: Wish,
}

/// Why words give no command.
#[derive(Debug, Drop, Error)]
pub enum WordsFault {
    /// They spell none.
    #[error("no such command")]
    Usage,
    #[error("out of memory")]
    NoMemory,
}

impl From<NoMemory> for WordsFault {
    ghost use Rattle.command_words.specs.declared.words.WordsFault.TheVariants as faults;
    ghost use Rattle.std.specs.Prelude.{◌≡◌};

    ghost from_gives = { λ _ e. e ≡ faults.NoMemory };

    fn from(_: NoMemory) -> WordsFault {
        WordsFault::NoMemory
    }
}

fn has_bytes(word: &String) -> bool
    ensures { result ≡ has_bytes word.now }
{
    0 < word.as_bytes().len()
}

fn have_bytes(words: &[String]) -> bool
    ensures { result ≡ list_all has_bytes words.now }
{
    words.iter().all(|word| has_bytes(word))
}

fn are_files(words: &[String]) -> bool
    ensures { result ≡ nat_le 1 (length words.now) && nat_le (length words.now) 64 && list_all has_bytes words.now }
{
    1 <= words.len() && words.len() <= 64 && have_bytes(words)
}

fn names_of(alloc: Global, words: &[String]) -> Result<NameList, NoMemory>
    ensures names { IfOk result (λ names. names ≡ map string_bytes words.now) }
    ensures many { IfOk result (λ names. length names ≡ length words.now) }
{
    let mut names = NameList::new(alloc);
    for word in words {
        let name = Name::new(alloc, word.as_str())?;
        names.push(name)?;
    }
    Ok(names)
}

#[tactic(auto, unfolding(crate::specs::Words::files_of))]
fn parse_files(alloc: Global, words: &[String]) -> Result<NameList, WordsFault>
    ensures spelled { Spells result (files_of words.now) }
    ensures few { IfOk result (λ names. length names ≤ 64) }
{
    if !are_files(words) {
        return Err(WordsFault::Usage);
    }
    let names = names_of(alloc, words)?;
    Ok(names)
}

fn parse_id(alloc: Global, word: &str) -> Result<Id, WordsFault>
    ensures { Spells result (id_of word.now) }
{
    match line_text::id(alloc, word.as_bytes()) {
        Ok(id) => Ok(id),
        Err(Refused::Misfit) => Err(WordsFault::Usage),
        Err(Refused::NoMemory) => Err(WordsFault::NoMemory),
    }
}

fn parse_wish(word: &str) -> Result<Wish, WordsFault>
    ensures { Spells result (wish_of word.now) }
{
    match line_text::read_wish(word.as_bytes()) {
        Some(wish) => Ok(wish),
        None => Err(WordsFault::Usage),
    }
}

#[tactic(auto, unfolding(crate::specs::Words::end_of))]
fn parse_end(alloc: Global, port: &str, wish: &str) -> Result<End, WordsFault>
    ensures { Spells result (end_of port.now wish.now) }
{
    let port = parse_id(alloc, port)?;
    let wish = parse_wish(wish)?;
    Ok(End { port, wish })
}

#[tactic(auto, unfolding(crate::specs::Words::asked_of))]
fn parse_asked(alloc: Global, words: &[String]) -> Result<Asked, WordsFault>
    ensures spelled { Spells result (asked_of words.now) }
    ensures few { IfOk result (λ asked. length asked.files ≤ 64) }
{
    let [from, from_wish, to, to_wish, names @ ..] = words else {
        return Err(WordsFault::Usage);
    };
    let source = parse_end(alloc, from.as_str(), from_wish.as_str())?;
    let target = parse_end(alloc, to.as_str(), to_wish.as_str())?;
    let files = parse_files(alloc, names)?;
    let request = Request {
        from: source.port,
        from_wish: source.wish,
        to: target.port,
        to_wish: target.wish,
    };
    Ok(Asked { request, files })
}

#[tactic(auto, unfolding(crate::specs::Words::find_of))]
fn parse_find(alloc: Global, words: &[String], potentials: bool) -> Result<Command, WordsFault>
    ensures spelled { Spells result (find_of potentials words.now) }
    ensures few { IfOk result NamesFewFiles }
    ensures count { IfOk result CountsFew }
{
    let Asked { request, files } = parse_asked(alloc, words)?;
    Ok(Command::Find {
        request,
        files,
        potentials,
    })
}

#[tactic(auto, unfolding(crate::specs::Words::count_of))]
fn parse_count(word: &str, most: u32) -> Result<u32, WordsFault>
    ensures spelled { Spells result (count_of most word.now) }
    ensures some { IfOk result (λ count. 1 ≤ count) }
    ensures few { IfOk result (λ count. count ≤ most) }
{
    match line_text::number(word.as_bytes(), most as u64) {
        Some(count) => {
            if count < 1 {
                return Err(WordsFault::Usage);
            }
            Ok(count as u32)
        }
        None => Err(WordsFault::Usage),
    }
}

#[tactic(auto, unfolding(crate::specs::Words::k_find_of))]
fn parse_k_find(alloc: Global, words: &[String]) -> Result<Command, WordsFault>
    ensures spelled { Spells result (k_find_of words.now) }
    ensures few { IfOk result NamesFewFiles }
    ensures count { IfOk result CountsFew }
{
    let Some((word, rest)) = words.split_first() else {
        return Err(WordsFault::Usage);
    };
    let k = parse_count(word.as_str(), 100)?;
    let Asked { request, files } = parse_asked(alloc, rest)?;
    Ok(Command::KFind { k, request, files })
}

#[tactic(auto, unfolding(crate::specs::Words::examined_of))]
fn parse_examined(alloc: Global, words: &[String]) -> Result<Examined, WordsFault>
    ensures spelled { Spells result (examined_of words.now) }
    ensures few { IfOk result (λ examined. length examined.files ≤ 64) }
{
    let Some((answer, names)) = words.split_first() else {
        return Err(WordsFault::Usage);
    };
    if !has_bytes(answer) {
        return Err(WordsFault::Usage);
    }
    let files = parse_files(alloc, names)?;
    let answer = Name::new(alloc, answer.as_str())?;
    Ok(Examined { answer, files })
}

#[tactic(auto, unfolding(crate::specs::Words::check_of))]
fn parse_check(alloc: Global, words: &[String]) -> Result<Command, WordsFault>
    ensures spelled { Spells result (check_of words.now) }
    ensures few { IfOk result NamesFewFiles }
    ensures count { IfOk result CountsFew }
{
    let Examined { answer, files } = parse_examined(alloc, words)?;
    Ok(Command::Check { answer, files })
}

#[tactic(auto, unfolding(crate::specs::Words::replay_of))]
fn parse_replay(alloc: Global, words: &[String]) -> Result<Command, WordsFault>
    ensures spelled { Spells result (replay_of words.now) }
    ensures few { IfOk result NamesFewFiles }
    ensures count { IfOk result CountsFew }
{
    let Examined { answer, files } = parse_examined(alloc, words)?;
    Ok(Command::Replay { answer, files })
}

#[tactic(auto, unfolding(crate::specs::Words::survey_of))]
fn parse_survey(alloc: Global, names: &[String]) -> Result<Command, WordsFault>
    ensures spelled { Spells result (survey_of names.now) }
    ensures few { IfOk result NamesFewFiles }
    ensures count { IfOk result CountsFew }
{
    let files = parse_files(alloc, names)?;
    Ok(Command::Survey { files })
}

#[tactic(auto, unfolding(crate::specs::Words::drill_of))]
fn parse_drill(words: &[String]) -> Result<Command, WordsFault>
    ensures spelled { Spells result (drill_of words.now) }
    ensures few { IfOk result NamesFewFiles }
    ensures count { IfOk result CountsFew }
{
    let [word] = words else {
        return Err(WordsFault::Usage);
    };
    let levels = parse_count(word.as_str(), 4096)?;
    Ok(Command::Drill { levels })
}

/// The command that the words behind the program's name spell.
///
/// `find FROM LABEL TO LABEL FILE..`, `route` with the same words, `k-find K FROM LABEL TO LABEL FILE..`, `check ANSWER FILE..`,
/// `replay ANSWER FILE..`, `survey FILE..` and `drill N`, where FROM and TO are ids, LABEL is `any` or a decimal below 2^32 without
/// leading zeros, FILE stands 1 to 64 times, ANSWER and FILE are not empty, and K and N are such decimals, K from 1 to 100 and N from 1
/// to 4096. All other words are usage.
#[tactic(auto, unfolding(crate::specs::Words::command_of))]
pub fn parse_words(alloc: Global, words: &[String]) -> Result<Command, WordsFault>
    ensures spelled { Spells result (command_of words.now) }
    ensures few { IfOk result NamesFewFiles }
    ensures count { IfOk result CountsFew }
{
    let Some((word, rest)) = words.split_first() else {
        return Err(WordsFault::Usage);
    };
    match word.as_str() {
        "find" => parse_find(alloc, rest, true),
        "route" => parse_find(alloc, rest, false),
        "k-find" => parse_k_find(alloc, rest),
        "check" => parse_check(alloc, rest),
        "replay" => parse_replay(alloc, rest),
        "survey" => parse_survey(alloc, rest),
        "drill" => parse_drill(rest),
        _ => Err(WordsFault::Usage),
    }
}
