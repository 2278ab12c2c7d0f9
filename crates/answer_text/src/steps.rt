// What one line of a document says.
ghost use Rattle.std.specs.Prelude.{◌≡◌, codes, option_copied, option_map, Some, suc, nat_eq};
ghost use Rattle.line_text.specs.Fields.{words_in, kept_if};
ghost use Rattle.line_text.specs.Cursor.{parts_of, Gives};
ghost use Rattle.answer_text.specs.Reading.{behind, top_of, seg_of, pot_of, follow_pot, Pots, add_pot, top_words_of, seg_words_of, hop_words_of, request_words_of, follow_hop, outcome_step, version_step, Version, same_answer};
ghost use Rattle.answer_text.specs.Views.{hop_view, request_view, hop_added, outcome_added, outcome_rest};

use crate::fields::{HopWords, hop_words, numbers, request_words, seg_words, top_words};
use answer_spec::{PotLine, RootName, follows};
use circuit_spec::{Outcome, Request};
use line_text::{Refused, cut, next_word, take_end};
use std::alloc::Global;

pub(crate) fn request_line(alloc: Global, line: &[u8]) -> Result<Request, Refused>
    ensures { Gives request_view result (behind (codes "request") request_words_of (words_in line.now)) }
{
    let (key, words) = cut(line, b' ');
    if key != b"request".as_slice() {
        return Err(Refused::Misfit);
    }
    request_words(alloc, words)
}

fn outcome_words(rest: Option<&[u8]>) -> Result<Outcome, Refused>
    ensures { Gives outcome_added result (outcome_rest (parts_of 32 (option_copied rest.entry))) }
{
    let Some((word, rest)) = next_word(rest) else {
        return Err(Refused::Misfit);
    };
    if word == b"found".as_slice() {
        let (cost, hops) = numbers(rest)?;
        return Ok(Outcome::Found { cost, hops });
    }
    if word == b"none".as_slice() {
        take_end(rest)?;
        return Ok(Outcome::NoWalk);
    }
    if word == b"past".as_slice() {
        take_end(rest)?;
        return Ok(Outcome::Past);
    }
    if word == b"long".as_slice() {
        let (cost, hops) = numbers(rest)?;
        return Ok(Outcome::Long { cost, hops });
    }
    Err(Refused::Misfit)
}

/// The outcome that a line says.
pub(crate) fn outcome_line(line: &[u8]) -> Result<Outcome, Refused>
    ensures { Gives outcome_added result (outcome_step line.now) }
{
    let (key, words) = cut(line, b' ');
    if key != b"outcome".as_slice() {
        return Err(Refused::Misfit);
    }
    outcome_words(words)
}

/// Whether a line is the first one of a document.
pub(crate) fn is_version(line: &[u8]) -> bool
    ensures { version_step line.now ≡ kept_if result (Version, same_answer) }
{
    line == b"circuit 1".as_slice()
}

fn hop_of_line(alloc: Global, line: &[u8]) -> Result<HopWords, Refused>
    ensures { Gives hop_view result (behind (codes "hop") hop_words_of (words_in line.now)) }
{
    let (key, words) = cut(line, b' ');
    if key != b"hop".as_slice() {
        return Err(Refused::Misfit);
    }
    hop_words(alloc, words)
}

fn is_next(last: u64, number: u64) -> bool
    ensures { result ≡ nat_eq number (suc last) }
{
    last < number && number - last == 1
}

/// The hop that a line says, where it is the next one behind the hop of this number.
pub(crate) fn hop_line(alloc: Global, last: u64, line: &[u8]) -> Result<HopWords, Refused>
    ensures { Gives (λ x. hop_added x.number x) result (follow_hop (suc last) (behind (codes "hop") hop_words_of (words_in line.now))) }
{
    let words = hop_of_line(alloc, line)?;
    if !is_next(last, words.number) {
        return Err(Refused::Misfit);
    }
    Ok(words)
}

fn top_of_line(alloc: Global, words: Option<&[u8]>) -> Result<PotLine, Refused>
    ensures { Gives (λ p. p) result (option_map top_of (top_words_of (parts_of 32 (option_copied words.entry)))) }
{
    let (place, weight) = top_words(alloc, words)?;
    Ok(PotLine {
        root: RootName::Request,
        place,
        weight,
    })
}

fn seg_of_line(alloc: Global, words: Option<&[u8]>) -> Result<PotLine, Refused>
    ensures { Gives (λ p. p) result (option_map seg_of (seg_words_of (parts_of 32 (option_copied words.entry)))) }
{
    let (root, (place, weight)) = seg_words(alloc, words)?;
    Ok(PotLine {
        root: RootName::Entry(root),
        place,
        weight,
    })
}

fn pot_of_line(alloc: Global, line: &[u8]) -> Result<PotLine, Refused>
    ensures { Gives (λ p. p) result (pot_of (words_in line.now)) }
{
    let (key, words) = cut(line, b' ');
    if key == b"top".as_slice() {
        return top_of_line(alloc, words);
    }
    if key == b"seg".as_slice() {
        return seg_of_line(alloc, words);
    }
    Err(Refused::Misfit)
}

/// The potential that a line says, where it may stand behind the last one.
pub(crate) fn pot_line(
    alloc: Global,
    last: Option<&PotLine>,
    line: &[u8],
) -> Result<PotLine, Refused>
    ensures { Gives (λ p. (Pots (Some p), add_pot p)) result (follow_pot (option_copied last.entry) (pot_of (words_in line.now))) }
{
    let pot = pot_of_line(alloc, line)?;
    if !follows(last, &pot) {
        return Err(Refused::Misfit);
    }
    Ok(pot)
}
