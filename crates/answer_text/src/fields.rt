// The words of a document's lines.
ghost use Rattle.std.specs.Prelude.{◌≡◌, ◌^◌, codes, option_copied};
ghost use Rattle.line_text.specs.Fields.{number_of, entry_of, and_of, done_of, done};
ghost use Rattle.line_text.specs.Cursor.{parts_of, Gives};
ghost use Rattle.line_text.specs.Taking.{take_word};
ghost use Rattle.answer_text.specs.Reading.{behind, kinds, numbers_of, past_of, weight_of, request_words_of, hop_words_of, flag_of, top_words_of, seg_words_of};
ghost use Rattle.answer_text.specs.Views.{numbers_view, one_view, end_view, to_view, from_view, element_view, hop_view, top_view, seg_view, half_view, request_view, end_words_of, to_words_of, from_words_of, element_words_of, half_words_of};

use circuit_spec::{Hop, HopKind, PlaceName, Request};
use line_text::{Refused, next_word, take_end, take_id, take_number, take_tag, take_wish};
use ml_base::{Id, Weight, Wish};
use std::alloc::Global;

fn read_kind(word: &[u8]) -> Option<HopKind>
    ensures { result ≡ entry_of kinds word.now }
{
    if word == b"link".as_slice() {
        return Some(HopKind::Link);
    }
    if word == b"cross".as_slice() {
        return Some(HopKind::Cross);
    }
    if word == b"adapt".as_slice() {
        return Some(HopKind::Adapt);
    }
    if word == b"deadapt".as_slice() {
        return Some(HopKind::Deadapt);
    }
    if word == b"convert".as_slice() {
        return Some(HopKind::Convert);
    }
    None
}

fn take_kind(rest: Option<&[u8]>) -> Result<(HopKind, Option<&[u8]>), Refused>
    ensures { Gives (λ x. (x.0, parts_of 32 (option_copied x.1))) result (take_word (entry_of kinds) (parts_of 32 (option_copied rest.entry))) }
{
    let Some((word, rest)) = next_word(rest) else {
        return Err(Refused::Misfit);
    };
    match read_kind(word) {
        Some(kind) => Ok((kind, rest)),
        None => Err(Refused::Misfit),
    }
}

// A cost, and a number of hops of at most 2^40.
#[tactic(auto, using(line_text::proofs::Taking::fails_first, line_text::proofs::Taking::fails_later, line_text::proofs::Taking::and_both))]
pub(crate) fn numbers(rest: Option<&[u8]>) -> Result<(u64, u64), Refused>
    ensures { Gives numbers_view result (numbers_of (parts_of 32 (option_copied rest.entry))) }
{
    let (cost, rest) = take_number(rest, u64::MAX)?;
    let (hops, rest) = take_number(rest, 1_099_511_627_776)?;
    take_end(rest)?;
    Ok((cost, hops))
}

fn dash(rest: Option<&[u8]>) -> Result<(), Refused>
    ensures { Gives (λ x. done) result (behind (codes "-") done_of (parts_of 32 (option_copied rest.entry))) }
{
    let Some((word, rest)) = next_word(rest) else {
        return Err(Refused::Misfit);
    };
    if word != b"-".as_slice() {
        return Err(Refused::Misfit);
    }
    take_end(rest)
}

fn past(rest: Option<&[u8]>) -> Result<(), Refused>
    ensures { Gives (λ x. done) result (past_of (parts_of 32 (option_copied rest.entry))) }
{
    let Some((word, rest)) = next_word(rest) else {
        return Err(Refused::Misfit);
    };
    if word != b"past".as_slice() {
        return Err(Refused::Misfit);
    }
    dash(rest)
}

fn read_weight(rest: Option<&[u8]>) -> Result<Weight, Refused>
    ensures { Gives (λ w. w) result (weight_of (parts_of 32 (option_copied rest.entry))) }
{
    match numbers(rest) {
        Ok((cost, hops)) => Ok(Weight::Known { cost, hops }),
        Err(Refused::Misfit) => match past(rest) {
            Ok(()) => Ok(Weight::Past),
            Err(refused) => Err(refused),
        },
        Err(Refused::NoMemory) => Err(Refused::NoMemory),
    }
}

#[tactic(auto, using(line_text::proofs::Taking::fails_first, line_text::proofs::Taking::fails_later, line_text::proofs::Taking::and_both))]
fn one_number(rest: Option<&[u8]>) -> Result<u64, Refused>
    ensures { Gives one_view result (and_of (number_of (2 ^ 64)) done_of (parts_of 32 (option_copied rest.entry))) }
{
    let (place, rest) = take_number(rest, u64::MAX)?;
    take_end(rest)?;
    Ok(place)
}

fn again(rest: Option<&[u8]>) -> Result<u64, Refused>
    ensures { Gives one_view result (behind (codes "again") (and_of (number_of (2 ^ 64)) done_of) (parts_of 32 (option_copied rest.entry))) }
{
    let Some((word, rest)) = next_word(rest) else {
        return Err(Refused::Misfit);
    };
    if word != b"again".as_slice() {
        return Err(Refused::Misfit);
    }
    one_number(rest)
}

fn read_flag(rest: Option<&[u8]>) -> Result<Option<u64>, Refused>
    ensures { Gives (λ f. f) result (flag_of (parts_of 32 (option_copied rest.entry))) }
{
    match take_end(rest) {
        Ok(()) => Ok(None),
        Err(Refused::Misfit) => match again(rest) {
            Ok(place) => Ok(Some(place)),
            Err(refused) => Err(refused),
        },
        Err(Refused::NoMemory) => Err(Refused::NoMemory),
    }
}

#[tactic(auto, using(line_text::proofs::Taking::fails_first, line_text::proofs::Taking::fails_later, line_text::proofs::Taking::and_both))]
fn end_words(alloc: Global, rest: Option<&[u8]>) -> Result<(Id, Option<u64>), Refused>
    ensures { Gives end_view result (end_words_of (parts_of 32 (option_copied rest.entry))) }
{
    let (domain, rest) = take_id(alloc, rest)?;
    let flag = read_flag(rest)?;
    Ok((domain, flag))
}

#[tactic(auto, using(line_text::proofs::Taking::fails_first, line_text::proofs::Taking::fails_later, line_text::proofs::Taking::and_both))]
fn to_words(alloc: Global, rest: Option<&[u8]>) -> Result<(PlaceName, (Id, Option<u64>)), Refused>
    ensures { Gives to_view result (to_words_of (parts_of 32 (option_copied rest.entry))) }
{
    let (class, rest) = take_id(alloc, rest)?;
    let (label, rest) = take_tag(rest)?;
    let end = end_words(alloc, rest)?;
    Ok((PlaceName { class, label }, end))
}

#[tactic(auto, using(line_text::proofs::Taking::fails_first, line_text::proofs::Taking::fails_later, line_text::proofs::Taking::and_both))]
pub(crate) fn top_words(alloc: Global, rest: Option<&[u8]>) -> Result<(PlaceName, Weight), Refused>
    ensures { Gives top_view result (top_words_of (parts_of 32 (option_copied rest.entry))) }
{
    let (class, rest) = take_id(alloc, rest)?;
    let (label, rest) = take_tag(rest)?;
    let weight = read_weight(rest)?;
    Ok((PlaceName { class, label }, weight))
}

#[tactic(auto, using(line_text::proofs::Taking::fails_first, line_text::proofs::Taking::fails_later, line_text::proofs::Taking::and_both))]
fn from_words(
    alloc: Global,
    rest: Option<&[u8]>,
) -> Result<(PlaceName, (PlaceName, (Id, Option<u64>))), Refused>
    ensures { Gives from_view result (from_words_of (parts_of 32 (option_copied rest.entry))) }
{
    let (class, rest) = take_id(alloc, rest)?;
    let (label, rest) = take_tag(rest)?;
    let to = to_words(alloc, rest)?;
    Ok((PlaceName { class, label }, to))
}

#[tactic(auto, using(line_text::proofs::Taking::fails_first, line_text::proofs::Taking::fails_later, line_text::proofs::Taking::and_both))]
fn element_words(
    alloc: Global,
    rest: Option<&[u8]>,
) -> Result<(Id, (PlaceName, (PlaceName, (Id, Option<u64>)))), Refused>
    ensures { Gives element_view result (element_words_of (parts_of 32 (option_copied rest.entry))) }
{
    let (element, rest) = take_id(alloc, rest)?;
    let from = from_words(alloc, rest)?;
    Ok((element, from))
}

/// The words of a hop behind the first one: its number, the hop and its flag.
#[derive(Drop)]
pub(crate) struct HopWords {
    pub number: u64,
    pub hop: Hop,
    pub flag: Option<u64>,
}

#[tactic(auto, using(line_text::proofs::Taking::fails_first, line_text::proofs::Taking::fails_later, line_text::proofs::Taking::and_both))]
pub(crate) fn hop_words(alloc: Global, rest: Option<&[u8]>) -> Result<HopWords, Refused>
    ensures { Gives hop_view result (hop_words_of (parts_of 32 (option_copied rest.entry))) }
{
    let (number, rest) = take_number(rest, u64::MAX)?;
    let (kind, rest) = take_kind(rest)?;
    let (element, (from, (to, (domain, flag)))) = element_words(alloc, rest)?;
    Ok(HopWords {
        number,
        hop: Hop {
            kind,
            element,
            from: from.class,
            from_label: from.label,
            to: to.class,
            to_label: to.label,
            domain,
        },
        flag,
    })
}

#[tactic(auto, using(line_text::proofs::Taking::fails_first, line_text::proofs::Taking::fails_later, line_text::proofs::Taking::and_both))]
pub(crate) fn seg_words(
    alloc: Global,
    rest: Option<&[u8]>,
) -> Result<(PlaceName, (PlaceName, Weight)), Refused>
    ensures { Gives seg_view result (seg_words_of (parts_of 32 (option_copied rest.entry))) }
{
    let (class, rest) = take_id(alloc, rest)?;
    let (label, rest) = take_tag(rest)?;
    let top = top_words(alloc, rest)?;
    Ok((PlaceName { class, label }, top))
}

#[tactic(auto, using(line_text::proofs::Taking::fails_first, line_text::proofs::Taking::fails_later, line_text::proofs::Taking::and_both))]
fn end_of_request(alloc: Global, rest: Option<&[u8]>) -> Result<(Id, Wish), Refused>
    ensures { Gives half_view result (half_words_of (parts_of 32 (option_copied rest.entry))) }
{
    let (to, rest) = take_id(alloc, rest)?;
    let (wish, rest) = take_wish(rest)?;
    take_end(rest)?;
    Ok((to, wish))
}

#[tactic(auto, using(line_text::proofs::Taking::fails_first, line_text::proofs::Taking::fails_later, line_text::proofs::Taking::and_both))]
pub(crate) fn request_words(alloc: Global, rest: Option<&[u8]>) -> Result<Request, Refused>
    ensures { Gives request_view result (request_words_of (parts_of 32 (option_copied rest.entry))) }
{
    let (from, rest) = take_id(alloc, rest)?;
    let (from_wish, rest) = take_wish(rest)?;
    let (to, to_wish) = end_of_request(alloc, rest)?;
    Ok(Request {
        from,
        from_wish,
        to,
        to_wish,
    })
}
