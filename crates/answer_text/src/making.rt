// Each line of a document, made in a fixed buffer.
ghost use Rattle.std.specs.Prelude.{◌≡◌, ◌+◌, ◌≤◌, [], ◌∷◌, ◌++◌, length, decimal};
ghost use Rattle.line_text.specs.Fields.{spaced};
ghost use Rattle.line_text.specs.Writing.{spaced_each};
ghost use Rattle.answer_text.specs.Spelling.{wish, kind_word, weight_words, again_words, request_line, outcome_line, hop_line, pot_words, pot_line};

use answer_spec::{PotLine, RootName};
use circuit_spec::{Hop, HopKind, Outcome, PlaceName, Request};
use io_edges::Line;
use line_text::{push_id, push_number, push_place, push_word};
use ml_base::{Weight, Wish};

fn push_wish(line: &mut Line, wish: Wish)
    requires { length line.old + 21 ≤ 1280 }
    ensures spelled { line.new ≡ line.old ++ 32 ∷ Rattle.answer_text.specs.Spelling.wish wish }
    ensures long { length line.new ≤ length line.old + 21 }
{
    match wish {
        Wish::Any => push_word(line, b"any"),
        Wish::Value(label) => push_number(line, label as u64),
    }
}

fn push_kind(line: &mut Line, kind: HopKind)
    requires { length line.old + 8 ≤ 1280 }
    ensures spelled { line.new ≡ line.old ++ 32 ∷ kind_word kind }
    ensures long { length line.new ≤ length line.old + 8 }
{
    match kind {
        HopKind::Link => push_word(line, b"link"),
        HopKind::Cross => push_word(line, b"cross"),
        HopKind::Adapt => push_word(line, b"adapt"),
        HopKind::Deadapt => push_word(line, b"deadapt"),
        HopKind::Convert => push_word(line, b"convert"),
    }
}

fn push_flag(line: &mut Line, flag: Option<u64>)
    requires { length line.old + 27 ≤ 1280 }
    ensures spelled { line.new ≡ line.old ++ spaced_each (again_words flag) }
    ensures long { length line.new ≤ length line.old + 27 }
{
    match flag {
        Some(place) => {
            push_word(line, b"again");
            push_number(line, place);
        }
        None => {}
    }
}

/// Puts the words of a weight at the end of the line, each behind a space.
pub fn push_weight(line: &mut Line, weight: Weight)
    requires { length line.old + 42 ≤ 1280 }
    ensures spelled { line.new ≡ line.old ++ spaced_each (weight_words weight) }
    ensures long { length line.new ≤ length line.old + 42 }
{
    match weight {
        Weight::Known { cost, hops } => {
            push_number(line, cost);
            push_number(line, hops);
        }
        Weight::Past => line.push(b" past -"),
    }
}

/// The line of a request, with its newline.
pub fn make_request_line(request: &Request) -> Line
    ensures { result ≡ request_line request.now ++ 10 ∷ [] }
{
    let mut line = Line::new();
    line.push(b"request");
    push_id(&mut line, &request.from);
    push_wish(&mut line, request.from_wish);
    push_id(&mut line, &request.to);
    push_wish(&mut line, request.to_wish);
    line.push(b"\n");
    line
}

/// A line of these first words, a cost and a number of hops.
pub fn make_known_line(words: &[u8], cost: u64, hops: u64) -> Line
    requires { length words.now ≤ 20 }
    ensures { result ≡ words.now ++ (32 ∷ (decimal cost ++ 32 ∷ (decimal hops ++ 10 ∷ []))) }
{
    let mut line = Line::new();
    line.push(words);
    push_number(&mut line, cost);
    push_number(&mut line, hops);
    line.push(b"\n");
    line
}

/// A line of this text.
pub fn make_text_line(text: &[u8]) -> Line
    requires { length text.now ≤ 20 }
    ensures { result ≡ text.now ++ 10 ∷ [] }
{
    let mut line = Line::new();
    line.push(text);
    line.push(b"\n");
    line
}

pub(crate) fn make_outcome_line(outcome: Outcome) -> Line
    ensures { result ≡ outcome_line outcome ++ 10 ∷ [] }
{
    match outcome {
        Outcome::Found { cost, hops } => make_known_line(b"outcome found", cost, hops),
        Outcome::NoWalk => make_text_line(b"outcome none"),
        Outcome::Past => make_text_line(b"outcome past"),
        Outcome::Long { cost, hops } => make_known_line(b"outcome long", cost, hops),
    }
}

/// The line of a hop of this number, and of its flag where it has one.
pub fn make_hop_line(number: u64, hop: &Hop, flag: Option<u64>) -> Line
    ensures { result ≡ hop_line number hop.now flag ++ 10 ∷ [] }
{
    let mut line = Line::new();
    line.push(b"hop");
    push_number(&mut line, number);
    push_kind(&mut line, hop.kind);
    push_id(&mut line, &hop.element);
    push_place(&mut line, &hop.from, hop.from_label);
    push_place(&mut line, &hop.to, hop.to_label);
    push_id(&mut line, &hop.domain);
    push_flag(&mut line, flag);
    line.push(b"\n");
    line
}

fn make_top_line(place: &PlaceName, weight: Weight) -> Line
    ensures { result ≡ spaced (pot_words RootName.Request place.now weight) ++ 10 ∷ [] }
{
    let mut line = Line::new();
    line.push(b"top");
    push_place(&mut line, &place.class, place.label);
    push_weight(&mut line, weight);
    line.push(b"\n");
    line
}

fn make_seg_line(root: &PlaceName, place: &PlaceName, weight: Weight) -> Line
    ensures { result ≡ spaced (pot_words (RootName.Entry root.now) place.now weight) ++ 10 ∷ [] }
{
    let mut line = Line::new();
    line.push(b"seg");
    push_place(&mut line, &root.class, root.label);
    push_place(&mut line, &place.class, place.label);
    push_weight(&mut line, weight);
    line.push(b"\n");
    line
}

pub(crate) fn make_pot_line(pot: &PotLine) -> Line
    ensures { result ≡ pot_line pot.now ++ 10 ∷ [] }
{
    match &pot.root {
        RootName::Request => make_top_line(&pot.place, pot.weight),
        RootName::Entry(root) => make_seg_line(root, &pot.place, pot.weight),
    }
}

pub(crate) fn make_version_line() -> Line
    ensures { result ≡ Rattle.std.specs.Prelude.codes "circuit 1" ++ 10 ∷ [] }
{
    make_text_line(b"circuit 1")
}

/// The last line.
pub fn make_end_line() -> Line
    ensures { result ≡ Rattle.std.specs.Prelude.codes "end" ++ 10 ∷ [] }
{
    make_text_line(b"end")
}
