ghost use Rattle.std.specs.Prelude.{◌≤◌, ◌∷◌, [], ◌++◌, OnOk, OnErr, None, codes};
ghost use Rattle.std.specs.Io.KnownBytes.{Appends};
ghost use Rattle.io_edges.specs.Counts.{Rose};
ghost use Rattle.io_edges.specs.Stores.{AppendsFront};
ghost use Rattle.line_text.specs.Lines.{text_of};
ghost use Rattle.answer_text.specs.Spelling.{hop_line, request_line};
ghost use Rattle.k_text.specs.Listing.{more_line, walk_line, walk_lines, walks_lines, unflagged_lines, k_lines_of};

use crate::making::{make_more_line, make_version_line, make_walk_line};
use answer_text::{make_end_line, make_hop_line, make_request_line};
use circuit_spec::{Hop, Request};
use io_edges::{Failed, Line, Sink};
use k_answers::{KAnswer, KHops};
use line_text::write_line;
use ml_base::{KEnd, Weight};

fn write_two<K: Sink>(first: &Line, second: &Line, out: &mut K) -> Result<(), Failed>
    ensures ok { OnOk result (Appends (K.written out.old) (K.written out.new) (first.now ++ second.now)) }
    ensures faults { K.faults out.old ≤ K.faults out.new }
    ensures failed { OnErr result (Rose (K.faults out.old) (K.faults out.new)) }
    ensures front { OnErr result (AppendsFront (K.written out.old) (K.written out.new) (first.now ++ second.now)) }
{
    write_line(first, out)?;
    write_line(second, out)?;
    Ok(())
}

fn write_heading<K: Sink>(request: &Request, out: &mut K) -> Result<(), Failed>
    ensures ok { OnOk result (Appends (K.written out.old) (K.written out.new) ((codes "circuits 1" ++ 10 ∷ []) ++ (request_line request.now ++ 10 ∷ []))) }
    ensures faults { K.faults out.old ≤ K.faults out.new }
    ensures failed { OnErr result (Rose (K.faults out.old) (K.faults out.new)) }
    ensures front { OnErr result (AppendsFront (K.written out.old) (K.written out.new) ((codes "circuits 1" ++ 10 ∷ []) ++ (request_line request.now ++ 10 ∷ []))) }
{
    write_two(&make_version_line(), &make_request_line(request), out)
}

fn write_hop<K: Sink>(number: u64, hop: &Hop, out: &mut K) -> Result<(), Failed>
    ensures ok { OnOk result (Appends (K.written out.old) (K.written out.new) (hop_line number hop.now None ++ 10 ∷ [])) }
    ensures faults { K.faults out.old ≤ K.faults out.new }
    ensures failed { OnErr result (Rose (K.faults out.old) (K.faults out.new)) }
    ensures front { AppendsFront (K.written out.old) (K.written out.new) (hop_line number hop.now None ++ 10 ∷ []) }
{
    write_line(&make_hop_line(number, hop, None), out)
}

fn write_hops<K: Sink>(hops: &[Hop], out: &mut K) -> Result<(), Failed>
    ensures ok { OnOk result (Appends (K.written out.old) (K.written out.new) (text_of (unflagged_lines 1 hops.now))) }
    ensures faults { K.faults out.old ≤ K.faults out.new }
    ensures failed { OnErr result (Rose (K.faults out.old) (K.faults out.new)) }
    ensures front { OnErr result (AppendsFront (K.written out.old) (K.written out.new) (text_of (unflagged_lines 1 hops.now))) }
{
    for (at, hop) in hops.iter().enumerate() {
        write_hop(at as u64 + 1, hop, out)?;
    }
    Ok(())
}

fn write_first<K: Sink>(number: u64, weight: Weight, out: &mut K) -> Result<(), Failed>
    ensures ok { OnOk result (Appends (K.written out.old) (K.written out.new) (walk_line number weight ++ 10 ∷ [])) }
    ensures faults { K.faults out.old ≤ K.faults out.new }
    ensures failed { OnErr result (Rose (K.faults out.old) (K.faults out.new)) }
    ensures front { AppendsFront (K.written out.old) (K.written out.new) (walk_line number weight ++ 10 ∷ []) }
{
    write_line(&make_walk_line(number, weight), out)
}

fn write_walk<K: Sink>(number: u64, walk: &KHops, out: &mut K) -> Result<(), Failed>
    ensures ok { OnOk result (Appends (K.written out.old) (K.written out.new) (text_of (walk_lines number walk.now))) }
    ensures faults { K.faults out.old ≤ K.faults out.new }
    ensures failed { OnErr result (Rose (K.faults out.old) (K.faults out.new)) }
    ensures front { OnErr result (AppendsFront (K.written out.old) (K.written out.new) (text_of (walk_lines number walk.now))) }
{
    write_first(number, walk.weight, out)?;
    write_hops(walk.hops.as_slice(), out)?;
    Ok(())
}

fn write_walks<K: Sink>(walks: &[KHops], out: &mut K) -> Result<(), Failed>
    ensures ok { OnOk result (Appends (K.written out.old) (K.written out.new) (text_of (walks_lines 1 walks.now))) }
    ensures faults { K.faults out.old ≤ K.faults out.new }
    ensures failed { OnErr result (Rose (K.faults out.old) (K.faults out.new)) }
    ensures front { OnErr result (AppendsFront (K.written out.old) (K.written out.new) (text_of (walks_lines 1 walks.now))) }
{
    for (at, walk) in walks.iter().enumerate() {
        write_walk(at as u64 + 1, walk, out)?;
    }
    Ok(())
}

fn write_end<K: Sink>(end: KEnd, out: &mut K) -> Result<(), Failed>
    ensures ok { OnOk result (Appends (K.written out.old) (K.written out.new) ((more_line end ++ 10 ∷ []) ++ (codes "end" ++ 10 ∷ []))) }
    ensures faults { K.faults out.old ≤ K.faults out.new }
    ensures failed { OnErr result (Rose (K.faults out.old) (K.faults out.new)) }
    ensures front { OnErr result (AppendsFront (K.written out.old) (K.written out.new) ((more_line end ++ 10 ∷ []) ++ (codes "end" ++ 10 ∷ []))) }
{
    write_two(&make_more_line(end), &make_end_line(), out)
}

/// Writes the text of a list, a line by each call of `write_all`. It takes no memory.
pub fn k_write<K: Sink>(answer: &KAnswer, out: &mut K) -> Result<(), Failed>
    ensures ok { OnOk result (Appends (K.written out.old) (K.written out.new) (text_of (k_lines_of answer.now))) }
    ensures faults { K.faults out.old ≤ K.faults out.new }
    ensures failed { OnErr result (Rose (K.faults out.old) (K.faults out.new)) }
    ensures front { OnErr result (AppendsFront (K.written out.old) (K.written out.new) (text_of (k_lines_of answer.now))) }
{
    write_heading(&answer.request, out)?;
    write_walks(answer.walks.as_slice(), out)?;
    write_end(answer.end, out)?;
    Ok(())
}
