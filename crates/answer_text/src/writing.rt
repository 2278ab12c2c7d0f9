ghost use Rattle.std.specs.Prelude.{◌≤◌, ◌∷◌, [], ◌++◌, OnOk, OnErr, map, codes};
ghost use Rattle.std.specs.Io.KnownBytes.{Appends};
ghost use Rattle.io_edges.specs.Counts.{Rose};
ghost use Rattle.io_edges.specs.Stores.{AppendsFront};
ghost use Rattle.line_text.specs.Lines.{text_of};
ghost use Rattle.answer_spec.specs.WellFormed.{IsWellFormed, AreHops};
ghost use Rattle.answer_text.specs.Spelling.{heading_lines, hop_line, hop_lines, pot_line, lines_of};

use crate::making::{
    make_end_line, make_hop_line, make_outcome_line, make_pot_line, make_request_line,
    make_version_line,
};
use answer_spec::{Answer, PotLine};
use circuit_spec::Hop;
use domain_config::write_rules;
use io_edges::{Failed, Sink};
use line_text::write_line;

fn write_heading<K: Sink>(answer: &Answer, out: &mut K) -> Result<(), Failed>
    ensures ok { OnOk result (Appends (K.written out.old) (K.written out.new) (text_of (heading_lines answer.now))) }
    ensures faults { K.faults out.old ≤ K.faults out.new }
    ensures failed { OnErr result (Rose (K.faults out.old) (K.faults out.new)) }
    ensures front { OnErr result (AppendsFront (K.written out.old) (K.written out.new) (text_of (heading_lines answer.now))) }
{
    write_line(&make_version_line(), out)?;
    write_line(&make_request_line(&answer.request), out)?;
    write_line(&make_outcome_line(answer.outcome), out)?;
    Ok(())
}

fn write_hop<K: Sink>(number: u64, hop: &Hop, flag: Option<u64>, out: &mut K) -> Result<(), Failed>
    ensures ok { OnOk result (Appends (K.written out.old) (K.written out.new) (hop_line number hop.now flag ++ 10 ∷ [])) }
    ensures faults { K.faults out.old ≤ K.faults out.new }
    ensures failed { OnErr result (Rose (K.faults out.old) (K.faults out.new)) }
    ensures front { AppendsFront (K.written out.old) (K.written out.new) (hop_line number hop.now flag ++ 10 ∷ []) }
{
    write_line(&make_hop_line(number, hop, flag), out)
}

fn write_hops<K: Sink>(hops: &[Hop], flags: &[Option<u64>], out: &mut K) -> Result<(), Failed>
    requires { AreHops 1 hops.now flags.now }
    ensures ok { OnOk result (Appends (K.written out.old) (K.written out.new) (text_of (hop_lines 1 hops.now flags.now))) }
    ensures faults { K.faults out.old ≤ K.faults out.new }
    ensures failed { OnErr result (Rose (K.faults out.old) (K.faults out.new)) }
    ensures front { OnErr result (AppendsFront (K.written out.old) (K.written out.new) (text_of (hop_lines 1 hops.now flags.now))) }
{
    for (at, hop) in hops.iter().enumerate() {
        write_hop(at as u64 + 1, hop, flags[at], out)?;
    }
    Ok(())
}

fn write_pot<K: Sink>(pot: &PotLine, out: &mut K) -> Result<(), Failed>
    ensures ok { OnOk result (Appends (K.written out.old) (K.written out.new) (pot_line pot.now ++ 10 ∷ [])) }
    ensures faults { K.faults out.old ≤ K.faults out.new }
    ensures failed { OnErr result (Rose (K.faults out.old) (K.faults out.new)) }
    ensures front { AppendsFront (K.written out.old) (K.written out.new) (pot_line pot.now ++ 10 ∷ []) }
{
    write_line(&make_pot_line(pot), out)
}

fn write_pots<K: Sink>(pots: &[PotLine], out: &mut K) -> Result<(), Failed>
    ensures ok { OnOk result (Appends (K.written out.old) (K.written out.new) (text_of (map pot_line pots.now))) }
    ensures faults { K.faults out.old ≤ K.faults out.new }
    ensures failed { OnErr result (Rose (K.faults out.old) (K.faults out.new)) }
    ensures front { OnErr result (AppendsFront (K.written out.old) (K.written out.new) (text_of (map pot_line pots.now))) }
{
    for pot in pots {
        write_pot(pot, out)?;
    }
    Ok(())
}

fn write_end<K: Sink>(out: &mut K) -> Result<(), Failed>
    ensures ok { OnOk result (Appends (K.written out.old) (K.written out.new) (codes "end" ++ 10 ∷ [])) }
    ensures faults { K.faults out.old ≤ K.faults out.new }
    ensures failed { OnErr result (Rose (K.faults out.old) (K.faults out.new)) }
    ensures front { AppendsFront (K.written out.old) (K.written out.new) (codes "end" ++ 10 ∷ []) }
{
    write_line(&make_end_line(), out)
}

/// Writes the document of an answer, a line by each call of `write_all`. It takes no memory.
pub fn write<K: Sink>(answer: &Answer, out: &mut K) -> Result<(), Failed>
    requires { IsWellFormed answer.now }
    ensures ok { OnOk result (Appends (K.written out.old) (K.written out.new) (text_of (lines_of answer.now))) }
    ensures faults { K.faults out.old ≤ K.faults out.new }
    ensures failed { OnErr result (Rose (K.faults out.old) (K.faults out.new)) }
    ensures front { OnErr result (AppendsFront (K.written out.old) (K.written out.new) (text_of (lines_of answer.now))) }
{
    write_heading(answer, out)?;
    write_hops(answer.hops.as_slice(), answer.flags.as_slice(), out)?;
    write_rules(&answer.rules, out)?;
    write_pots(answer.potentials.as_slice(), out)?;
    write_end(out)?;
    Ok(())
}
