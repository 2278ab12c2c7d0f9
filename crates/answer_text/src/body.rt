// What one line says behind the heading of a document.
ghost use Rattle.std.specs.Prelude.{option_copied, suc};
ghost use Rattle.line_text.specs.Cursor.{Gives};
ghost use Rattle.device_rules.specs.Rules.{At, Start};
ghost use Rattle.domain_config.specs.Rules.{rules_end};
ghost use Rattle.domain_config.specs.Saying.{at_of};
ghost use Rattle.answer_text.specs.Reading.{end_step, hops_step, pots_step, rules_step, where_ended};
ghost use Rattle.answer_text.specs.Leading.{line_step};

use crate::fields::HopWords;
use crate::steps::{hop_line, pot_line};
use answer_spec::PotLine;
use domain_config::{Before, Said, rule_line};
use line_text::Refused;
use std::alloc::Global;

/// What a line says.
#[derive(Drop)]
pub(crate) enum BodyLine {
    Hop(HopWords),
    Rule(Said),
    Pot(PotLine),
    End,
}

fn end_said(line: &[u8]) -> Result<BodyLine, Refused>
    ensures { (at : At) → Gives (line_step at) result (end_step line.now) }
{
    if line != b"end".as_slice() {
        return Err(Refused::Misfit);
    }
    Ok(BodyLine::End)
}

pub(crate) fn pots_said(
    alloc: Global,
    last: Option<&PotLine>,
    line: &[u8],
) -> Result<BodyLine, Refused>
    ensures { (at : At) → Gives (line_step at) result (pots_step (option_copied last.entry) line.now) }
{
    match pot_line(alloc, last, line) {
        Ok(pot) => Ok(BodyLine::Pot(pot)),
        Err(Refused::Misfit) => end_said(line),
        Err(Refused::NoMemory) => Err(Refused::NoMemory),
    }
}

fn after_rules(alloc: Global, before: &Before, line: &[u8]) -> Result<BodyLine, Refused>
    ensures { Gives (line_step (at_of before.now)) result (where_ended (rules_end (at_of before.now)) (pots_step Rattle.std.specs.Prelude.None line.now)) }
{
    if !before.may_end() {
        return Err(Refused::Misfit);
    }
    pots_said(alloc, None, line)
}

pub(crate) fn rules_said(alloc: Global, before: &Before, line: &[u8]) -> Result<BodyLine, Refused>
    ensures { Gives (line_step (at_of before.now)) result (rules_step (at_of before.now) line.now) }
{
    match rule_line(alloc, before, line) {
        Ok(said) => Ok(BodyLine::Rule(said)),
        Err(Refused::Misfit) => after_rules(alloc, before, line),
        Err(Refused::NoMemory) => Err(Refused::NoMemory),
    }
}

/// What a line says behind the hop of this number; 0 stands for no hop.
pub(crate) fn hops_said(alloc: Global, last: u64, line: &[u8]) -> Result<BodyLine, Refused>
    ensures { Gives (line_step Start) result (hops_step (suc last) line.now) }
{
    match hop_line(alloc, last, line) {
        Ok(words) => Ok(BodyLine::Hop(words)),
        Err(Refused::Misfit) => rules_said(alloc, &Before::nothing(), line),
        Err(Refused::NoMemory) => Err(Refused::NoMemory),
    }
}
