ghost use Rattle.std.specs.Prelude.{◌≡◌, [], ◌+◌, ◌<◌, IfOk, IfErr};
ghost use Rattle.line_text.specs.Fields.{kept_if};
ghost use Rattle.line_text.specs.Lines.{text_of, adding, closing};
ghost use Rattle.device_rules.specs.Rules.{Start, AreLaidOut};
ghost use Rattle.domain_config.specs.Rules.{rule_lines, rule_step, rules_end};
ghost use Rattle.domain_config.specs.Layout.{rules_in};
ghost use Rattle.domain_config.specs.Saying.{NamesFirstMisfit, at_of, TakesBy, TakesAt, AnswersAs, behind_rules};

use crate::fault::RuleFault;
use crate::steps::{Before, Said, rule_line};
use device_rules::RuleList;
use line_text::{Refused, next_line};
use ml_base::Items;
use std::alloc::Global;

/// Rules that are read line by line.
#[derive(Drop)]
pub struct RuleReader {
    pub before: Before,
    pub rules: RuleList,
}

impl RuleReader {
    pub fn new(alloc: Global) -> RuleReader
        ensures before { at_of result.before ≡ Start }
        ensures rules { result.rules ≡ [] }
    {
        RuleReader {
            before: Before::nothing(),
            rules: Items::new(alloc),
        }
    }

    /// Takes the next line. After a refusal the reader is of no use.
    pub fn take(&mut self, alloc: Global, line: &[u8]) -> Result<(), Refused>
        ensures { TakesBy self.old self.new result (rule_step (at_of self.old.before) line.now) }
    {
        match rule_line(alloc, &self.before, line)? {
            Said::Domain(domain) => {
                self.before = Before {
                    domain: Some(domain),
                    last: 0,
                };
                Ok(())
            }
            Said::Rule(rule) => {
                self.before.last = rule.number;
                match self.rules.push(rule) {
                    Ok(()) => Ok(()),
                    Err(_) => Err(Refused::NoMemory),
                }
            }
        }
    }

    /// Whether the layout may end here.
    pub fn may_end(&self) -> bool
        ensures { rules_end (at_of self.now.before) ≡ kept_if result [] }
    {
        self.before.may_end()
    }
}

fn take_line(
    reader: &mut RuleReader,
    alloc: Global,
    line: &[u8],
    number: u64,
) -> Result<(), RuleFault>
    ensures { TakesAt number reader.old reader.new result (rule_step (at_of reader.old.before) line.now) }
{
    match reader.take(alloc, line) {
        Ok(()) => Ok(()),
        Err(Refused::Misfit) => Err(RuleFault::Line { line: number }),
        Err(Refused::NoMemory) => Err(RuleFault::NoMemory),
    }
}

fn finish(reader: RuleReader, rest: &[u8], number: u64) -> Result<RuleList, RuleFault>
    ensures { AnswersAs result (adding (behind_rules reader.rules) (closing number rest.now (rules_end (at_of reader.before)))) }
{
    if !rest.is_empty() {
        return Err(RuleFault::Line { line: number });
    }
    if !reader.may_end() {
        return Err(RuleFault::Line { line: number });
    }
    Ok(reader.rules)
}

/// The rules that a text lays out: for each domain a line, and behind it a line for each of its rules.
pub fn read_rules(alloc: Global, bytes: &[u8]) -> Result<RuleList, RuleFault>
    ensures read { AnswersAs result (rules_in bytes.now) }
    ensures laid_out { IfOk result (λ rules. AreLaidOut Start rules × (bytes.now ≡ text_of (rule_lines Start rules))) }
    ensures line { IfErr result (NamesFirstMisfit bytes.now) }
{
    let mut reader = RuleReader::new(alloc);
    let mut rest = bytes;
    let mut number: u64 = 1;
    while let Some((line, later)) = next_line(rest) {
        take_line(&mut reader, alloc, line, number)?;
        rest = later;
        number += 1;
    }
    finish(reader, rest, number)
}
