// A document's body, read line by line.
ghost use Rattle.std.specs.Prelude.{◌≡◌, List, [], Some};
ghost use Rattle.line_text.specs.Fields.{kept_if};
ghost use Rattle.device_rules.specs.Rules.{In};
ghost use Rattle.answer_spec.specs.declared.answer.Answer.{Answer};
ghost use Rattle.answer_spec.specs.declared.answer.PotLine.{PotLine};
ghost use Rattle.line_text.specs.Cursor.{Gives};
ghost use Rattle.domain_config.specs.Saying.{rule_added};
ghost use Rattle.answer_text.specs.Reading.{answer_step, answer_end, blank, Rules, Ended, Pots, add_pot, add_rules, add_request, same_answer};
ghost use Rattle.answer_text.specs.Views.{hop_added, outcome_added};
ghost use Rattle.answer_text.specs.Leading.{line_step};
ghost use Rattle.answer_text.specs.Taking.{at_in, phase_at, phase_of, behind_answer, Takes, TakesBy};

use crate::body::{BodyLine, hops_said, pots_said, rules_said};
use crate::fields::HopWords;
use answer_spec::{Answer, PotLine};
use circuit_spec::{Outcome, Request};
use device_rules::Rule;
use domain_config::{Before, Said};
use line_text::Refused;
use ml_base::{Id, Items};
use std::alloc::Global;

/// Which lines may come next.
#[derive(Drop)]
pub(crate) enum Stage {
    /// The next hop behind the one of this number, and what may stand behind hops.
    Hops { last: u64 },
    /// More rules, and what may stand behind rules.
    Rules(Before),
    /// More potentials, and the end.
    Pots,
    /// None.
    Ended,
}

impl Stage {
    fn behind_outcome(outcome: Outcome) -> Stage
        ensures { phase_at result [] ≡ (outcome_added outcome).0 }
    {
        match outcome {
            Outcome::Found { cost: _, hops: _ } => Stage::Hops { last: 0 },
            Outcome::NoWalk => Stage::Pots,
            Outcome::Past => Stage::Pots,
            Outcome::Long { cost: _, hops: _ } => Stage::Pots,
        }
    }

    /// The rule's number is the last one of its domain.
    fn count(&mut self, rule: &Rule)
        ensures { (pots : List PotLine) → phase_at self.new pots ≡ Rules (rule_added (at_in self.old) rule.now).0 }
    {
        match self {
            Stage::Rules(before) => before.last = rule.number,
            // No rule comes before the line of a domain.
            _ => *self = Stage::Rules(Before::nothing()),
        }
    }
}

/// A document that is read line by line, from behind its outcome.
#[derive(Drop)]
pub(crate) struct BodyReader {
    pub stage: Stage,
    pub answer: Answer,
}

impl BodyReader {
    pub(crate) fn new(alloc: Global, request: Request, outcome: Outcome) -> BodyReader
        ensures phase { phase_of result ≡ (outcome_added outcome).0 }
        ensures answer { (later : Answer) → behind_answer result.answer later ≡ add_request request ((outcome_added outcome).1 later) }
    {
        BodyReader {
            stage: Stage::behind_outcome(outcome),
            answer: Answer {
                request,
                outcome,
                hops: Items::new(alloc),
                flags: Items::new(alloc),
                rules: Items::new(alloc),
                potentials: Items::new(alloc),
            },
        }
    }

    fn said(&self, alloc: Global, line: &[u8]) -> Result<BodyLine, Refused>
        ensures { Gives (line_step (at_in self.now.stage)) result (answer_step (phase_of self.now) line.now) }
    {
        match &self.stage {
            Stage::Hops { last } => hops_said(alloc, *last, line),
            Stage::Rules(before) => rules_said(alloc, before, line),
            Stage::Pots => pots_said(alloc, self.answer.potentials.as_slice().last(), line),
            Stage::Ended => Err(Refused::Misfit),
        }
    }

    fn add_hop(&mut self, words: HopWords) -> Result<(), Refused>
        ensures { TakesBy self.old self.new result (Some (hop_added words.number words)) }
    {
        self.stage = Stage::Hops { last: words.number };
        let Ok(()) = self.answer.hops.push(words.hop) else {
            return Err(Refused::NoMemory);
        };
        let Ok(()) = self.answer.flags.push(words.flag) else {
            return Err(Refused::NoMemory);
        };
        Ok(())
    }

    fn begin_domain(&mut self, domain: Id)
        ensures { Takes self.old self.new (Some (Rules (In domain 0), add_rules (λ rs. rs))) }
    {
        self.stage = Stage::Rules(Before {
            domain: Some(domain),
            last: 0,
        });
    }

    fn add_rule(&mut self, rule: Rule) -> Result<(), Refused>
        ensures { TakesBy self.old self.new result (Some (Rules (rule_added (at_in self.old.stage) rule).0, add_rules (rule_added (at_in self.old.stage) rule).1)) }
    {
        self.stage.count(&rule);
        let Ok(()) = self.answer.rules.push(rule) else {
            return Err(Refused::NoMemory);
        };
        Ok(())
    }

    fn add_pot(&mut self, pot: PotLine) -> Result<(), Refused>
        ensures { TakesBy self.old self.new result (Some (Pots (Some pot), add_pot pot)) }
    {
        self.stage = Stage::Pots;
        let Ok(()) = self.answer.potentials.push(pot) else {
            return Err(Refused::NoMemory);
        };
        Ok(())
    }

    fn end(&mut self)
        ensures { Takes self.old self.new (Some (Ended, same_answer)) }
    {
        self.stage = Stage::Ended;
    }

    /// Takes the next line. After a refusal the reader is of no use.
    pub(crate) fn take(&mut self, alloc: Global, line: &[u8]) -> Result<(), Refused>
        ensures { TakesBy self.old self.new result (answer_step (phase_of self.old) line.now) }
    {
        match self.said(alloc, line)? {
            BodyLine::Hop(words) => self.add_hop(words),
            BodyLine::Rule(Said::Domain(domain)) => {
                self.begin_domain(domain);
                Ok(())
            }
            BodyLine::Rule(Said::Rule(rule)) => self.add_rule(rule),
            BodyLine::Pot(pot) => self.add_pot(pot),
            BodyLine::End => {
                self.end();
                Ok(())
            }
        }
    }

    /// Whether the document may end here.
    pub(crate) fn may_end(&self) -> bool
        ensures { answer_end (phase_of self.now) ≡ kept_if result blank }
    {
        match &self.stage {
            Stage::Ended => true,
            _ => false,
        }
    }
}
