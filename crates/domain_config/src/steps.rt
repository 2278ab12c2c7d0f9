// What one line of a layout of rules says.
ghost use Rattle.std.specs.Prelude.{◌≡◌, ◌&&◌, [], option_copied, nat_lt};
ghost use Rattle.line_text.specs.Fields.{id_of, done_of, and_of, kept_if};
ghost use Rattle.device_rules.specs.Rules.{Start};
ghost use Rattle.domain_config.specs.Rules.{rules_end, agrees, kind_of, to_domain, to_rule, rule_step, rule_words_of};
ghost use Rattle.place_names.specs.Names.{is_below};
ghost use Rattle.line_text.specs.Cursor.{parts_of, Gives};
ghost use Rattle.domain_config.specs.Views.{verb_view, words_view};
ghost use Rattle.domain_config.specs.Saying.{at_of, step_of};

use crate::line::{RuleWords, domain_words, rule_words};
use crate::verb::Verb;
use circuit_spec::{Hop, HopKind};
use device_rules::Rule;
use line_text::{Refused, cut};
use ml_base::{Id, Tag};
use place_names::{id_below, tags_equal};
use std::alloc::Global;

/// What stands before a line: nothing, or a domain with the number of its last rule, 0 where it has none yet.
#[derive(Drop)]
pub struct Before {
    pub domain: Option<Id>,
    pub last: u64,
}

impl Before {
    /// Nothing stands before.
    pub fn nothing() -> Before
        ensures { at_of result ≡ Start }
    {
        Before {
            domain: None,
            last: 0,
        }
    }

    /// Whether the layout may end here.
    pub fn may_end(&self) -> bool
        ensures { rules_end (at_of self.now) ≡ kept_if result [] }
    {
        match &self.domain {
            Some(_) => 0 < self.last,
            None => true,
        }
    }
}

/// What a line says.
#[derive(Drop)]
pub enum Said {
    Domain(Id),
    Rule(Rule),
}

fn verb_kind(verb: Verb) -> HopKind
    ensures { result ≡ kind_of (verb_view verb) }
{
    match verb {
        Verb::Carry => HopKind::Link,
        Verb::Connect => HopKind::Cross,
        Verb::Swap => HopKind::Cross,
        Verb::Wrap => HopKind::Adapt,
        Verb::Unwrap => HopKind::Deadapt,
        Verb::Convert => HopKind::Convert,
    }
}

fn verb_agrees(verb: Verb, from: Tag, to: Tag) -> bool
    ensures { result ≡ agrees (verb_view verb) from to }
{
    match verb {
        Verb::Connect => tags_equal(from, to),
        Verb::Swap => !tags_equal(from, to),
        Verb::Carry => true,
        Verb::Wrap => true,
        Verb::Unwrap => true,
        Verb::Convert => true,
    }
}

fn may_begin(last: u64, before: &Id, domain: &Id) -> bool
    ensures { result ≡ (nat_lt 0 last && is_below before.now domain.now) }
{
    0 < last && id_below(before, domain)
}

fn domain_said(alloc: Global, before: &Before, words: Option<&[u8]>) -> Result<Said, Refused>
    ensures { Gives (step_of (at_of before.now)) result (to_domain (at_of before.now) (and_of id_of done_of (parts_of 32 (option_copied words.entry)))) }
{
    let domain = domain_words(alloc, words)?;
    match &before.domain {
        Some(last) => {
            if !may_begin(before.last, last, &domain) {
                return Err(Refused::Misfit);
            }
        }
        None => {}
    }
    Ok(Said::Domain(domain))
}

fn made_rule(words: RuleWords, domain: &Id) -> Result<Rule, Refused>
    ensures { Gives (λ r. r) result (Some (Rattle.domain_config.specs.Rules.rule_of domain.now (words_view words))) }
{
    let Ok(domain) = domain.share() else {
        return Err(Refused::NoMemory);
    };
    Ok(Rule {
        number: words.number,
        hop: Hop {
            kind: verb_kind(words.verb),
            element: words.element,
            from: words.from,
            from_label: words.from_label,
            to: words.to,
            to_label: words.to_label,
            domain,
        },
    })
}

fn rule_said(alloc: Global, before: &Before, words: Option<&[u8]>) -> Result<Said, Refused>
    ensures { Gives (step_of (at_of before.now)) result (to_rule (at_of before.now) (rule_words_of (parts_of 32 (option_copied words.entry)))) }
{
    let words = rule_words(alloc, words)?;
    let Some(domain) = &before.domain else {
        return Err(Refused::Misfit);
    };
    if !verb_agrees(words.verb, words.from_label, words.to_label) {
        return Err(Refused::Misfit);
    }
    if words.number <= before.last {
        return Err(Refused::Misfit);
    }
    let rule = made_rule(words, domain)?;
    Ok(Said::Rule(rule))
}

/// What a line of a layout says behind these lines.
pub fn rule_line(alloc: Global, before: &Before, line: &[u8]) -> Result<Said, Refused>
    ensures { Gives (step_of (at_of before.now)) result (rule_step (at_of before.now) line.now) }
{
    let (key, words) = cut(line, b' ');
    if key == b"domain".as_slice() {
        return domain_said(alloc, before, words);
    }
    if key == b"rule".as_slice() {
        return rule_said(alloc, before, words);
    }
    Err(Refused::Misfit)
}
