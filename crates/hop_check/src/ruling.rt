ghost use Rattle.std.specs.Prelude.{◌≡◌, ◌≢◌, ◌↔◌, ◌<◌, ◌≤◌, ◌^◌, ◌∷◌, IfSome, List, Some, IsTrue, MatchOption, length, slice_get, option_copied};
ghost use Rattle.circuit_spec.specs.Network.{Topology};
ghost use Rattle.device_rules.specs.declared.rules.Rule.{Rule as OneRule};
ghost use Rattle.device_rules.specs.Rules.{AreLaidOut, Start, after};
ghost use Rattle.domain_config.specs.Rules.{domain_lines, rule_lines};
ghost use Rattle.verdict.specs.declared.rules.Rule.TheVariants as rule;
ghost use Rattle.verdict.specs.First.{IsFirstDifference};
ghost use Rattle.hop_check.specs.Deciding.{Decides};

use answer_spec::Answer;
use device_rules::{Rule as DeviceRule, RuleList, rules_of};
use ml_base::Id;
use std::alloc::Global;
use verdict::{CheckFault, Rule};

/// Whether this is the rule.
fn is_rule(due: Option<&DeviceRule>, rule: &DeviceRule) -> bool
    ensures { IsTrue result ↔ option_copied due.entry ≡ Some rule.now }
{
    match due {
        Some(due) => due.number == rule.number && due.hop == rule.hop,
        None => false,
    }
}

/// How many domain lines stand before a rule of the domain, where this rule stands before.
fn domain_lines(previous: Option<&DeviceRule>, domain: &Id) -> u64
    ensures counted { result ≡ length (domain_lines (after (option_copied previous.entry)) domain.now) }
    ensures few { result ≤ 1 }
{
    match previous {
        Some(last) if last.hop.domain == *domain => 0,
        _ => 1,
    }
}

/// How many lines stand before the first that differs, where the one list goes on with the rule and the other with another or ends.
fn lines_alike(previous: Option<&DeviceRule>, rule: &DeviceRule, due: Option<&DeviceRule>) -> u64
    ensures alike { (xs ys : List OneRule) → let at = after (option_copied previous.entry) in AreLaidOut at (rule.now ∷ xs) → AreLaidOut at ys → slice_get ys 0 ≡ option_copied due.entry → option_copied due.entry ≢ Some rule.now → IsFirstDifference (rule_lines at (rule.now ∷ xs)) (rule_lines at ys) result }
    ensures few { result ≤ 1 }
{
    match due {
        Some(due) if due.hop.domain == rule.hop.domain => domain_lines(previous, &rule.hop.domain),
        _ => 0,
    }
}

/// Before how many lines the lines of the rules first differ from those of the rules that are due, unless they are the same.
fn first_other_line(rules: &RuleList, due: &RuleList) -> Option<u64>
    requires rules { AreLaidOut Start rules.now }
    requires due { AreLaidOut Start due.now }
    ensures first { MatchOption result (rules.now ≡ due.now) (IsFirstDifference (rule_lines Start rules.now) (rule_lines Start due.now)) }
    ensures few { IfSome result (λ place. place < 2 ^ 62) }
{
    let list = rules.as_slice();
    let mut previous: Option<&DeviceRule> = None;
    let mut lines: u64 = 0;
    for (at, rule) in list.iter().enumerate() {
        let due_here = due.get(at as u64);
        if !is_rule(due_here, rule) {
            return Some(lines + lines_alike(previous, rule, due_here));
        }
        lines = lines + domain_lines(previous, &rule.hop.domain) + 1;
        previous = Some(rule);
    }
    if due.len() == rules.len() {
        return None;
    }
    Some(lines)
}

/// How many lines the rules take in a document, those of their domains among them.
pub fn count_rule_lines(rules: &RuleList) -> u64
    ensures counted { result ≡ length (rule_lines Start rules.now) }
    ensures few { result < 2 ^ 62 }
{
    let mut previous: Option<&DeviceRule> = None;
    let mut lines: u64 = 0;
    for rule in rules.as_slice() {
        lines = lines + domain_lines(previous, &rule.hop.domain) + 1;
        previous = Some(rule);
    }
    lines
}

/// The domain and rule lines are those of the hops.
pub fn check_rules(alloc: Global, answer: &Answer) -> Result<(), CheckFault>
    requires { AreLaidOut Start answer.now.rules }
    ensures { (T : Topology) → Decides T answer.now rule.Ruled result }
{
    let due = rules_of(alloc, &answer.hops)?;
    let hops = answer.hops.as_slice().len() as u64;
    match first_other_line(&answer.rules, &due) {
        None => Ok(()),
        Some(place) => Err(CheckFault::NotValid {
            line: 4 + hops + place,
            rule: Rule::Ruled,
        }),
    }
}
