ghost use Rattle.std.specs.Prelude.{◌≡◌, ◌↔◌, IsTrue, option_copied};
ghost use Rattle.device_rules.specs.Rules.{Start, IsRule, AreInOrder, AreLaidOut, may_follow, after};

use crate::rules::{Rule, RuleList};
use place_names::{id_below, know_place};

pub(crate) fn know_rule(rule: &Rule)
    ensures { IsRule rule.now }
{
    let _number = rule.number;
    know_place(&rule.hop.element, None);
    know_place(&rule.hop.from, rule.hop.from_label);
    know_place(&rule.hop.to, rule.hop.to_label);
    know_place(&rule.hop.domain, None);
}

fn follows(previous: Option<&Rule>, rule: &Rule) -> bool
    ensures { result ≡ may_follow (after (option_copied previous.entry)) rule.now }
{
    let Some(before) = previous else {
        return 0 < rule.number;
    };
    if before.hop.domain == rule.hop.domain {
        return before.number < rule.number;
    }
    0 < before.number && (id_below(&before.hop.domain, &rule.hop.domain) && 0 < rule.number)
}

/// Whether rules have a layout: by domain in the order of its bytes, and within a domain with rising numbers from 1 or
/// more. It takes no memory.
pub fn laid_out(rules: &RuleList) -> bool
    ensures exact { IsTrue result ↔ AreLaidOut Start rules.now }
    ensures ordered { AreInOrder Start rules.now → IsTrue result }
{
    let mut previous: Option<&Rule> = None;
    for rule in rules.as_slice() {
        if !follows(previous, rule) {
            return false;
        }
        know_rule(rule);
        previous = Some(rule);
    }
    true
}
