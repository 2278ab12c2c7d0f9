ghost use Rattle.std.specs.Prelude.{◌≡◌, ◌≤◌, ◌∷◌, [], ◌++◌, IfOk, OnOk, All};
ghost use Rattle.std.specs.List.Sorted.{IsPermutation, IsSortedBy};
ghost use Rattle.std.specs.Ordering.{is_lt};
ghost use Rattle.device_rules.specs.Rules.{Start, IsRule, AreLaidOut};
ghost use Rattle.device_rules.specs.Numbering.{numbered, rule_cmp, AreRulesOf};

use crate::order::know_rule;
use crate::rules::{Rule, RuleList};
use circuit_spec::{Hop, HopList};
use ml_base::{Items, NoMemory};
use std::alloc::Global;
use std::cmp::Ordering;

fn share_hop(hop: &Hop) -> Result<Hop, NoMemory>
    ensures { IfOk result (λ shared. shared ≡ hop.now) }
{
    let element = hop.element.share()?;
    let from = hop.from.share()?;
    let to = hop.to.share()?;
    let domain = hop.domain.share()?;
    Ok(Hop {
        kind: hop.kind,
        element,
        from,
        from_label: hop.from_label,
        to,
        to_label: hop.to_label,
        domain,
    })
}

fn push_rule(rules: &mut Vec<Rule>, number: u64, hop: &Hop) -> Result<(), NoMemory>
    ensures pushed { OnOk result (rules.new.items ≡ rules.old.items ++ (record { number = number; hop = hop.now }) ∷ []) }
    ensures fits { OnOk result (IsRule (record { number = number; hop = hop.now })) }
{
    let hop = share_hop(hop)?;
    let rule = Rule { number, hop };
    know_rule(&rule);
    match rules.push(rule) {
        Ok(()) => Ok(()),
        Err(_) => Err(NoMemory),
    }
}

fn number_hops(alloc: Global, hops: &[Hop]) -> Result<Vec<Rule>, NoMemory>
    ensures numbered { IfOk result (λ rules. rules.items ≡ numbered 1 hops.now) }
    ensures fit { IfOk result (λ rules. All IsRule rules.items) }
{
    let mut rules = Vec::new(alloc);
    for (at, hop) in hops.iter().enumerate() {
        push_rule(&mut rules, at as u64 + 1, hop)?;
    }
    Ok(rules)
}

fn rule_order(a: &Rule, b: &Rule) -> Ordering
    ensures { result ≡ rule_cmp a.now b.now }
{
    a.hop
        .domain
        .cmp(&b.hop.domain)
        .then(a.number.cmp(&b.number))
}

fn sort_rules(rules: &mut Vec<Rule>) -> Result<(), NoMemory>
    ensures same { IsPermutation rules.old.items rules.new.items }
    ensures sorted { OnOk result (IsSortedBy (λ a b. is_lt (rule_cmp a b)) rules.new.items) }
{
    match rules.sort_by(|a, b| rule_order(a, b)) {
        Ok(()) => Ok(()),
        Err(_) => Err(NoMemory),
    }
}

fn listed(alloc: Global, rules: Vec<Rule>) -> Result<RuleList, NoMemory>
    ensures { IfOk result (λ list. list ≡ rules.items) }
{
    let mut list = Items::new(alloc);
    for rule in rules {
        list.push(rule)?;
    }
    Ok(list)
}

/// The rules of the hops of a walk: hop i as rule i, by domain in the order of its bytes, and then by number.
pub fn rules_of(alloc: Global, hops: &HopList) -> Result<RuleList, NoMemory>
    ensures rules { IfOk result (AreRulesOf hops.now) }
    ensures laid_out { IfOk result (AreLaidOut Start) }
{
    let mut rules = number_hops(alloc, hops.as_slice())?;
    sort_rules(&mut rules)?;
    listed(alloc, rules)
}
