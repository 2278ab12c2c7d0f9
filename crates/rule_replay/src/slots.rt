ghost use Rattle.std.specs.Prelude.{◌≡◌, ◌<◌, ◌+◌, ℕ, IfOk, length, replicate, take};
ghost use Rattle.rule_replay.specs.Slots.{AddsHop, AreNoted, IsNumbering, Notes, slot_with};

use circuit_spec::HopList;
use device_rules::{Rule, RuleList};
use ml_base::NoMemory;
use std::alloc::Global;

/// The rules of one number.
#[derive(Clone, Copy, Debug, PartialEq, Eq)]
pub enum Slot {
    Missing,
    /// One rule, by its place in the list.
    One(u64),
    Several,
}

/// The hops of rules by number, or the first number that does not stand there exactly once.
#[derive(Drop)]
pub enum Numbering {
    Hops(HopList),
    Misnumbered(u64),
}

/// The slot with a rule more.
fn slot_with(slot: Slot, place: u64) -> Slot
    ensures { result ≡ slot_with slot place }
{
    match slot {
        Slot::Missing => Slot::One(place),
        Slot::One(_) | Slot::Several => Slot::Several,
    }
}

/// An empty slot for each number.
fn empty_slots(alloc: Global, count: u64) -> Result<Vec<Slot>, NoMemory>
    ensures { IfOk result (λ slots. slots.items ≡ replicate count Slot.Missing) }
{
    match vec![in alloc; Slot::Missing; count as usize] {
        Ok(slots) => Ok(slots),
        Err(_) => Err(NoMemory),
    }
}

/// Puts the rule at a place of the list into the slot of its number, if there is one.
fn note(slots: &mut Vec<Slot>, rules: &[Rule], place: usize)
    requires within { place < length rules.now }
    requires noted { AreNoted (take place rules.now) slots.old.items (length rules.now) }
    ensures { AreNoted (take (place + 1) rules.now) slots.new.items (length rules.now) }
{
    let number = rules[place].number;
    if number == 0 {
        return;
    }
    if number > slots.len() as u64 {
        return;
    }
    let at = (number - 1) as usize;
    slots[at] = slot_with(slots[at], place as u64);
}

/// The slots of the numbers from 1 to the count of the rules.
fn slots_of(alloc: Global, rules: &[Rule]) -> Result<Vec<Slot>, NoMemory>
    ensures { IfOk result (λ slots. AreNoted rules.now slots.items (length rules.now)) }
{
    let mut slots = empty_slots(alloc, rules.len() as u64)?;
    for place in 0..rules.len() {
        note(&mut slots, rules, place);
    }
    Ok(slots)
}

/// Puts the hop of a slot's one rule behind the others. The answer is whether the slot has one rule.
fn add_hop(hops: &mut HopList, rules: &[Rule], slot: Slot) -> Result<bool, NoMemory>
    requires { (n : ℕ) × Notes rules.now n slot }
    ensures { IfOk result (AddsHop rules.now slot hops.old hops.new) }
{
    let Slot::One(place) = slot else {
        return Ok(false);
    };
    hops.push(rules[place as usize].hop.share()?)?;
    Ok(true)
}

/// The hops of the rules by number, where the numbers from 1 to their count stand there exactly once. Each rule is looked at twice.
pub fn number_hops(alloc: Global, rules: &RuleList) -> Result<Numbering, NoMemory>
    ensures { IfOk result (IsNumbering rules.now) }
{
    let rules = rules.as_slice();
    let slots = slots_of(alloc, rules)?;
    let mut hops = HopList::new(alloc);
    for number in 0..slots.len() {
        if !add_hop(&mut hops, rules, slots[number])? {
            return Ok(Numbering::Misnumbered(number as u64 + 1));
        }
    }
    Ok(Numbering::Hops(hops))
}
