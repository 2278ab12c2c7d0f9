ghost use Rattle.std.specs.Prelude.{◌≡◌, ◌↔◌, ◌^◌, ◌≤◌, IsTrue, Some, None, option_copied, length, []};
ghost use Rattle.device_rules.specs.Rules.{Start, AreLaidOut, AreInOrder};
ghost use Rattle.place_names.specs.Names.{is_tag_below, is_place_below};
ghost use Rattle.circuit_spec.specs.Flags.{same_tag, same_place};
ghost use Rattle.answer_spec.specs.WellFormed.{is_pot_below, may_follow_pot, IsHop, IsWish, IsRequest, IsPlace, IsPot, AreHops, ArePots, IsWellFormed, IsOutcome, IsWeight};
ghost use Rattle.answer_spec.specs.Ordered.{IsShort, IsShortOutcome, ArePotsInOrder, IsWalk, IsNoWalk, FitsOutcome, IsWalkOrdered, IsOrdered};

use crate::{Answer, FlagList, PotLine, PotList, RootName};
use circuit_spec::{Hop, HopList, Outcome, Request};
use device_rules::laid_out;
use ml_base::{Weight, Wish};
use place_names::{know_place, place_below, places_equal};

/// The greatest number of hops of a weight: 2^40.
const MOST_HOPS: u64 = 1_099_511_627_776;

/// Whether a potential stands before another: those of the request first, then by root, then by place.
fn pot_below(a: &PotLine, b: &PotLine) -> bool
    ensures { result ≡ is_pot_below a.now.root a.now.place b.now.root b.now.place }
{
    match &a.root {
        RootName::Request => match &b.root {
            RootName::Request => place_below(&a.place, &b.place),
            RootName::Entry(_) => true,
        },
        RootName::Entry(root) => match &b.root {
            RootName::Request => false,
            RootName::Entry(other) => place_below(root, other)
                || (places_equal(root, other) && place_below(&a.place, &b.place)),
        },
    }
}

/// Whether a potential may stand behind the last one.
pub fn follows(previous: Option<&PotLine>, pot: &PotLine) -> bool
    ensures { result ≡ may_follow_pot (option_copied previous.entry) pot.now }
{
    match previous {
        Some(before) => pot_below(before, pot),
        None => true,
    }
}

fn is_short(weight: Weight) -> bool
    ensures short { IsTrue result ↔ IsShort weight }
    ensures weight { IsTrue result ↔ IsWeight weight }
{
    match weight {
        Weight::Known { cost: _, hops } => hops <= MOST_HOPS,
        Weight::Past => true,
    }
}

fn know_root(root: &RootName)
    ensures { Rattle.answer_spec.specs.WellFormed.IsRoot root.now }
{
    match root {
        RootName::Request => {}
        RootName::Entry(place) => know_place(&place.class, place.label),
    }
}

fn know_pot(pot: &PotLine)
    ensures root { Rattle.answer_spec.specs.WellFormed.IsRoot pot.now.root }
    ensures place { IsPlace pot.now.place }
{
    know_root(&pot.root);
    know_place(&pot.place.class, pot.place.label);
}

fn pots_in_order(pots: &PotList) -> bool
    ensures exact { IsTrue result ↔ ArePots None pots.now }
    ensures ordered { ArePotsInOrder None pots.now → IsTrue result }
{
    let mut previous: Option<&PotLine> = None;
    for pot in pots.as_slice() {
        if !is_short(pot.weight) {
            return false;
        }
        if !follows(previous, pot) {
            return false;
        }
        know_pot(pot);
        previous = Some(pot);
    }
    true
}

fn know_hop(hop: &Hop, flag: Option<u64>, number: u64)
    ensures { IsHop number hop.now flag }
{
    know_place(&hop.element, None);
    know_place(&hop.from, hop.from_label);
    know_place(&hop.to, hop.to_label);
    know_place(&hop.domain, None);
}

fn each_hop_flagged(hops: &HopList, flags: &FlagList) -> bool
    ensures exact { IsTrue result ↔ AreHops 1 hops.now flags.now }
    ensures ordered { (length hops.now ≡ length flags.now) → IsTrue result }
{
    if hops.len() != flags.len() {
        return false;
    }
    for (at, hop) in hops.as_slice().iter().enumerate() {
        know_hop(hop, flags.as_slice()[at], at as u64 + 1);
    }
    true
}

fn know_wish(wish: Wish)
    ensures { IsWish wish }
{}

fn know_request(request: &Request)
    ensures { IsRequest request.now }
{
    know_place(&request.from, None);
    know_wish(request.from_wish);
    know_place(&request.to, None);
    know_wish(request.to_wish);
}

fn outcome_short(outcome: Outcome) -> bool
    ensures exact { IsTrue result ↔ IsOutcome outcome }
    ensures short { IsShortOutcome outcome → IsTrue result }
{
    match outcome {
        Outcome::Found { cost: _, hops } => hops <= MOST_HOPS,
        Outcome::Long { cost: _, hops } => hops <= MOST_HOPS,
        Outcome::NoWalk => true,
        Outcome::Past => true,
    }
}

fn has_walk(answer: &Answer) -> bool
    ensures exact { IsTrue result ↔ IsWalk answer.now }
    ensures ordered { (length answer.now.hops ≡ length answer.now.flags) → AreInOrder Start answer.now.rules → IsTrue result }
{
    if !each_hop_flagged(&answer.hops, &answer.flags) {
        return false;
    }
    laid_out(&answer.rules)
}

fn has_no_walk(answer: &Answer) -> bool
    ensures { IsTrue result ↔ IsNoWalk answer.now }
{
    answer.hops.len() == 0 && answer.flags.len() == 0 && answer.rules.len() == 0
}

fn fits_outcome(answer: &Answer) -> bool
    ensures exact { IsTrue result ↔ FitsOutcome answer.now.outcome answer.now }
    ensures ordered { IsWalkOrdered answer.now.outcome answer.now → IsTrue result }
{
    match answer.outcome {
        Outcome::Found { cost: _, hops: _ } => has_walk(answer),
        Outcome::NoWalk => has_no_walk(answer),
        Outcome::Past => has_no_walk(answer),
        Outcome::Long { cost: _, hops: _ } => has_no_walk(answer),
    }
}

/// Whether an answer has a document. It takes no memory.
pub fn well_formed(answer: &Answer) -> bool
    ensures exact { IsTrue result ↔ IsWellFormed answer.now }
    ensures ordered { IsOrdered answer.now → IsTrue result }
{
    know_request(&answer.request);
    if !outcome_short(answer.outcome) {
        return false;
    }
    if !pots_in_order(&answer.potentials) {
        return false;
    }
    fits_outcome(answer)
}
