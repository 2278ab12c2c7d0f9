ghost use Rattle.std.specs.Prelude.{◌≡◌, ℕ, List, [], IfOk, IsTrue, ◌↔◌};
ghost use Rattle.circuit_spec.specs.Faults.{IsKnown, IsSound};
ghost use Rattle.answer_spec.specs.Certificate.{first_label};
ghost use Rattle.rule_replay.specs.Carrying.{IsFirstPlace, IsToldOfHops};
ghost use Rattle.rule_replay.specs.Replaying.{IsAsked, IsFound, IsReplayed, Spells};

use crate::carrying::{Carry, are_apart, carry_unit};
use crate::known::{class_of, is_at_end, is_known, serves_both};
use crate::replayed::{ReplayCause, Replayed};
use crate::slots::{Numbering, number_hops};
use answer_spec::Answer;
use answer_text::{TextFault, read};
use circuit_spec::{HopList, Outcome, PlaceName, Request};
use ml_base::{NoMemory, Tag, Wish};
use nml_inventory::Inventory;
use std::alloc::Global;

/// Whether the outcome has a walk.
fn is_found(outcome: Outcome) -> bool
    ensures { IsTrue result ↔ IsFound outcome }
{
    match outcome {
        Outcome::Found { .. } => true,
        _ => false,
    }
}

/// The label with which the hops begin: the wished one, or else that of the first hop.
fn first_label(wish: Wish, hops: &HopList) -> Tag
    ensures { result ≡ first_label wish hops.now }
{
    match wish {
        Wish::Value(label) => Some(label),
        Wish::Any => match hops.as_slice().first() {
            Some(hop) => hop.from_label,
            None => None,
        },
    }
}

/// The place where the hops of a known request begin.
fn first_place(
    inventory: &Inventory,
    request: &Request,
    hops: &HopList,
) -> Result<PlaceName, NoMemory>
    requires { IsKnown inventory.now request.now }
    ensures { IfOk result (IsFirstPlace inventory.now request.now hops.now) }
{
    match class_of(inventory, &request.from) {
        Some(class) => Ok(PlaceName {
            class: inventory.name(class).share()?,
            label: first_label(request.from_wish, hops),
        }),
        None => unreachable!(),
    }
}

/// What is told where there are no hops.
fn told_of_none(inventory: &Inventory, request: &Request) -> Replayed
    requires sound { IsSound inventory.now }
    requires known { IsKnown inventory.now request.now }
    ensures { IsToldOfHops inventory.now request.now [] result }
{
    if serves_both(inventory, request) {
        return Replayed::Carried {
            rules: 0,
            any_order: true,
        };
    }
    Replayed::NotCarried {
        at: 0,
        cause: ReplayCause::End,
    }
}

/// What is told of the hops of a known request.
fn told_of_hops(
    alloc: Global,
    inventory: &Inventory,
    request: &Request,
    hops: &HopList,
) -> Result<Replayed, NoMemory>
    requires sound { IsSound inventory.now }
    requires known { IsKnown inventory.now request.now }
    ensures { IfOk result (IsToldOfHops inventory.now request.now hops.now) }
{
    let rules = hops.len();
    if rules == 0 {
        return Ok(told_of_none(inventory, request));
    }
    let start = first_place(inventory, request, hops)?;
    let passed = match carry_unit(alloc, inventory, &start, hops)? {
        Carry::Through(passed) => passed,
        Carry::Refused { at, cause } => return Ok(Replayed::NotCarried { at, cause }),
    };
    if !is_at_end(inventory, request, passed.replay.unit()) {
        return Ok(Replayed::NotCarried {
            at: rules,
            cause: ReplayCause::End,
        });
    }
    let any_order = are_apart(alloc, passed.places.as_slice())?;
    Ok(Replayed::Carried { rules, any_order })
}

/// What is told of the rules of an answer that is found, to a known request.
fn told_of_asked(
    alloc: Global,
    inventory: &Inventory,
    answer: &Answer,
) -> Result<Replayed, NoMemory>
    requires sound { IsSound inventory.now }
    requires known { IsKnown inventory.now answer.now.request }
    ensures { (bytes : List ℕ) → IsAsked inventory.now bytes answer.now → IfOk result (IsReplayed inventory.now bytes) }
{
    match number_hops(alloc, &answer.rules)? {
        Numbering::Hops(hops) => told_of_hops(alloc, inventory, &answer.request, &hops),
        Numbering::Misnumbered(at) => Ok(Replayed::NotCarried {
            at,
            cause: ReplayCause::Number,
        }),
    }
}

/// Takes the unit of an answer's request over the answer's rules: what [`replay`] tells of its document.
pub fn replay_answer(
    alloc: Global,
    inventory: &Inventory,
    answer: &Answer,
) -> Result<Replayed, NoMemory>
    requires sound { IsSound inventory.now }
    ensures { (bytes : List ℕ) → Spells bytes answer.now → IfOk result (IsReplayed inventory.now bytes) }
{
    if !is_found(answer.outcome) {
        return Ok(Replayed::NotCarried {
            at: 0,
            cause: ReplayCause::Outcome,
        });
    }
    if !is_known(inventory, &answer.request) {
        return Ok(Replayed::NotCarried {
            at: 0,
            cause: ReplayCause::Request,
        });
    }
    told_of_asked(alloc, inventory, answer)
}

/// Takes the unit of a document's request over the document's rules, by their numbers alone.
///
/// The unit begins in the class of FROM, with the wished label or else that of the first rule, and with no frames round it. The
/// answer is the first condition that fails, in the order of [`ReplayCause`], or that the rules carry the unit: then their hops are a
/// walk of the request. It takes a few look-ups by id for each rule.
pub fn replay(alloc: Global, inventory: &Inventory, bytes: &[u8]) -> Result<Replayed, NoMemory>
    requires { IsSound inventory.now }
    ensures { IfOk result (IsReplayed inventory.now bytes.now) }
{
    match read(alloc, bytes) {
        Ok(answer) => replay_answer(alloc, inventory, &answer),
        Err(TextFault::Line { .. }) => Ok(Replayed::NotCarried {
            at: 0,
            cause: ReplayCause::Text,
        }),
        Err(TextFault::NoMemory) => Err(NoMemory),
    }
}
