ghost use Rattle.std.specs.Prelude.{◌≡◌, ◌↔◌, ◌<◌, IsTrue, List, length, take, IfErr, IfOk, OnOk};
ghost use Rattle.std.specs.List.{All};
ghost use Rattle.ml_base.specs.declared.numbers.StateNo.{StateNo};
ghost use Rattle.segment_grammar.specs.Index.{IsIndexOf};
ghost use Rattle.pair_check.specs.Exits.{AreFound, ArePopsIn, LeadsOut, NestsBy};
ghost use Rattle.pair_check.specs.Rules.{ArePairsWithin, BeginAtZero, IsExtended, IsFaultOf, IsNested, IsOpened};

use crate::exits::{Exit, FoundExits, find_exits};
use crate::extending::leads_on;
use crate::fault::PairFault;
use crate::noted::{Noted, note_root};
use crate::pops::{Steps, pops_by_frame};
use crate::ways::{Ways, weight_by};
use adapt_machine::Machine;
use ml_base::{NoMemory, Root, StepNo, Weight};
use segment_grammar::{Index, Pot, Potentials};
use std::alloc::Global;
use std::collections::HashMap;

/// Whether the pop of the exit leads on from the weight and the inner one.
fn leads_out(machine: &Machine, noted: &Noted, root: Root, weight: Weight, exit: Exit) -> bool
    requires { exit.pop.0 < length machine.now.steps }
    ensures { IsTrue result ↔ LeadsOut machine.now.steps noted.now.pots.now root weight exit }
{
    leads_on(machine, noted, root, weight.plus(exit.inner), exit.pop)
}

/// Whether each of the exits leads on.
fn all_lead_out(
    machine: &Machine,
    noted: &Noted,
    root: Root,
    weight: Weight,
    exits: &[Exit],
) -> bool
    requires { All (λ exit. exit.pop.0 < length machine.now.steps) exits.now }
    ensures { IsTrue result ↔ All (LeadsOut machine.now.steps noted.now.pots.now root weight) exits.now }
{
    for exit in exits {
        if !leads_out(machine, noted, root, weight, *exit) {
            return false;
        }
    }
    true
}

/// Whether the push and each exit of what it enters lead on from the pair.
fn nests_by(
    alloc: Global,
    found: &mut FoundExits,
    machine: &Machine,
    steps: Steps<'_>,
    noted: &Noted,
    pair: Pot,
    push: StepNo,
) -> Result<bool, NoMemory>
    requires below { push.0 < length machine.now.steps }
    requires indexed { IsIndexOf machine.now steps.index.now }
    requires popped { ArePopsIn machine.now.steps (length machine.now.steps) steps.pops.now }
    requires found { AreFound machine.now.steps noted.now.pots.now found.old.entries }
    ensures found { IfOk result (λ _. AreFound machine.now.steps noted.now.pots.now found.new.entries) }
    ensures nests { IfOk result (λ yes. IsTrue yes ↔ NestsBy machine.now.steps noted.now.pots.now pair push) }
{
    let _states = machine.states();
    let step = machine.step(push);
    find_exits(
        alloc, found, machine, steps, noted.pots, step.to, step.frame,
    )?;
    let Some(exits) = found.get(&(step.to.0, step.frame.0)) else {
        unreachable!()
    };
    let weight = weight_by(pair, step);
    Ok(all_lead_out(machine, noted, pair.root, weight, exits))
}

/// The same for a pair at the place, where nests of the pairs before lead on: where one of these pushes the same way at no more, what it
/// leads to is within what the pair may lead to, and nothing is looked up.
fn nests_once(
    alloc: Global,
    found: &mut FoundExits,
    ways: &mut Ways,
    machine: &Machine,
    steps: Steps<'_>,
    noted: &Noted,
    place: u64,
    pair: Pot,
    push: StepNo,
) -> Result<bool, NoMemory>
    requires below { push.0 < length machine.now.steps }
    requires indexed { IsIndexOf machine.now steps.index.now }
    requires popped { ArePopsIn machine.now.steps (length machine.now.steps) steps.pops.now }
    requires before { All (IsNested machine.now.steps noted.now.pots.now) (take place noted.now.pots.now) }
    requires found { AreFound machine.now.steps noted.now.pots.now found.old.entries }
    ensures found { IfOk result (λ _. AreFound machine.now.steps noted.now.pots.now found.new.entries) }
    ensures nests { IfOk result (λ yes. IsTrue yes ↔ NestsBy machine.now.steps noted.now.pots.now pair push) }
{
    let step = machine.step(push);
    if ways.overtake(machine, noted.pots, place, pair, step) {
        return Ok(true);
    }
    let nests = nests_by(alloc, found, machine, steps, noted, pair, push)?;
    ways.note(place, push, step)?;
    Ok(nests)
}

/// Whether each push from the pair at the place, with each exit of what it enters, leads on.
fn is_nested(
    alloc: Global,
    found: &mut FoundExits,
    ways: &mut Ways,
    machine: &Machine,
    steps: Steps<'_>,
    noted: &Noted,
    place: u64,
    pair: Pot,
) -> Result<bool, NoMemory>
    requires indexed { IsIndexOf machine.now steps.index.now }
    requires popped { ArePopsIn machine.now.steps (length machine.now.steps) steps.pops.now }
    requires within { pair.state.0 < machine.now.states }
    requires before { All (IsNested machine.now.steps noted.now.pots.now) (take place noted.now.pots.now) }
    requires found { AreFound machine.now.steps noted.now.pots.now found.old.entries }
    ensures found { IfOk result (λ _. AreFound machine.now.steps noted.now.pots.now found.new.entries) }
    ensures nests { IfOk result (λ yes. IsTrue yes ↔ IsNested machine.now.steps noted.now.pots.now pair) }
{
    for push in steps.index.pushes(pair.state) {
        let nests = nests_once(
            alloc, found, ways, machine, steps, noted, place, pair, *push,
        )?;
        if !nests {
            return Ok(false);
        }
    }
    Ok(true)
}

/// Each push from each pair, with each exit of what it enters, must lead on.
pub(crate) fn check_nested(
    alloc: Global,
    machine: &Machine,
    index: &Index,
    pots: &Potentials,
    places: &mut [u64],
) -> Result<(), PairFault>
    requires indexed { IsIndexOf machine.now index.now }
    requires within { ArePairsWithin machine.now.states pots.now }
    ensures ok { OnOk result (All (IsNested machine.now.steps pots.now) pots.now) }
    ensures err { (starts : List StateNo) → BeginAtZero starts pots.now → All (IsExtended machine.now.steps pots.now) pots.now → All (IsOpened machine.now.steps pots.now) pots.now
        → IfErr result (IsFaultOf machine.now.steps starts pots.now) }
{
    let pops = pops_by_frame(alloc, machine)?;
    let steps = Steps { index, pops: &pops };
    let mut found = HashMap::new(alloc);
    let mut ways = Ways::new(alloc);
    let pairs = pots.as_slice();
    for place in 0..pairs.len() {
        note_root(places, pairs, place);
        let noted = Noted { pots, places };
        let nested = is_nested(
            alloc,
            &mut found,
            &mut ways,
            machine,
            steps,
            &noted,
            place as u64,
            pairs[place],
        )?;
        if !nested {
            return Err(PairFault::Nests {
                place: place as u64,
            });
        }
    }
    Ok(())
}
