ghost use Rattle.std.specs.Prelude.{◌≡◌, ◌↔◌, ◌+◌, ◌<◌, ◌^◌, ◌++◌, ◌∷◌, [], IsTrue, length, map, IfOk};
ghost use Rattle.adapt_machine.specs.declared.MachineKind.TheVariants.{Pop};
ghost use Rattle.adapt_machine.specs.Machine.{MachineValue};
ghost use Rattle.segment_grammar.specs.Index.{IsIndexOf};
ghost use Rattle.pair_check.specs.Exits.{AddsExitBy, AddsExits, AreExitsBy, AreExitsFrom, AreExitsOf, AreFound, ArePopsIn, IsFoundAt, exit_of};

use crate::listing::weight_of;
use crate::pops::Steps;
use crate::under::under;
use adapt_machine::{Machine, MachineKind, MachineStep};
use ml_base::{FrameNo, NoMemory, Root, StateNo, StepNo, Weight};
use segment_grammar::{Index, Pot, Potentials};
use std::alloc::Global;
use std::collections::HashMap;

/// Where what is entered comes out again: the weight of a pair of the root, and a pop at its state.
#[derive(Clone, Copy, Debug, PartialEq, Eq)]
pub struct Exit {
    pub inner: Weight,
    pub pop: StepNo,
}

/// The exits that are found, by the entered state and the frame.
pub type FoundExits = HashMap<(u64, u64), Vec<Exit>>;

/// Adds an exit for each of the pops.
fn push_exits(exits: &mut Vec<Exit>, inner: Weight, pops: &[StepNo]) -> Result<(), NoMemory>
    ensures { IfOk result (λ _. exits.new.items ≡ exits.old.items ++ map (exit_of inner) pops.now) }
{
    for pop in pops {
        if exits.push(Exit { inner, pop: *pop }).is_err() {
            return Err(NoMemory);
        }
    }
    Ok(())
}

/// Adds the exits of the pair.
fn add_exits(
    exits: &mut Vec<Exit>,
    index: &Index,
    pair: &Pot,
    frame: FrameNo,
) -> Result<(), NoMemory>
    ensures { (machine : MachineValue) → IsIndexOf machine index.now → IfOk result (λ _. AddsExits machine.steps pair.now frame exits.old.items exits.new.items) }
{
    push_exits(exits, pair.weight, index.pops(pair.state, frame))?;
    Ok(())
}

/// The exits of the pairs.
fn exits_of(
    alloc: Global,
    index: &Index,
    pairs: &[Pot],
    frame: FrameNo,
) -> Result<Vec<Exit>, NoMemory>
    ensures { (machine : MachineValue) → IsIndexOf machine index.now → IfOk result (λ exits. AreExitsOf machine.steps pairs.now frame exits.items) }
{
    let mut exits = Vec::new(alloc);
    for pair in pairs {
        add_exits(&mut exits, index, pair, frame)?;
    }
    Ok(exits)
}

/// Adds an exit.
fn push_exit(exits: &mut Vec<Exit>, exit: Exit) -> Result<(), NoMemory>
    ensures { IfOk result (λ _. exits.new.items ≡ exits.old.items ++ exit ∷ []) }
{
    if exits.push(exit).is_err() {
        return Err(NoMemory);
    }
    Ok(())
}

/// Whether the step takes the frame off.
fn is_pop_of(step: MachineStep, frame: FrameNo) -> bool
    ensures { IsTrue result ↔ (step.kind ≡ Pop × step.frame ≡ frame) }
{
    step.kind == MachineKind::Pop && step.frame == frame
}

/// Adds the exit by the pop, if it takes the frame off at a pair of the root that is entered.
fn add_exit_by(
    exits: &mut Vec<Exit>,
    machine: &Machine,
    pots: &Potentials,
    entered: StateNo,
    frame: FrameNo,
    pop: StepNo,
) -> Result<(), NoMemory>
    ensures { IfOk result (λ _. AddsExitBy machine.now.steps pots.now entered frame pop exits.old.items exits.new.items) }
{
    if pop.0 >= machine.steps() {
        return Ok(());
    }
    let step = machine.step(pop);
    if !is_pop_of(step, frame) {
        return Ok(());
    }
    let Some(inner) = weight_of(pots, Root::Entry(entered), step.from) else {
        return Ok(());
    };
    push_exit(exits, Exit { inner, pop })?;
    Ok(())
}

/// The exits by the pops.
fn exits_by(
    alloc: Global,
    machine: &Machine,
    pots: &Potentials,
    entered: StateNo,
    frame: FrameNo,
    pops: &[StepNo],
) -> Result<Vec<Exit>, NoMemory>
    ensures { IfOk result (λ exits. AreExitsBy machine.now.steps pots.now entered frame pops.now exits.items) }
{
    let mut exits = Vec::new(alloc);
    for pop in pops {
        add_exit_by(&mut exits, machine, pots, entered, frame, *pop)?;
    }
    Ok(exits)
}

/// The exits of what is entered at the state with the frame, from the pops of the frame or from the pairs of the root, by which are fewer.
fn exits_from(
    alloc: Global,
    machine: &Machine,
    steps: Steps<'_>,
    pots: &Potentials,
    entered: StateNo,
    frame: FrameNo,
) -> Result<Vec<Exit>, NoMemory>
    requires entered { entered.0 + 1 < 2 ^ 64 }
    requires indexed { IsIndexOf machine.now steps.index.now }
    requires popped { ArePopsIn machine.now.steps (length machine.now.steps) steps.pops.now }
    ensures { IfOk result (λ exits. AreExitsFrom machine.now.steps pots.now entered frame exits.items) }
{
    let pops = steps.pops.row(frame.0);
    let pairs = under(pots, entered);
    if pops.len() < pairs.len() {
        let exits = exits_by(alloc, machine, pots, entered, frame, pops)?;
        return Ok(exits);
    }
    let exits = exits_of(alloc, steps.index, pairs, frame)?;
    Ok(exits)
}

/// Finds the exits of what is entered at the state with the frame, where they are not found yet.
pub(crate) fn find_exits(
    alloc: Global,
    found: &mut FoundExits,
    machine: &Machine,
    steps: Steps<'_>,
    pots: &Potentials,
    entered: StateNo,
    frame: FrameNo,
) -> Result<(), NoMemory>
    requires entered { entered.0 + 1 < 2 ^ 64 }
    requires indexed { IsIndexOf machine.now steps.index.now }
    requires popped { ArePopsIn machine.now.steps (length machine.now.steps) steps.pops.now }
    requires found { AreFound machine.now.steps pots.now found.old.entries }
    ensures found { IfOk result (λ _. AreFound machine.now.steps pots.now found.new.entries) }
    ensures here { IfOk result (λ _. IsFoundAt found.new.entries entered.0 frame.0) }
{
    if found.contains_key(&(entered.0, frame.0)) {
        return Ok(());
    }
    let exits = exits_from(alloc, machine, steps, pots, entered, frame)?;
    match found.insert((entered.0, frame.0), exits) {
        Ok(_) => Ok(()),
        Err(_) => Err(NoMemory),
    }
}
