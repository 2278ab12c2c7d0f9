//! The weights of all walks of small machines that have no more hops than a limit, by taking each step wherever it can be taken. It knows
//! no pairs, no segments and no order.
use adapt_machine::{Machine, MachineKind, MachineStep};
use ml_base::{FrameNo, NoMemory, StateNo, StepNo, Weight};
use std::alloc::Global;

/// Where a run has come to.
#[derive(Drop)]
struct Place {
    state: StateNo,
    stack: Vec<FrameNo>,
    weight: Weight,
}

/// What the step does to the stack, or None where it cannot be taken.
fn stack_after(
    alloc: Global,
    stack: &[FrameNo],
    step: MachineStep,
) -> Result<Option<Vec<FrameNo>>, NoMemory> {
    let Ok(mut after) = Vec::from_slice(alloc, stack) else {
        return Err(NoMemory);
    };
    if step.kind == MachineKind::Push && after.push(step.frame).is_err() {
        return Err(NoMemory);
    }
    if step.kind == MachineKind::Pop && after.pop() != Some(step.frame) {
        return Ok(None);
    }
    Ok(Some(after))
}

/// Adds where the step leads from the place.
fn follow(
    alloc: Global,
    next: &mut Vec<Place>,
    place: &Place,
    step: MachineStep,
) -> Result<(), NoMemory> {
    if step.from != place.state {
        return Ok(());
    }
    let Some(stack) = stack_after(alloc, place.stack.as_slice(), step)? else {
        return Ok(());
    };
    let after = Place {
        state: step.to,
        stack,
        weight: place.weight.plus(Weight::known(step.cost, 1)),
    };
    if next.push(after).is_err() {
        return Err(NoMemory);
    }
    Ok(())
}

/// Where one more step leads.
fn one_further(alloc: Global, machine: &Machine, places: &[Place]) -> Result<Vec<Place>, NoMemory> {
    let mut next = Vec::new(alloc);
    for place in places {
        for number in 0..machine.steps() {
            follow(alloc, &mut next, place, machine.step(StepNo(number)))?;
        }
    }
    Ok(next)
}

fn note(found: &mut Vec<Weight>, places: &[Place], target: StateNo) -> Result<(), NoMemory> {
    for place in places {
        if place.state == target && place.stack.is_empty() && found.push(place.weight).is_err() {
            return Err(NoMemory);
        }
    }
    Ok(())
}

/// The weights of the walks, in order.
pub fn weights(
    alloc: Global,
    machine: &Machine,
    start: StateNo,
    target: StateNo,
    limit: u64,
) -> Result<Vec<Weight>, NoMemory> {
    let mut found = Vec::new(alloc);
    let mut places = Vec::new(alloc);
    let first = Place {
        state: start,
        stack: Vec::new(alloc),
        weight: Weight::zero(),
    };
    if places.push(first).is_err() {
        return Err(NoMemory);
    }
    note(&mut found, places.as_slice(), target)?;
    for _hop in 0..limit {
        places = one_further(alloc, machine, places.as_slice())?;
        note(&mut found, places.as_slice(), target)?;
    }
    found.sort_unstable();
    Ok(found)
}
