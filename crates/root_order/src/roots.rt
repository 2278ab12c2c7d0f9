ghost use Rattle.std.specs.Prelude.{◌≤◌, IfOk, vec_len};

use crate::components::Components;
use crate::nesting::from_the_inside;
use adapt_machine::{Machine, MachineKind};
use ml_base::{StateNo, StepNo};
use std::alloc::{AllocError, Global};

/// A state that a push enters, and the rank of its component from the inside out.
#[derive(Clone, Copy, PartialEq, Eq, PartialOrd, Ord)]
pub struct RankedRoot {
    rank: u64,
    pub state: StateNo,
}

/// The states that pushes enter and whose components have a rank, by rank and number.
pub fn ranked_roots(alloc: Global, machine: &Machine) -> Result<Vec<RankedRoot>, AllocError>
    ensures { IfOk result (λ roots. vec_len roots ≤ machine.now.states) }
{
    let components = Components::new(alloc, machine)?;
    let order = from_the_inside(alloc, machine, &components)?;
    let ranks = ranks_of(alloc, machine.states(), order.as_slice())?;
    let entered = entered_states(alloc, machine)?;
    let mut roots = Vec::new(alloc);
    for number in 0..machine.states() {
        let state = StateNo(number);
        if let Some(rank) = rank_of_root(state, &components, ranks.as_slice(), entered.as_slice()) {
            roots.push(RankedRoot { rank, state })?;
        }
    }
    roots.sort_unstable();
    Ok(roots)
}

/// For each component its place in the order, if it has one.
fn ranks_of(alloc: Global, states: u64, order: &[u64]) -> Result<Vec<Option<u64>>, AllocError> {
    let mut ranks = vec![in alloc; None; states as usize]?;
    for (place, component) in order.iter().enumerate() {
        if let Some(rank) = ranks.get_mut(*component as usize) {
            *rank = Some(place as u64);
        }
    }
    Ok(ranks)
}

/// For each state whether a push enters it.
fn entered_states(alloc: Global, machine: &Machine) -> Result<Vec<bool>, AllocError> {
    let mut entered = vec![in alloc; false; machine.states() as usize]?;
    for number in 0..machine.steps() {
        let step = machine.step(StepNo(number));
        if step.kind == MachineKind::Push {
            mark(&mut entered, step.to);
        }
    }
    Ok(entered)
}

fn mark(entered: &mut [bool], state: StateNo) {
    if let Some(place) = entered.get_mut(state.0 as usize) {
        *place = true;
    }
}

/// The rank of the state's component, if it has one and a push enters the state.
fn rank_of_root(
    state: StateNo,
    components: &Components,
    ranks: &[Option<u64>],
    entered: &[bool],
) -> Option<u64> {
    if entered.get(state.0 as usize).copied() != Some(true) {
        return None;
    }
    ranks
        .get(components.of(state) as usize)
        .copied()
        .unwrap_or(None)
}
