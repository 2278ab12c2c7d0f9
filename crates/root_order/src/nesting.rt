use crate::components::Components;
use adapt_machine::{Machine, MachineKind};
use ml_base::StepNo;
use std::alloc::{AllocError, Global};

/// That a push leads from a component, the outer one, into another or itself.
#[derive(Clone, Copy, PartialEq, Eq, PartialOrd, Ord)]
struct Nesting {
    inner: u64,
    outer: u64,
}

/// The components that pushes lead into or out of, innermost first: each behind all that its pushes enter. Those on a cycle of
/// pushes, and those from which pushes lead to a cycle, are left out.
pub fn from_the_inside(
    alloc: Global,
    machine: &Machine,
    components: &Components,
) -> Result<Vec<u64>, AllocError> {
    let nestings = nestings_of(alloc, machine, components)?;
    let mut waits = waits_of(alloc, machine.states(), nestings.as_slice())?;
    let mut order = innermost(alloc, nestings.as_slice(), waits.as_slice())?;
    for place in 0..waits.len() {
        let Some(inner) = order.get(place).copied() else {
            return Ok(order);
        };
        release(nestings.as_slice(), inner, &mut waits, &mut order)?;
    }
    Ok(order)
}

/// How the components nest, each pair once, by the inner one.
fn nestings_of(
    alloc: Global,
    machine: &Machine,
    components: &Components,
) -> Result<Vec<Nesting>, AllocError> {
    let mut nestings = Vec::new(alloc);
    for number in 0..machine.steps() {
        let step = machine.step(StepNo(number));
        if step.kind == MachineKind::Push {
            let inner = components.of(step.to);
            let outer = components.of(step.from);
            add_nesting(&mut nestings, Nesting { inner, outer })?;
        }
    }
    nestings.sort_unstable();
    nestings.dedup();
    Ok(nestings)
}

/// Adds a pair that is not the last one: pushes that follow one another are often of the same two components, so the list
/// stays short.
fn add_nesting(nestings: &mut Vec<Nesting>, nesting: Nesting) -> Result<(), AllocError> {
    if nestings.last().copied() == Some(nesting) {
        return Ok(());
    }
    nestings.push(nesting)?;
    Ok(())
}

/// For each component the number of those that come before it.
fn waits_of(alloc: Global, states: u64, nestings: &[Nesting]) -> Result<Vec<u64>, AllocError> {
    let mut waits = vec![in alloc; 0u64; states as usize]?;
    for nesting in nestings {
        if let Some(count) = waits.get_mut(nesting.outer as usize) {
            *count = count.saturating_add(1);
        }
    }
    Ok(waits)
}

/// The components that pushes enter and that wait for none.
fn innermost(alloc: Global, nestings: &[Nesting], waits: &[u64]) -> Result<Vec<u64>, AllocError> {
    let mut found = Vec::new(alloc);
    for nesting in nestings {
        let waits_for = waits.get(nesting.inner as usize).copied();
        if waits_for == Some(0) && found.last().copied() != Some(nesting.inner) {
            found.push(nesting.inner)?;
        }
    }
    Ok(found)
}

/// Adds the components that waited for this one last.
fn release(
    nestings: &[Nesting],
    inner: u64,
    waits: &mut [u64],
    order: &mut Vec<u64>,
) -> Result<(), AllocError> {
    for nesting in around(nestings, inner) {
        if count_down(waits, nesting.outer) {
            order.push(nesting.outer)?;
        }
    }
    Ok(())
}

/// The nestings whose inner component this is.
fn around(nestings: &[Nesting], inner: u64) -> &[Nesting] {
    let first = nestings.partition_point(|nesting| nesting.inner < inner);
    let from_first = &nestings[first..];
    let count = from_first.partition_point(|nesting| nesting.inner <= inner);
    &from_first[..count]
}

/// Counts one that the component no longer waits for, and answers whether it was the last.
fn count_down(waits: &mut [u64], component: u64) -> bool {
    let Some(count) = waits.get_mut(component as usize) else {
        return false;
    };
    *count = count.saturating_sub(1);
    *count == 0
}
