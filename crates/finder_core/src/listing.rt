ghost use Rattle.std.specs.Prelude.{◌≡◌, ◌<◌, IfOk, length};
ghost use Rattle.std.specs.List.{AllByRecursion};
ghost use Rattle.deriv_arena.specs.Derivation.{kept_weight, unfolding_of, IsOver};
ghost use Rattle.machine_lift.specs.Lift.{AreHopsAt, IsMachineOf};
ghost use Rattle.finder_core.specs.Outcomes.{AddsHop, IsListable};
ghost use Rattle.finder_core.specs.Passing.{AddsFlag, flags_of};

use crate::flagging::{add_flag, begin_visits};
use answer_spec::FlagList;
use circuit_spec::{HOP_LIMIT, HopList, Request};
use deriv_arena::Deriv;
use machine_build::Built;
use ml_base::{NoMemory, StepNo};
use nml_inventory::Inventory;
use repeat_flags::Flags;
use route_unfold::{Unfold, UnfoldFault};
use std::alloc::Global;

/// A walk as an answer lists it: its hops, and a flag for each.
#[derive(Drop)]
pub struct Listed {
    pub hops: HopList,
    pub flags: FlagList,
}

/// The steps of a derivation whose weight is within the hop limit.
fn steps_of(alloc: Global, built: &Built, deriv: &Deriv<'_>) -> Result<Unfold, NoMemory>
    requires over { IsOver built.now.machine.steps deriv.now }
    requires within { IsListable (kept_weight deriv.now) }
    ensures { IfOk result (λ steps. steps ≡ unfolding_of deriv.now) }
{
    match Unfold::new(alloc, built.machine(), deriv, HOP_LIMIT) {
        Ok(steps) => Ok(steps),
        Err(UnfoldFault::NoMemory) => Err(NoMemory),
        Err(UnfoldFault::Past) => unreachable!(),
        Err(UnfoldFault::Long { .. }) => unreachable!(),
    }
}

/// Adds the hop of a step, and its flag.
fn add_step(
    inventory: &Inventory,
    request: &Request,
    built: &Built,
    visited: &mut Flags,
    listed: &mut Listed,
    step: StepNo,
) -> Result<(), NoMemory>
    requires built { IsMachineOf inventory.now request.now built.now }
    requires within { step.0 < length built.now.machine.steps }
    requires room { length visited.old ≡ built.now.machine.states }
    ensures hop { IfOk result (λ _. AddsHop inventory.now built.now step.0 listed.old.hops listed.new.hops) }
    ensures flag { IfOk result (λ _. AddsFlag built.now.machine.steps step.0 (length listed.new.hops) visited.old listed.old.flags visited.new listed.new.flags) }
{
    let hop = built.hop(inventory, step)?;
    listed.hops.push(hop)?;
    let number = listed.hops.len();
    add_flag(built, visited, &mut listed.flags, number, step)?;
    Ok(())
}

/// The hops of the steps of a derivation whose weight is within the hop limit, and their flags.
pub fn list_walk(
    alloc: Global,
    inventory: &Inventory,
    request: &Request,
    built: &Built,
    deriv: &Deriv<'_>,
) -> Result<Listed, NoMemory>
    requires built { IsMachineOf inventory.now request.now built.now }
    requires over { IsOver built.now.machine.steps deriv.now }
    requires within { IsListable (kept_weight deriv.now) }
    requires steps { AllByRecursion (λ k. k < length built.now.machine.steps) (unfolding_of deriv.now) }
    ensures hops { IfOk result (λ walk. AreHopsAt inventory.now built.now (unfolding_of deriv.now) walk.hops) }
    ensures flags { IfOk result (λ walk. walk.flags ≡ flags_of built.now.machine.steps (unfolding_of deriv.now)) }
{
    let mut listed = Listed {
        hops: HopList::new(alloc),
        flags: FlagList::new(alloc),
    };
    let mut steps = steps_of(alloc, built, deriv)?;
    let Some(first) = steps.next() else {
        return Ok(listed);
    };
    let mut visited = begin_visits(alloc, built, first)?;
    add_step(inventory, request, built, &mut visited, &mut listed, first)?;
    for step in steps {
        add_step(inventory, request, built, &mut visited, &mut listed, step)?;
    }
    Ok(listed)
}
