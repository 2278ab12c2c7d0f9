ghost use Rattle.std.specs.Prelude.{◌<◌, IfOk, length};
ghost use Rattle.std.specs.List.{All};
ghost use Rattle.ml_base.specs.declared.numbers.StepNo.{StepNo as TheStep};
ghost use Rattle.k_cheapest.specs.KLists.{numbers_of};
ghost use Rattle.finder_core.specs.Outcomes.{AddsHop};
ghost use Rattle.machine_lift.specs.Lift.{AreHopsAt, IsMachineOf};
ghost use Rattle.k_solver.specs.Walks.{AreWithin, AreWalksOf, AddsWalk};

use circuit_spec::{HopList, Request};
use k_answers::{KHops, KHopsList};
use k_cheapest::KWalk;
use machine_build::Built;
use ml_base::{NoMemory, StepNo};
use nml_inventory::Inventory;
use std::alloc::Global;

/// Adds the hop of a step.
fn add_hop(
    inventory: &Inventory,
    request: &Request,
    built: &Built,
    hops: &mut HopList,
    step: StepNo,
) -> Result<(), NoMemory>
    requires built { IsMachineOf inventory.now request.now built.now }
    requires within { step.0 < length built.now.machine.steps }
    ensures { IfOk result (λ _. AddsHop inventory.now built.now step.0 hops.old hops.new) }
{
    let hop = built.hop(inventory, step)?;
    hops.push(hop)?;
    Ok(())
}

/// The hops of steps.
fn hops_of(
    alloc: Global,
    inventory: &Inventory,
    request: &Request,
    built: &Built,
    steps: &[StepNo],
) -> Result<HopList, NoMemory>
    requires built { IsMachineOf inventory.now request.now built.now }
    requires within { All (λ (k : TheStep). k.0 < length built.now.machine.steps) steps.now }
    ensures { IfOk result (AreHopsAt inventory.now built.now (numbers_of steps.now)) }
{
    let mut hops = HopList::new(alloc);
    for step in steps {
        add_hop(inventory, request, built, &mut hops, *step)?;
    }
    Ok(hops)
}

/// Adds a walk by its hops, with its weight.
fn add_walk(
    alloc: Global,
    inventory: &Inventory,
    request: &Request,
    built: &Built,
    walks: &mut KHopsList,
    walk: &KWalk,
) -> Result<(), NoMemory>
    requires built { IsMachineOf inventory.now request.now built.now }
    requires within { All (λ (k : TheStep). k.0 < length built.now.machine.steps) walk.now.steps }
    ensures { IfOk result (λ _. AddsWalk inventory.now built.now walk.now walks.old walks.new) }
{
    let hops = hops_of(alloc, inventory, request, built, walk.steps.as_slice())?;
    let weight = walk.weight;
    walks.push(KHops { weight, hops })?;
    Ok(())
}

/// The walks by their hops, in the same order.
pub fn list_walks(
    alloc: Global,
    inventory: &Inventory,
    request: &Request,
    built: &Built,
    found: &[KWalk],
) -> Result<KHopsList, NoMemory>
    requires built { IsMachineOf inventory.now request.now built.now }
    requires within { AreWithin built.now found.now }
    ensures { IfOk result (AreWalksOf inventory.now built.now found.now) }
{
    let mut walks = KHopsList::new(alloc);
    for walk in found {
        add_walk(alloc, inventory, request, built, &mut walks, walk)?;
    }
    Ok(walks)
}
