ghost use Rattle.std.specs.Prelude.{◌≡◌, IfOk, IfErr};
ghost use Rattle.circuit_spec.specs.Faults.{IsKnown, IsSound};
ghost use Rattle.knuth_search.specs.Settled.{ArePotentials};
ghost use Rattle.answer_spec.specs.Certificate.{Certificate};
ghost use Rattle.answer_spec.specs.Exact.{IsExactAnswer};
ghost use Rattle.answer_spec.specs.Ordered.{IsOrdered};
ghost use Rattle.answer_spec.specs.WellFormed.{IsWellFormed};
ghost use Rattle.machine_lift.specs.Lift.{IsMachineOf};
ghost use Rattle.finder_core.specs.Outcomes.{IsTold};
ghost use Rattle.finder_core.specs.Refusals.{IsRefusal};

use crate::faults::SolveFault;
use crate::known::check_known;
use crate::searching::{Searched, search_machine};
use answer_spec::{Answer, well_formed};
use circuit_spec::Request;
use device_rules::rules_of;
use kept_table::kept_of;
use machine_build::{Built, build};
use ml_base::NoMemory;
use nml_inventory::Inventory;
use potential_lift::potentials_of;
use std::alloc::Global;

/// The machine of a known request.
pub fn machine_of(
    alloc: Global,
    inventory: &Inventory,
    request: &Request,
) -> Result<Built, NoMemory>
    requires sound { IsSound inventory.now }
    requires known { IsKnown inventory.now request.now }
    ensures { IfOk result (IsMachineOf inventory.now request.now) }
{
    let kept = kept_of(alloc, inventory, request)?;
    build(alloc, inventory, &kept, request)
}

/// The answer of what the search has found.
fn answer_of(
    alloc: Global,
    inventory: &Inventory,
    request: &Request,
    built: &Built,
    searched: Searched,
) -> Result<Answer, NoMemory>
    requires known { IsKnown inventory.now request.now }
    requires built { IsMachineOf inventory.now request.now built.now }
    requires told { IsTold inventory.now request.now searched.told.outcome searched.told.walk.hops searched.told.walk.flags }
    requires potentials { ArePotentials built.now.machine.steps built.now.starts searched.potentials }
    ensures request { IfOk result (λ a. a.request ≡ request.now) }
    ensures exact { IfOk result (IsExactAnswer inventory.now) }
{
    let told = searched.told;
    let rules = rules_of(alloc, &told.walk.hops)?;
    let potentials = potentials_of(alloc, built, &searched.potentials)?;
    let request = request.share()?;
    Ok(Answer {
        request,
        outcome: told.outcome,
        hops: told.walk.hops,
        flags: told.walk.flags,
        rules,
        potentials,
    })
}

/// An answer whose parts stand in order has a document, since its ids are ids.
fn know_formed(answer: &Answer)
    requires { IsOrdered answer.now }
    ensures { IsWellFormed answer.now }
{
    if well_formed(answer) {
        return;
    }
    unreachable!()
}

/// The answer to a known request.
fn solve_known(alloc: Global, inventory: &Inventory, request: &Request) -> Result<Answer, NoMemory>
    requires sound { IsSound inventory.now }
    requires known { IsKnown inventory.now request.now }
    ensures request { IfOk result (λ a. a.request ≡ request.now) }
    ensures exact { IfOk result (IsExactAnswer inventory.now) }
    ensures certified { IfOk result (Certificate inventory.now) }
    ensures formed { IfOk result IsWellFormed }
{
    let built = machine_of(alloc, inventory, request)?;
    let searched = search_machine(alloc, inventory, request, &built)?;
    let answer = answer_of(alloc, inventory, request, &built, searched)?;
    know_formed(&answer);
    Ok(answer)
}

/// Answers a request: the outcome, the hops of a cheapest walk with their flags and rules where one is found, and the potentials. The
/// answer has its document and its certificate.
///
/// # Errors
///
/// `UnknownPort` where FROM or else TO is no port, `LabelNotHere` where the label that is stated at FROM or else at TO is not in the
/// set of its port's class, and `NoMemory`.
pub fn solve(alloc: Global, inventory: &Inventory, request: &Request) -> Result<Answer, SolveFault>
    requires sound { IsSound inventory.now }
    ensures request { IfOk result (λ a. a.request ≡ request.now) }
    ensures exact { IfOk result (IsExactAnswer inventory.now) }
    ensures certified { IfOk result (Certificate inventory.now) }
    ensures formed { IfOk result IsWellFormed }
    ensures fault { IfErr result (IsRefusal inventory.now request.now) }
{
    if let Err(fault) = check_known(inventory, request) {
        return Err(fault);
    }
    let answer = solve_known(alloc, inventory, request)?;
    Ok(answer)
}
