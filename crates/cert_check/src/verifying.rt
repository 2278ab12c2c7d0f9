ghost use Rattle.std.specs.Prelude.{◌≡◌, IfErr, IfOk};
ghost use Rattle.circuit_spec.specs.Faults.{IsKnown, IsSound};
ghost use Rattle.answer_spec.specs.Bounds.{BoundsWalks};
ghost use Rattle.answer_spec.specs.Certificate.{Certificate};
ghost use Rattle.answer_spec.specs.WellFormed.{IsWellFormed};
ghost use Rattle.machine_lift.specs.Lift.{IsMachineOf};
ghost use Rattle.verdict.specs.Faults.{TellsFirst};

use crate::lines::fault_at;
use answer_spec::{Answer, certificates_bound_walks};
use circuit_spec::{Outcome, Request};
use hop_check::check_hops;
use kept_table::kept_of;
use machine_build::{Built, build};
use ml_base::NoMemory;
use nml_inventory::Inventory;
use potential_check::check_potentials;
use std::alloc::Global;
use verdict::{CheckFault, parts_make_the_whole};

/// The machine of a known request.
fn machine_of(alloc: Global, inventory: &Inventory, request: &Request) -> Result<Built, NoMemory>
    requires sound { IsSound inventory.now }
    requires known { IsKnown inventory.now request.now }
    ensures { IfOk result (IsMachineOf inventory.now request.now) }
{
    let kept = kept_of(alloc, inventory, request)?;
    build(alloc, inventory, &kept, request)
}

/// The outcome of an answer that is a certificate. What it says then bounds all walks.
///
/// # Errors
///
/// The first rule that fails, with the first line of the document at which it fails; or want of memory.
pub fn verify(alloc: Global, inventory: &Inventory, answer: &Answer) -> Result<Outcome, CheckFault>
    requires sound { IsSound inventory.now }
    requires formed { IsWellFormed answer.now }
    ensures certified { IfOk result (λ outcome. (outcome ≡ answer.now.outcome) × Certificate inventory.now answer.now) }
    ensures bounds { IfOk result (λ outcome. BoundsWalks inventory.now answer.now.request outcome answer.now.hops) }
    ensures fault { IfErr result (TellsFirst inventory.now answer.now) }
{
    certificates_bound_walks();
    parts_make_the_whole();
    check_hops(alloc, inventory, answer)?;
    let built = machine_of(alloc, inventory, &answer.request)?;
    match check_potentials(alloc, &built, answer) {
        Ok(()) => Ok(answer.outcome),
        Err(fault) => Err(fault_at(answer, fault)),
    }
}
