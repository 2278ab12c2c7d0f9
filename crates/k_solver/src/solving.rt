ghost use Rattle.std.specs.Prelude.{◌<◌, IfOk, IfErr};
ghost use Rattle.std.specs.List.{Contains};
ghost use Rattle.ml_base.specs.declared.numbers.StateNo.{StateNo};
ghost use Rattle.circuit_spec.specs.declared.hops.TheConstants.{HOP_LIMIT as THE_LIMIT};
ghost use Rattle.circuit_spec.specs.Faults.{IsKnown, IsSound};
ghost use Rattle.k_answers.specs.KAnswers.{IsKAnswer};
ghost use Rattle.k_cheapest.specs.KLists.{IsKList};
ghost use Rattle.finder_core.specs.Refusals.{IsRefusal};

use crate::listing::list_walks;
use circuit_spec::{HOP_LIMIT, Request};
use finder_core::{SolveFault, check_known, machine_of};
use k_answers::KAnswer;
use k_cheapest::{KFound, k_best};
use machine_build::Built;
use ml_base::NoMemory;
use nml_inventory::Inventory;
use segment_grammar::Index;
use std::alloc::Global;

/// The cheapest walks of a machine.
fn best_of(alloc: Global, built: &Built, k: u32) -> Result<KFound, NoMemory>
    requires { (a : StateNo) → Contains built.now.starts a → a.0 < built.now.machine.states }
    ensures { IfOk result (λ f. IsKList built.now.machine.steps built.now.starts built.now.targets k THE_LIMIT f.walks f.end) }
{
    let machine = built.machine();
    let starts = built.starts();
    let targets = built.targets();
    let index = Index::new(alloc, machine)?;
    k_best(alloc, machine, &index, starts, targets, k, HOP_LIMIT)
}

/// The cheapest walks of a known request.
fn solve_known(
    alloc: Global,
    inventory: &Inventory,
    request: &Request,
    k: u32,
) -> Result<KAnswer, NoMemory>
    requires sound { IsSound inventory.now }
    requires known { IsKnown inventory.now request.now }
    ensures { IfOk result (IsKAnswer inventory.now request.now k) }
{
    let built = machine_of(alloc, inventory, request)?;
    let found = best_of(alloc, &built, k)?;
    let walks = list_walks(alloc, inventory, request, &built, found.walks.as_slice())?;
    let request = request.share()?;
    let end = found.end;
    Ok(KAnswer {
        request,
        walks,
        end,
    })
}

/// The `k` cheapest walks of a request over kept labels, each with its weight, and why there are no more of them. None is listed that
/// costs 2^64 or more, or that has more hops than the limit.
///
/// # Errors
///
/// `UnknownPort` where FROM or else TO is no port, `LabelNotHere` where the label that is stated at FROM or else at TO is not in the
/// set of its port's class, and `NoMemory`.
pub fn k_solve(
    alloc: Global,
    inventory: &Inventory,
    request: &Request,
    k: u32,
) -> Result<KAnswer, SolveFault>
    requires sound { IsSound inventory.now }
    ensures answer { IfOk result (IsKAnswer inventory.now request.now k) }
    ensures fault { IfErr result (IsRefusal inventory.now request.now) }
{
    if let Err(fault) = check_known(inventory, request) {
        return Err(fault);
    }
    let answer = solve_known(alloc, inventory, request, k)?;
    Ok(answer)
}
