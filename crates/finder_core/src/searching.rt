ghost use Rattle.std.specs.Prelude.{◌≡◌, ◌<◌, [], IfOk};
ghost use Rattle.std.specs.List.{Contains};
ghost use Rattle.ml_base.specs.declared.numbers.StateNo.{StateNo};
ghost use Rattle.circuit_spec.specs.Faults.{IsKnown, IsSound};
ghost use Rattle.deriv_arena.specs.Derivation.{kept_weight, unfolding_of, IsOver};
ghost use Rattle.knuth_search.specs.Settled.{ArePotentials, IsSettledOf};
ghost use Rattle.machine_lift.specs.Lift.{IsMachineOf};
ghost use Rattle.finder_core.specs.Outcomes.{IsCheapestWalk, IsTold, outcome_of};

use crate::listing::{Listed, list_walk};
use answer_spec::FlagList;
use bumpalo::Bump;
use circuit_spec::{HOP_LIMIT, HopList, Outcome, Request};
use deriv_arena::Deriv;
use knuth_search::{Settled, search};
use machine_build::Built;
use ml_base::{NoMemory, Weight};
use nml_inventory::Inventory;
use segment_grammar::{Index, Potentials};
use std::alloc::Global;

/// The outcome of a request, and a cheapest walk where it is found.
#[derive(Drop)]
pub struct Told {
    pub outcome: Outcome,
    pub walk: Listed,
}

/// What a search of the machine of a request finds.
#[derive(Drop)]
pub struct Searched {
    pub told: Told,
    pub potentials: Potentials,
}

/// The outcome where this is the least weight of a walk.
fn outcome_of(weight: Weight) -> Outcome
    ensures { result ≡ outcome_of weight }
{
    match weight {
        Weight::Past => Outcome::Past,
        Weight::Known { cost, hops } => {
            if hops > HOP_LIMIT {
                return Outcome::Long { cost, hops };
            }
            Outcome::Found { cost, hops }
        }
    }
}

/// The outcome, with no walk.
fn unlisted(alloc: Global, outcome: Outcome) -> Told
    ensures outcome { result.outcome ≡ outcome }
    ensures hops { result.walk.hops ≡ [] }
    ensures flags { result.walk.flags ≡ [] }
{
    Told {
        outcome,
        walk: Listed {
            hops: HopList::new(alloc),
            flags: FlagList::new(alloc),
        },
    }
}

/// The outcome where this derivation is of a cheapest walk.
fn tell(
    alloc: Global,
    inventory: &Inventory,
    request: &Request,
    built: &Built,
    deriv: &Deriv<'_>,
) -> Result<Told, NoMemory>
    requires known { IsKnown inventory.now request.now }
    requires built { IsMachineOf inventory.now request.now built.now }
    requires over { IsOver built.now.machine.steps deriv.now }
    requires cheapest { IsCheapestWalk inventory.now request.now built.now (kept_weight deriv.now) (unfolding_of deriv.now) }
    ensures { IfOk result (λ told. IsTold inventory.now request.now told.outcome told.walk.hops told.walk.flags) }
{
    match outcome_of(deriv.weight()) {
        Outcome::Found { cost, hops } => {
            let walk = list_walk(alloc, inventory, request, built, deriv)?;
            Ok(Told {
                outcome: Outcome::Found { cost, hops },
                walk,
            })
        }
        outcome => Ok(unlisted(alloc, outcome)),
    }
}

/// The cheapest segments of a machine. Their derivations lie in the arena; the index is given up.
fn segments_of<'a>(alloc: Global, built: &Built, arena: &'a Bump) -> Result<Settled<'a>, NoMemory>
    requires { (a : StateNo) → Contains built.now.starts a → a.0 < built.now.machine.states }
    ensures { IfOk result (IsSettledOf built.now.machine built.now.starts) }
{
    let machine = built.machine();
    let starts = built.starts();
    let index = Index::new(alloc, machine)?;
    search(alloc, machine, &index, starts, arena)
}

/// Searches the machine of a request. The arena with all derivations is given up.
pub fn search_machine(
    alloc: Global,
    inventory: &Inventory,
    request: &Request,
    built: &Built,
) -> Result<Searched, NoMemory>
    requires sound { IsSound inventory.now }
    requires known { IsKnown inventory.now request.now }
    requires built { IsMachineOf inventory.now request.now built.now }
    ensures told { IfOk result (λ s. IsTold inventory.now request.now s.told.outcome s.told.walk.hops s.told.walk.flags) }
    ensures potentials { IfOk result (λ s. ArePotentials built.now.machine.steps built.now.starts s.potentials) }
{
    let targets = built.targets();
    let arena = Bump::new(alloc);
    let settled = segments_of(alloc, built, &arena)?;
    let Some(deriv) = settled.best(targets) else {
        return Ok(Searched {
            told: unlisted(alloc, Outcome::NoWalk),
            potentials: settled.into_potentials(),
        });
    };
    let told = tell(alloc, inventory, request, built, deriv)?;
    Ok(Searched {
        told,
        potentials: settled.into_potentials(),
    })
}
