ghost use Rattle.std.specs.Prelude.{◌↔◌, ◌<◌, IsTrue, List, length, IfErr, OnOk};
ghost use Rattle.std.specs.List.{All};
ghost use Rattle.ml_base.specs.declared.numbers.StateNo.{StateNo};
ghost use Rattle.segment_grammar.specs.Index.{IsIndexOf};
ghost use Rattle.pair_check.specs.Exits.{EntersRoot};
ghost use Rattle.pair_check.specs.Rules.{ArePairsWithin, BeginAtZero, HasRoot, IsExtended, IsFaultOf, IsOpened};

use crate::fault::PairFault;
use crate::listing::is_listed_at_zero;
use adapt_machine::Machine;
use ml_base::{Root, StepNo};
use segment_grammar::{Index, Pot, Potentials};

/// Whether the step enters a listed root, where each listed root is listed at itself.
fn enters_root(machine: &Machine, pots: &Potentials, step: StepNo) -> bool
    requires below { step.0 < length machine.now.steps }
    requires roots { All (HasRoot pots.now) pots.now }
    ensures { IsTrue result ↔ EntersRoot machine.now.steps pots.now step }
{
    let entered = machine.step(step).to;
    is_listed_at_zero(pots, Root::Entry(entered), entered)
}

/// Whether each of the steps enters a listed root.
fn all_enter_roots(machine: &Machine, pots: &Potentials, steps: &[StepNo]) -> bool
    requires below { All (λ step. step.0 < length machine.now.steps) steps.now }
    requires roots { All (HasRoot pots.now) pots.now }
    ensures { IsTrue result ↔ All (EntersRoot machine.now.steps pots.now) steps.now }
{
    for step in steps {
        if !enters_root(machine, pots, *step) {
            return false;
        }
    }
    true
}

/// Whether each push from the pair enters a listed root.
fn is_opened(machine: &Machine, index: &Index, pots: &Potentials, pair: Pot) -> bool
    requires indexed { IsIndexOf machine.now index.now }
    requires within { pair.state.0 < machine.now.states }
    requires roots { All (HasRoot pots.now) pots.now }
    ensures { IsTrue result ↔ IsOpened machine.now.steps pots.now pair }
{
    all_enter_roots(machine, pots, index.pushes(pair.state))
}

/// Each push from each pair must enter a listed root.
pub(crate) fn check_opened(
    machine: &Machine,
    index: &Index,
    pots: &Potentials,
) -> Result<(), PairFault>
    requires indexed { IsIndexOf machine.now index.now }
    requires within { ArePairsWithin machine.now.states pots.now }
    requires roots { All (HasRoot pots.now) pots.now }
    ensures ok { OnOk result (All (IsOpened machine.now.steps pots.now) pots.now) }
    ensures err { (starts : List StateNo) → BeginAtZero starts pots.now → All (IsExtended machine.now.steps pots.now) pots.now → IfErr result (IsFaultOf machine.now.steps starts pots.now) }
{
    let pairs = pots.as_slice();
    for place in 0..pairs.len() {
        if !is_opened(machine, index, pots, pairs[place]) {
            return Err(PairFault::Opens {
                place: place as u64,
            });
        }
    }
    Ok(())
}
