ghost use Rattle.std.specs.Prelude.{◌↔◌, ◌<◌, IsTrue, List, length, IfErr, OnOk};
ghost use Rattle.std.specs.List.{All};
ghost use Rattle.ml_base.specs.declared.numbers.StateNo.{StateNo};
ghost use Rattle.segment_grammar.specs.Index.{IsIndexOf};
ghost use Rattle.pair_check.specs.Exits.{LeadsOn};
ghost use Rattle.pair_check.specs.Rules.{ArePairsWithin, BeginAtZero, IsExtended, IsFaultOf};

use crate::fault::PairFault;
use crate::noted::{Noted, note_root};
use adapt_machine::Machine;
use ml_base::{Root, StepNo, Weight};
use segment_grammar::{Index, Pot, Potentials};

/// Whether the end of the step is listed under the root with at most the weight and that of the step.
pub(crate) fn leads_on(
    machine: &Machine,
    noted: &Noted,
    root: Root,
    weight: Weight,
    step: StepNo,
) -> bool
    requires { step.0 < length machine.now.steps }
    ensures { IsTrue result ↔ LeadsOn machine.now.steps noted.now.pots.now root weight step }
{
    let taken = machine.step(step);
    let most = weight.plus(Weight::known(taken.cost, 1));
    noted.is_listed_within(root, taken.to, most)
}

/// Whether each of the steps leads on from the pair.
fn all_lead_on(machine: &Machine, noted: &Noted, pair: Pot, steps: &[StepNo]) -> bool
    requires { All (λ step. step.0 < length machine.now.steps) steps.now }
    ensures { IsTrue result ↔ All (LeadsOn machine.now.steps noted.now.pots.now pair.root pair.weight) steps.now }
{
    for step in steps {
        if !leads_on(machine, noted, pair.root, pair.weight, *step) {
            return false;
        }
    }
    true
}

/// Whether each flat step leads from the pair to one that is listed with at most the sum.
fn is_extended(machine: &Machine, index: &Index, noted: &Noted, pair: Pot) -> bool
    requires indexed { IsIndexOf machine.now index.now }
    requires within { pair.state.0 < machine.now.states }
    ensures { IsTrue result ↔ IsExtended machine.now.steps noted.now.pots.now pair }
{
    all_lead_on(machine, noted, pair, index.flats(pair.state))
}

/// Each flat step from each pair must lead on.
pub(crate) fn check_extended(
    machine: &Machine,
    index: &Index,
    pots: &Potentials,
    places: &mut [u64],
) -> Result<(), PairFault>
    requires indexed { IsIndexOf machine.now index.now }
    requires within { ArePairsWithin machine.now.states pots.now }
    ensures ok { OnOk result (All (IsExtended machine.now.steps pots.now) pots.now) }
    ensures err { (starts : List StateNo) → BeginAtZero starts pots.now → IfErr result (IsFaultOf machine.now.steps starts pots.now) }
{
    let pairs = pots.as_slice();
    for place in 0..pairs.len() {
        note_root(places, pairs, place);
        let noted = Noted { pots, places };
        if !is_extended(machine, index, &noted, pairs[place]) {
            return Err(PairFault::Extends {
                place: place as u64,
            });
        }
    }
    Ok(())
}
