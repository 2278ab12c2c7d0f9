ghost use Rattle.std.specs.Prelude.{◌∷◌, ◌++◌, [], List};
ghost use Rattle.ml_base.specs.declared.numbers.StateNo.{StateNo as TheState};
ghost use Rattle.pair_check.specs.Least.{IsLeastOf, IsLesserOf};

use crate::listing::weight_of;
use ml_base::{Root, StateNo, Weight};
use segment_grammar::Potentials;

/// The lesser of the least weight so far, where there is one, and this weight.
fn lesser(least: Option<Weight>, weight: Weight) -> Weight
    ensures { IsLesserOf least weight result }
{
    match least {
        Some(so_far) => if so_far.is_at_most(weight) {
            so_far
        } else {
            weight
        },
        None => weight,
    }
}

/// The least weight, where that of one state more counts.
fn least_with(pots: &Potentials, least: Option<Weight>, state: StateNo) -> Option<Weight>
    ensures { (before : List TheState) → IsLeastOf before pots.now least → IsLeastOf (before ++ state ∷ []) pots.now result }
{
    match weight_of(pots, Root::Request, state) {
        Some(weight) => Some(lesser(least, weight)),
        None => least,
    }
}

/// The least weight that is listed under the request at one of the states, or None where none of them is listed.
pub fn least_listed(pots: &Potentials, states: &[StateNo]) -> Option<Weight>
    ensures { IsLeastOf states.now pots.now result }
{
    let mut least = None;
    for state in states {
        least = least_with(pots, least, *state);
    }
    least
}
