ghost use Rattle.std.specs.Prelude.{◌↔◌, IsTrue, List, IfErr, OnOk};
ghost use Rattle.std.specs.List.{All};
ghost use Rattle.ml_base.specs.declared.numbers.StateNo.{StateNo as TheState};
ghost use Rattle.adapt_machine.specs.declared.MachineStep.{MachineStep};
ghost use Rattle.pair_check.specs.Rules.{HasRoot, IsFaultOf, RootIsListed, StartsAreListed};

use crate::fault::PairFault;
use crate::listing::is_listed_at_zero;
use ml_base::{Root, StateNo};
use segment_grammar::Potentials;

/// Whether each start is listed under the request with weight zero.
pub(crate) fn are_starts_listed(pots: &Potentials, starts: &[StateNo]) -> bool
    ensures { IsTrue result ↔ StartsAreListed starts.now pots.now }
{
    for start in starts {
        if !is_listed_at_zero(pots, Root::Request, *start) {
            return false;
        }
    }
    true
}

/// Whether the root, if it is a state, is listed at itself with weight zero.
fn is_root_listed(pots: &Potentials, root: Root) -> bool
    ensures { IsTrue result ↔ RootIsListed pots.now root }
{
    match root {
        Root::Request => true,
        Root::Entry(state) => is_listed_at_zero(pots, Root::Entry(state), state),
    }
}

/// The root of each pair must be listed with weight zero.
pub(crate) fn check_roots(pots: &Potentials) -> Result<(), PairFault>
    ensures ok { OnOk result (All (HasRoot pots.now) pots.now) }
    ensures err { (steps : List MachineStep) (starts : List TheState) → StartsAreListed starts pots.now → IfErr result (IsFaultOf steps starts pots.now) }
{
    let pairs = pots.as_slice();
    for place in 0..pairs.len() {
        if !is_root_listed(pots, pairs[place].root) {
            return Err(PairFault::Roots {
                place: place as u64,
            });
        }
    }
    Ok(())
}
