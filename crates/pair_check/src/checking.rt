ghost use Rattle.std.specs.Prelude.{IfErr, OnOk};
ghost use Rattle.pair_check.specs.Rules.{ArePairsWithin, IsFaultOf, KeepsRules};

use crate::beginning::{are_starts_listed, check_roots};
use crate::extending::check_extended;
use crate::fault::PairFault;
use crate::nesting::check_nested;
use crate::noted::no_places;
use crate::opening::check_opened;
use adapt_machine::Machine;
use ml_base::StateNo;
use segment_grammar::{Index, Potentials};
use std::alloc::Global;

/// Whether the potentials keep the rules over the machine, for walks that begin at the starts; else the first rule that fails, with the
/// first pair of which it does not hold. The pairs must be of states of the machine.
pub fn check_pairs(
    alloc: Global,
    machine: &Machine,
    starts: &[StateNo],
    pots: &Potentials,
) -> Result<(), PairFault>
    requires { ArePairsWithin machine.now.states pots.now }
    ensures ok { OnOk result (KeepsRules machine.now.steps starts.now pots.now) }
    ensures err { IfErr result (IsFaultOf machine.now.steps starts.now pots.now) }
{
    if !are_starts_listed(pots, starts) {
        return Err(PairFault::Starts);
    }
    check_roots(pots)?;
    let index = Index::new(alloc, machine)?;
    let mut places = no_places(alloc, machine.states())?;
    check_extended(machine, &index, pots, places.as_mut_slice())?;
    check_opened(machine, &index, pots)?;
    check_nested(alloc, machine, &index, pots, places.as_mut_slice())?;
    Ok(())
}
