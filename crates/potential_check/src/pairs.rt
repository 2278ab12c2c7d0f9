ghost use Rattle.std.specs.Prelude.{None, IfErr, IfOk, MatchOption};
ghost use Rattle.answer_spec.specs.Potentials.{root_place};
ghost use Rattle.answer_spec.specs.WellFormed.{ArePots};
ghost use Rattle.open_places.specs.Places.{IsRising};
ghost use Rattle.machine_lift.specs.Lift.{IsRootAt};
ghost use Rattle.potential_check.specs.Faults.{TellsUnplaced};
ghost use Rattle.potential_check.specs.Pairs.{ArePairsOf, HasPair, IsPairOf, IsRootOfState};

use crate::fault::PotentialFault;
use answer_spec::{PotLine, PotList, RootName};
use machine_build::Built;
use ml_base::Root;
use segment_grammar::{Pot, Potentials};
use std::alloc::Global;
use verdict::Rule;

/// The root of the machine at a root of the network, if there is one.
fn root_of(built: &Built, root: &RootName) -> Option<Root>
    ensures { MatchOption result (¬ IsRootOfState built.now root.now) (λ r. IsRootAt built.now r (root_place root.now)) }
{
    match root {
        RootName::Request => Some(Root::Request),
        RootName::Entry(place) => match built.state(place) {
            Some(state) => Some(Root::Entry(state)),
            None => None,
        },
    }
}

/// The pair of the machine that the potential is at, if there is one.
fn pair_of(built: &Built, line: &PotLine) -> Option<Pot>
    ensures { MatchOption result (¬ HasPair built.now line.now) (IsPairOf built.now line.now) }
{
    let root = root_of(built, &line.root)?;
    let state = built.state(&line.place)?;
    Some(Pot {
        root,
        state,
        weight: line.weight,
    })
}

/// The pairs of the machine that the potentials are at, in the same order; each must be at one.
pub(crate) fn pairs_of(
    alloc: Global,
    built: &Built,
    lines: &PotList,
) -> Result<Potentials, PotentialFault>
    requires rising { IsRising built.now.places }
    requires in_order { ArePots None lines.now }
    ensures ok { IfOk result (ArePairsOf built.now lines.now) }
    ensures err { IfErr result (TellsUnplaced built.now lines.now) }
{
    let mut pots = Potentials::new(alloc);
    let list = lines.as_slice();
    for place in 0..list.len() {
        let Some(pair) = pair_of(built, &list[place]) else {
            return Err(PotentialFault::Potential {
                rule: Rule::Placed,
                place: place as u64,
            });
        };
        pots.push(pair)?;
    }
    Ok(pots)
}
