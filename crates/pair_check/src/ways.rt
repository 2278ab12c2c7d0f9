ghost use Rattle.std.specs.Prelude.{◌≡◌, IsTrue};
ghost use Rattle.pair_check.specs.Overtaken.{IsOvertaken, IsSameWay, weight_by};

use adapt_machine::{Machine, MachineKind, MachineStep};
use ml_base::{NoMemory, StepNo, Weight};
use segment_grammar::{Pot, Potentials};
use std::alloc::Global;
use std::collections::HashMap;

/// A listed pair, by its place, and a push that leaves it.
#[derive(Clone, Copy)]
pub struct Way {
    place: u64,
    push: StepNo,
}

/// For each entered state and frame the way in that was looked up last.
///
/// Pairs of one root stand together, so the root is no part of the key: a way in from the root before is noted over. A way is looked at
/// before anything rests on it, so contracts say nothing of which ways are here.
#[derive(Drop)]
pub struct Ways {
    noted: HashMap<(u64, u64), Way>,
}

/// The weight of the pair and of the step.
pub(crate) fn weight_by(pair: Pot, step: MachineStep) -> Weight
    ensures { result ≡ weight_by pair step }
{
    pair.weight.plus(Weight::known(step.cost, 1))
}

/// Whether the push leaves the one pair as the other push leaves the other pair: from the same root into the same state, with the
/// same frame, at no more.
fn is_same_way(pair: &Pot, push: MachineStep, other: Pot, other_push: MachineStep) -> bool
    ensures { IsTrue result → IsSameWay pair.now push other other_push }
{
    pair.root == other.root
        && push.kind == MachineKind::Push
        && push.from == pair.state
        && push.to == other_push.to
        && push.frame == other_push.frame
        && weight_by(*pair, push).is_at_most(weight_by(other, other_push))
}

/// Whether the way is one of a pair before the place, and leads where the push leads from the other pair, at no more.
fn overtakes(
    machine: &Machine,
    pots: &Potentials,
    way: Way,
    place: u64,
    other: Pot,
    other_push: MachineStep,
) -> bool
    ensures { IsTrue result → IsOvertaken machine.now.steps pots.now place other other_push }
{
    if way.place >= place || way.push.0 >= machine.steps() {
        return false;
    }
    let Some(pair) = pots.get(way.place) else {
        return false;
    };
    is_same_way(pair, machine.step(way.push), other, other_push)
}

impl Ways {
    /// No way is noted.
    pub(crate) fn new(alloc: Global) -> Ways {
        Ways {
            noted: HashMap::new(alloc),
        }
    }

    /// Whether a pair before the place leads where the push leads from this one, at no more, as far as ways are noted.
    pub(crate) fn overtake(
        &self,
        machine: &Machine,
        pots: &Potentials,
        place: u64,
        pair: Pot,
        push: MachineStep,
    ) -> bool
        ensures { IsTrue result → IsOvertaken machine.now.steps pots.now place pair push }
    {
        let Some(way) = self.noted.get(&(push.to.0, push.frame.0)) else {
            return false;
        };
        overtakes(machine, pots, *way, place, pair, push)
    }

    /// Notes that the push leaves the pair at the place.
    pub(crate) fn note(
        &mut self,
        place: u64,
        number: StepNo,
        push: MachineStep,
    ) -> Result<(), NoMemory> {
        let way = Way {
            place,
            push: number,
        };
        match self.noted.insert((push.to.0, push.frame.0), way) {
            Ok(_) => Ok(()),
            Err(_) => Err(NoMemory),
        }
    }
}
