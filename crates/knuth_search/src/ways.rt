ghost use Rattle.std.specs.Prelude.{◌≡◌, IsTrue, slice_get, Some};
ghost use Rattle.knuth_search.specs.Overtaken.{IsSameWay, IsOvertaken};
ghost use Rattle.knuth_search.specs.Tables.{pot_of};

use crate::derived::Derived;
use crate::settle::stepped;
use crate::table::Table;
use adapt_machine::{Machine, MachineKind, MachineStep};
use ml_base::{NoMemory, Root, StepNo};
use std::alloc::Global;
use std::collections::HashMap;

/// A settled pair, by its place in the table, and a push that leaves it.
#[derive(Clone, Copy)]
pub struct Way {
    place: u64,
    push: StepNo,
}

/// For each root, entered state and frame a way in that was light when it was noted. A way is looked at before anything rests on
/// it, so contracts say nothing of which ways are here.
#[derive(Drop)]
pub struct Ways {
    noted: HashMap<((u64, u64), (u64, u64)), Way>,
}

/// What tells a root from others.
fn key_of(root: Root, step: MachineStep) -> ((u64, u64), (u64, u64)) {
    match root {
        Root::Request => ((0, 0), (step.to.0, step.frame.0)),
        Root::Entry(entry) => ((1, entry.0), (step.to.0, step.frame.0)),
    }
}

/// Whether the push leaves the one pair as the other push leaves the other pair: from the same root into the same state, with the
/// same frame, at no more.
fn is_same_way(
    pair: Derived<'_>,
    push: MachineStep,
    other: Derived<'_>,
    other_push: MachineStep,
) -> bool
    ensures { IsTrue result → IsSameWay (pot_of pair.entry) push (pot_of other.entry) other_push }
{
    pair.root == other.root
        && push.kind == MachineKind::Push
        && push.from == pair.state
        && push.to == other_push.to
        && push.frame == other_push.frame
        && stepped(pair.weight, push).is_at_most(stepped(other.weight, other_push))
}

/// Whether the way is one of a pair before the last of the table, and leads where the push leads from `prev`, at no more.
fn overtakes(
    machine: &Machine,
    table: &Table<'_, '_>,
    way: Way,
    prev: Derived<'_>,
    pushed: MachineStep,
) -> bool
    ensures { IsTrue result → IsOvertaken machine.now.steps table.now.pots (pot_of prev.entry) pushed }
{
    let Some(next) = way.place.checked_add(1) else {
        return false;
    };
    if next >= table.len() || way.push.0 >= machine.steps() {
        return false;
    }
    let pair = table.item(way.place);
    is_same_way(pair, machine.step(way.push), prev, pushed)
}

impl Ways {
    /// No way is noted.
    pub fn new(alloc: Global) -> Ways {
        Ways {
            noted: HashMap::new(alloc),
        }
    }

    /// Whether a pair before the last of the table leads where the push leads from `prev`, at no more, as far as ways are noted.
    pub fn overtake(
        &self,
        machine: &Machine,
        table: &Table<'_, '_>,
        prev: Derived<'_>,
        pushed: MachineStep,
    ) -> bool
        ensures { IsTrue result → IsOvertaken machine.now.steps table.now.pots (pot_of prev.entry) pushed }
    {
        let Some(way) = self.noted.get(&key_of(prev.root, pushed)) else {
            return false;
        };
        overtakes(machine, table, *way, prev, pushed)
    }

    /// Notes that the push leaves the last pair of the table, which is under the root.
    pub fn note(
        &mut self,
        table: &Table<'_, '_>,
        root: Root,
        push: StepNo,
        pushed: MachineStep,
    ) -> Result<(), NoMemory> {
        let place = table.len().saturating_sub(1);
        match self.noted.insert(key_of(root, pushed), Way { place, push }) {
            Ok(_) => Ok(()),
            Err(_) => Err(NoMemory),
        }
    }
}
