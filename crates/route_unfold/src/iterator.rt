ghost use Rattle.std.specs.Prelude.{◌≡◌, ◌<◌, ◌≤◌, ◌^◌, ◌↔◌, ◌∷◌, [], ℕ, length, IfOk, IfSome, IsErrOf, Some};
ghost use Rattle.deriv_arena.specs.Derivation.{kept_weight, unfolding_of, IsOver};
ghost use Rattle.route_unfold.specs.Faults.{IsLong};

use crate::fault::UnfoldFault;
use crate::tasks::unfold_into;
use adapt_machine::Machine;
use deriv_arena::Deriv;
use ml_base::{NoMemory, StepNo, Weight};
use std::alloc::Global;
use std::iter::{ExactSizeIterator, FusedIterator};
use std::marker::Model;

/// The steps of a derivation that are still to come. Contracts see the list of their numbers.
#[derive(Debug, Drop)]
pub struct Unfold {
    /// The last step first.
    left: Vec<StepNo>,
}

impl Model for Unfold {
    ghost use Rattle.std.specs.Prelude.{List, ℕ, map, reverse};

    ghost Value = { List ℕ };

    ghost view = { λ u. map (λ step. step.0) (reverse u.left.items) };
}

impl Unfold {
    /// The steps of a derivation over the machine, if they are no more than `limit`. All memory is taken here.
    pub fn new<'a>(
        alloc: Global,
        machine: &Machine,
        deriv: &'a Deriv<'a>,
        limit: u64,
    ) -> Result<Unfold, UnfoldFault>
        requires limit { limit < 2 ^ 40 }
        requires over { IsOver machine.now.steps deriv.now }
        ensures steps { IfOk result (λ left. left ≡ unfolding_of deriv.now) }
        ensures within { IfOk result (λ left. length left ≤ limit) }
        ensures past { IsErrOf result UnfoldFault.Past ↔ (kept_weight deriv.now ≡ Weight.Past) }
        ensures long { (hops : ℕ) → (IsErrOf result (UnfoldFault.Long hops) ↔ IsLong (kept_weight deriv.now) limit hops) }
    {
        let Weight::Known { hops, .. } = deriv.weight() else {
            return Err(UnfoldFault::Past);
        };
        if hops > limit {
            return Err(UnfoldFault::Long { hops });
        }
        let mut unfold = Unfold::with_room(alloc, hops)?;
        unfold_into(alloc, &mut unfold, deriv)?;
        Ok(unfold)
    }

    /// No steps, with room for this many.
    fn with_room(alloc: Global, room: u64) -> Result<Unfold, NoMemory>
        ensures { IfOk result (λ left. left ≡ []) }
    {
        match Vec::with_capacity(alloc, room as usize) {
            Ok(left) => Ok(Unfold { left }),
            Err(_) => Err(NoMemory),
        }
    }

    /// Puts a step before those that are there.
    pub(crate) fn put_first(&mut self, step: StepNo) -> Result<(), NoMemory>
        ensures { IfOk result (λ _. self.new ≡ step.0 ∷ self.old) }
    {
        if self.left.push(step).is_err() {
            return Err(NoMemory);
        }
        Ok(())
    }
}

impl Iterator for Unfold {
    type Item = StepNo;

    ghost use Rattle.std.specs.Iterator.{YieldsFirstBy, item_count, at_most, UpTo};
    ghost use Rattle.std.specs.Iterator.SizeHint.{IsWithinCount};

    ghost next_gives = { YieldsFirstBy (λ step. step.0) (λ left. left) };

    ghost remaining = { item_count (λ left. left) };

    fn next(&mut self) -> Option<StepNo> {
        self.left.pop()
    }

    fn size_hint(&self) -> (usize, Option<usize>)
        ensures lower { IsWithinCount result.0 (at_most (length self.now)) }
        ensures upper { IfSome result.1 (UpTo (at_most (length self.now))) }
        ensures value { result ≡ (length self.now, Some (length self.now)) }
    {
        let len = self.len();
        (len, Some(len))
    }
}

impl ExactSizeIterator for Unfold {
    fn len(&self) -> usize {
        self.left.len()
    }
}

impl FusedIterator for Unfold {}
