ghost use Rattle.std.specs.Prelude.{◌≡◌, ◌↔◌, ◌<◌, ◌∷◌, ◌++◌, [], List, IsTrue, IfOk, IfSome, IfNone, length, slice_get, Some};
ghost use Rattle.std.specs.List.{Contains};
ghost use Rattle.std.specs.List.Sorted.{IsPermutation};
ghost use Rattle.ml_base.specs.declared.numbers.StateNo.{StateNo};
ghost use Rattle.ml_base.specs.declared.numbers.Root.TheVariants.{Request};
ghost use Rattle.adapt_machine.specs.Machine.{MachineValue};
ghost use Rattle.segment_grammar.specs.Pots.{IsAboveLast, IsOfPair};
ghost use Rattle.segment_grammar.specs.Reached.{IsReached};
ghost use Rattle.knuth_search.specs.Settled.{potentials_of, derivs_of, ArePotentials, IsCheapest, IsSettledOf, IsBest, IsLightestOf};
ghost use Rattle.knuth_search.specs.declared.derived.Derived.{Derived};
ghost use Rattle.knuth_search.specs.Tables.{pot_of};
ghost use Rattle.knuth_search.specs.Gathered.{AreInOrder, Repeats, Appends, Lists, IsGathered};

use crate::derived::Derived;
use crate::table::Table;
use deriv_arena::Deriv;
use ml_base::{NoMemory, Root, StateNo};
use segment_grammar::{Pot, Potentials};
use std::alloc::Global;

/// What a search has found: the least weight of each reached pair, and a derivation of that weight.
#[derive(Drop)]
pub struct Settled<'a> {
    potentials: Potentials,
    derivs: Vec<&'a Deriv<'a>>,
}

fn empty<'a>(alloc: Global) -> Settled<'a>
    ensures potentials { potentials_of result ≡ [] }
    ensures derivs { derivs_of result ≡ [] }
{
    Settled {
        potentials: Potentials::new(alloc),
        derivs: Vec::new(alloc),
    }
}

fn append<'a>(settled: &mut Settled<'a>, item: Derived<'a>) -> Result<(), NoMemory>
    requires { IsAboveLast (potentials_of settled.old) item.root item.state }
    ensures { IfOk result (λ _. Appends settled.old item.entry settled.new) }
{
    settled.potentials.push(item.pot())?;
    if settled.derivs.push(item.deriv).is_err() {
        return Err(NoMemory);
    }
    Ok(())
}

fn is_of_pair(item: Derived<'_>, other: Derived<'_>) -> bool
    ensures { IsTrue result ↔ IsOfPair (pot_of item.entry) other.entry.root other.entry.state }
{
    item.root == other.root && item.state == other.state
}

/// Whether the item before the place is of the same pair.
fn repeats(items: &[Derived<'_>], place: usize) -> bool
    requires { place < length items.now }
    ensures { IsTrue result ↔ Repeats items.now place }
{
    if place == 0 {
        return false;
    }
    is_of_pair(items[place - 1], items[place])
}

/// Lists the item at the place, unless it is of the pair before.
fn list_at<'a>(
    settled: &mut Settled<'a>,
    items: &[Derived<'a>],
    place: usize,
) -> Result<(), NoMemory>
    requires within { place < length items.now }
    requires above { (d : Derived) → slice_get items.now place ≡ Some d → (Repeats items.now place → ⊥) → IsAboveLast (potentials_of settled.old) d.root d.state }
    ensures { IfOk result (λ _. Lists items.now place settled.old settled.new) }
{
    if repeats(items, place) {
        return Ok(());
    }
    append(settled, items[place])?;
    Ok(())
}

/// The items in the order of root and state, the lightest of a pair first.
fn in_order<'a>(mut items: Vec<Derived<'a>>) -> Vec<Derived<'a>>
    ensures order { AreInOrder result.items }
    ensures same { IsPermutation items.entry.items result.items }
{
    items.sort_unstable_by_key(|item| (item.root, item.state, item.weight));
    items
}

/// The pairs of the table in the order of root and state, each with its least weight.
pub fn gather<'a>(alloc: Global, table: Table<'_, 'a>) -> Result<Settled<'a>, NoMemory>
    ensures { IfOk result (λ s. IsGathered table.entry.task table.entry.pots (potentials_of s) (derivs_of s)) }
{
    let items = in_order(table.into_items());
    let mut settled = empty(alloc);
    for place in 0..items.len() {
        list_at(&mut settled, items.as_slice(), place)?;
    }
    Ok(settled)
}

impl<'a> Settled<'a> {
    /// The least weight of each reached pair.
    pub fn potentials(&self) -> &Potentials
        ensures is { result.now ≡ potentials_of self.now }
        ensures exact { (machine : MachineValue) (starts : List StateNo) → IsSettledOf machine starts self.now → ArePotentials machine.steps starts result.now }
    {
        &self.potentials
    }

    /// The least weight of each reached pair, without the derivations, whose arena may then be given up.
    pub fn into_potentials(self) -> Potentials
        ensures { (machine : MachineValue) (starts : List StateNo) → IsSettledOf machine starts self.entry → ArePotentials machine.steps starts result }
    {
        self.potentials
    }

    /// A derivation of least weight of the pair, or None exactly where the pair is not reached. Takes logarithmic time.
    pub fn derivation(&self, root: Root, state: StateNo) -> Option<&'a Deriv<'a>>
        ensures some { IfSome result (λ d. (machine : MachineValue) (starts : List StateNo) → IsSettledOf machine starts self.now → IsCheapest machine.steps starts root state d.now) }
        ensures none { IfNone result ((machine : MachineValue) (starts : List StateNo) → IsSettledOf machine starts self.now → IsReached machine.steps starts root state → ⊥) }
    {
        let Some(place) = self.potentials.place(root, state) else {
            return None;
        };
        let Some(deriv) = self.derivs.get(place as usize) else {
            return None;
        };
        Some(*deriv)
    }

    /// The lighter one: the best so far, or what is known of the target.
    fn lighter(&self, best: Option<Pot>, target: StateNo) -> Option<Pot>
        ensures { (machine : MachineValue) (starts seen : List StateNo) → IsSettledOf machine starts self.now → IsLightestOf machine.steps starts seen best → IsLightestOf machine.steps starts (seen ++ target ∷ []) result }
    {
        let Some(weight) = self.potentials.weight(Root::Request, target) else {
            return best;
        };
        let next = Pot {
            root: Root::Request,
            state: target,
            weight,
        };
        let Some(kept) = best else {
            return Some(next);
        };
        if kept.weight.is_at_most(weight) {
            return best;
        }
        Some(next)
    }

    fn lightest(&self, targets: &[StateNo]) -> Option<Pot>
        ensures { (machine : MachineValue) (starts : List StateNo) → IsSettledOf machine starts self.now → IsLightestOf machine.steps starts targets.now result }
    {
        let mut best = None;
        for number in 0..targets.len() {
            best = self.lighter(best, targets[number]);
        }
        best
    }

    /// A derivation of least weight under the request to one of the targets, or None exactly where none of them is reached.
    pub fn best(&self, targets: &[StateNo]) -> Option<&'a Deriv<'a>>
        ensures some { IfSome result (λ d. (machine : MachineValue) (starts : List StateNo) → IsSettledOf machine starts self.now → IsBest machine.steps starts targets.now d.now) }
        ensures none { IfNone result ((machine : MachineValue) (starts : List StateNo) → IsSettledOf machine starts self.now → (target : StateNo) → Contains targets.now target → IsReached machine.steps starts Request target → ⊥) }
    {
        let Some(pot) = self.lightest(targets) else {
            return None;
        };
        self.derivation(Root::Request, pot.state)
    }
}
