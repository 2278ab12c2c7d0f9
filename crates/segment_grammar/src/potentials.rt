ghost use Rattle.std.specs.Prelude.{◌≡◌, ◌↔◌, ◌∷◌, ◌++◌, [], ◌<◌, ◌≤◌, ◌+◌, ℕ, IsTrue, false, length, slice_get, Some, IfSome, IfNone, OnOk, OnErr};
ghost use Rattle.std.specs.List.{Contains};
ghost use Rattle.std.specs.Option.{option_copied};
ghost use Rattle.ml_base.specs.declared.weight.Weight.{Weight};
ghost use Rattle.segment_grammar.specs.declared.potentials.Pot.{Pot};
ghost use Rattle.segment_grammar.specs.Pots.{pot, IsBelow, IsAboveLast, IsBetween, IsOfPair, IsRising};

use ml_base::{NoMemory, Root, StateNo, Weight};
use std::alloc::Global;
use std::marker::Model;

/// A weight for a state under a root.
#[derive(Clone, Copy, Debug, PartialEq, Eq)]
pub struct Pot {
    pub root: Root,
    pub state: StateNo,
    pub weight: Weight,
}

/// Weights of pairs, rising by root (the request first) and state. Contracts see the list.
#[derive(Debug, Drop)]
pub struct Potentials {
    items: Vec<Pot>,
}

impl Model for Potentials {
    ghost use Rattle.std.specs.Prelude.{List};
    ghost use Rattle.segment_grammar.specs.declared.potentials.Pot.{Pot};
    ghost use Rattle.segment_grammar.specs.Pots.{IsRising};

    ghost Value = { List Pot };

    ghost view = { λ p. p.items.items };

    ghost invariant = { λ p. IsRising p.items.items };
}

/// Whether the first pair stands below the second: by root, then by state.
fn is_below(root: Root, state: StateNo, other: Root, other_state: StateNo) -> bool
    ensures { IsTrue result ↔ IsBelow root state other other_state }
{
    (root, state) < (other, other_state)
}

impl Potentials {
    /// No weights.
    pub fn new(alloc: Global) -> Potentials
        ensures { result ≡ [] }
    {
        Potentials {
            items: Vec::new(alloc),
        }
    }

    /// Puts a weight at the end. Its pair must stand above the last one. A refusal changes nothing.
    pub fn push(&mut self, pot: Pot) -> Result<(), NoMemory>
        requires { IsAboveLast self.old pot.root pot.state }
        ensures ok { OnOk result (self.new ≡ self.old ++ pot ∷ []) }
        ensures err { OnErr result (self.new ≡ self.old) }
    {
        if self.items.push(pot).is_err() {
            return Err(NoMemory);
        }
        Ok(())
    }

    /// The number of weights.
    pub fn len(&self) -> u64
        ensures { result ≡ length self.now }
    {
        self.items.len() as u64
    }

    /// The weight at a place with its pair, or None past the end.
    pub fn get(&self, place: u64) -> Option<&Pot>
        ensures { option_copied result ≡ slice_get self.now place }
    {
        self.items.get(place as usize)
    }

    /// All of them, in their order, for a `for`.
    pub fn as_slice(&self) -> &[Pot]
        ensures value { result.now ≡ self.now }
        ensures rising { IsRising result.now }
    {
        self.items.as_slice()
    }

    /// One of the two halves between the places, where the pair stands.
    fn half(&self, low: u64, high: u64, root: Root, state: StateNo) -> (u64, u64)
        requires between { IsBetween self.now root state low high }
        requires apart { low < high }
        ensures between { IsBetween self.now root state result.0 result.1 }
        ensures nearer { result.1 + low < high + result.0 }
    {
        let middle = low + (high - low) / 2;
        let pot = self.items[middle as usize];
        if is_below(pot.root, pot.state, root, state) {
            return (middle + 1, high);
        }
        (low, middle)
    }

    /// The place in the order where the pair stands or would stand.
    fn first_from(&self, root: Root, state: StateNo) -> u64
        ensures between { IsBetween self.now root state result result }
        ensures rising { IsRising self.now }
    {
        let mut low = 0;
        let mut high = self.items.len() as u64;
        while low < high {
            let part = self.half(low, high, root, state);
            low = part.0;
            high = part.1;
        }
        low
    }

    fn is_of_pair(&self, place: u64, root: Root, state: StateNo) -> bool
        ensures yes { IsTrue result → (p : Pot) × (slice_get self.now place ≡ Some p) × IsOfPair p root state }
        ensures no { result ≡ false → (p : Pot) → slice_get self.now place ≡ Some p → IsOfPair p root state → ⊥ }
    {
        let Some(pot) = self.items.get(place as usize) else {
            return false;
        };
        pot.root == root && pot.state == state
    }

    /// The place of the pair, or None exactly where it is not listed.
    pub fn place(&self, root: Root, state: StateNo) -> Option<u64>
        ensures some { IfSome result (λ i. (p : Pot) × (slice_get self.now i ≡ Some p) × IsOfPair p root state) }
        ensures none { IfNone result ((p : Pot) → Contains self.now p → IsOfPair p root state → ⊥) }
    {
        let place = self.first_from(root, state);
        if !self.is_of_pair(place, root, state) {
            return None;
        }
        Some(place)
    }

    /// The weight of the pair, or None exactly where it is not listed. Takes logarithmic time.
    pub fn weight(&self, root: Root, state: StateNo) -> Option<Weight>
        ensures some { IfSome result (λ weight. Contains self.now (pot root state weight)) }
        ensures none { IfNone result ((weight : Weight) → Contains self.now (pot root state weight) → ⊥) }
    {
        let Some(place) = self.place(root, state) else {
            return None;
        };
        Some(self.items[place as usize].weight)
    }
}
