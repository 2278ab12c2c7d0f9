ghost use Rattle.std.specs.Prelude.{◌↔◌, ◌<◌, IsTrue, length};
ghost use Rattle.segment_grammar.specs.Pots.{IsOfPair};
ghost use Rattle.pair_check.specs.Rules.{IsListedWithin};

use crate::listing::is_listed_within;
use ml_base::{NoMemory, Root, StateNo, Weight};
use segment_grammar::{Pot, Potentials};
use std::alloc::Global;

/// The listed pairs, and by state the places that are noted for the pairs of one root.
///
/// A noted place serves speed alone: what stands there is looked at, and a pair that is not found so is searched for among all.
#[derive(Clone, Copy)]
pub(crate) struct Noted<'a> {
    pub pots: &'a Potentials,
    pub places: &'a [u64],
}

/// Places for this many states, of which none is noted yet.
pub(crate) fn no_places(alloc: Global, states: u64) -> Result<Vec<u64>, NoMemory> {
    match vec![in alloc; 0u64; states as usize] {
        Ok(places) => Ok(places),
        Err(_) => Err(NoMemory),
    }
}

/// Whether the pair at the place is the first of its root.
fn begins_root(pairs: &[Pot], place: usize) -> bool
    requires { place < length pairs.now }
{
    place == 0 || pairs[place - 1].root != pairs[place].root
}

/// Notes the place for the state.
fn note(places: &mut [u64], state: StateNo, place: u64) {
    if let Some(noted) = places.get_mut(state.0 as usize) {
        *noted = place;
    }
}

/// Notes the place of each pair of a root, if the pair at this place is the first of it.
pub(crate) fn note_root(places: &mut [u64], pairs: &[Pot], first: usize)
    requires { first < length pairs.now }
{
    if !begins_root(pairs, first) {
        return;
    }
    let root = pairs[first].root;
    for place in first..pairs.len() {
        if pairs[place].root != root {
            return;
        }
        note(places, pairs[place].state, place as u64);
    }
}

/// Whether the pot is of this pair.
fn is_of_pair(pot: &Pot, root: Root, state: StateNo) -> bool
    ensures { IsTrue result ↔ IsOfPair pot.now root state }
{
    pot.root == root && pot.state == state
}

impl<'a> Noted<'a> {
    /// Whether the pair stands at the place that is noted for its state, with at most the weight.
    fn is_noted_within(&self, root: Root, state: StateNo, most: Weight) -> bool
        ensures { IsTrue result → IsListedWithin self.now.pots.now root state most }
    {
        let Some(place) = self.places.get(state.0 as usize) else {
            return false;
        };
        let Some(pot) = self.pots.get(*place) else {
            return false;
        };
        if !is_of_pair(pot, root, state) {
            return false;
        }
        pot.weight.is_at_most(most)
    }

    /// Whether the pair is listed with at most the weight.
    pub(crate) fn is_listed_within(&self, root: Root, state: StateNo, most: Weight) -> bool
        ensures { IsTrue result ↔ IsListedWithin self.now.pots.now root state most }
    {
        if self.is_noted_within(root, state, most) {
            return true;
        }
        is_listed_within(self.pots, root, state, most)
    }
}
