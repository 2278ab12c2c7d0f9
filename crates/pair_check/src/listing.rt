ghost use Rattle.std.specs.Prelude.{◌≡◌, ◌↔◌, IsTrue, IfSome, IfNone};
ghost use Rattle.std.specs.List.{Contains};
ghost use Rattle.ml_base.specs.declared.weight.Weight.{Weight as TheWeight};
ghost use Rattle.segment_grammar.specs.Pots.{pot};
ghost use Rattle.pair_check.specs.Rules.{IsListedAtZero, IsListedWithin};

use ml_base::{Root, StateNo, Weight};
use segment_grammar::Potentials;

/// The weight of the pair, or None exactly where it is not listed.
pub(crate) fn weight_of(pots: &Potentials, root: Root, state: StateNo) -> Option<Weight>
    ensures some { IfSome result (λ weight. Contains pots.now (pot root state weight)) }
    ensures only { IfSome result (λ weight. (other : TheWeight) → Contains pots.now (pot root state other) → other ≡ weight) }
    ensures none { IfNone result ((weight : TheWeight) → ¬ Contains pots.now (pot root state weight)) }
{
    // The order of the pairs: each stands once.
    let _rising = pots.as_slice();
    pots.weight(root, state)
}

/// Whether the pair is listed with at most the weight.
pub(crate) fn is_listed_within(pots: &Potentials, root: Root, state: StateNo, most: Weight) -> bool
    ensures { IsTrue result ↔ IsListedWithin pots.now root state most }
{
    match weight_of(pots, root, state) {
        Some(weight) => weight.is_at_most(most),
        None => false,
    }
}

/// Whether the pair is listed with weight zero.
pub(crate) fn is_listed_at_zero(pots: &Potentials, root: Root, state: StateNo) -> bool
    ensures { IsTrue result ↔ IsListedAtZero pots.now root state }
{
    match weight_of(pots, root, state) {
        Some(weight) => weight == Weight::zero(),
        None => false,
    }
}
