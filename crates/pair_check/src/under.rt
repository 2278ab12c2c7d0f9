ghost use Rattle.std.specs.Prelude.{◌≡◌, ◌↔◌, ◌+◌, ◌<◌, ◌^◌, IsTrue, length};
ghost use Rattle.std.specs.List.{Contains};
ghost use Rattle.segment_grammar.specs.declared.potentials.Pot.{Pot as ThePot};
ghost use Rattle.segment_grammar.specs.Pots.{IsRising, IsRootBelow};
ghost use Rattle.pair_check.specs.Exits.{IsRootBetween};

use ml_base::{Root, StateNo};
use segment_grammar::{Pot, Potentials};

/// Whether the first root stands below the second.
fn is_root_below(root: Root, other: Root) -> bool
    ensures { IsTrue result ↔ IsRootBelow root other }
{
    root < other
}

/// One of the two halves between the places, where the pairs of the root begin.
fn half(pairs: &[Pot], low: usize, high: usize, root: Root) -> (usize, usize)
    requires rising { IsRising pairs.now }
    requires between { IsRootBetween pairs.now root low high }
    requires apart { low < high }
    ensures between { IsRootBetween pairs.now root result.0 result.1 }
    ensures nearer { result.1 + low < high + result.0 }
{
    let middle = low + (high - low) / 2;
    if is_root_below(pairs[middle].root, root) {
        return (middle + 1, high);
    }
    (low, middle)
}

/// The place where the pairs of the root begin or would begin.
fn first_of(pairs: &[Pot], root: Root) -> usize
    requires { IsRising pairs.now }
    ensures { IsRootBetween pairs.now root result result }
{
    let mut low = 0;
    let mut high = pairs.len();
    while low < high {
        let part = half(pairs, low, high, root);
        low = part.0;
        high = part.1;
    }
    low
}

/// The pairs of the root that is entered at the state.
pub(crate) fn under(pots: &Potentials, entered: StateNo) -> &[Pot]
    requires { entered.0 + 1 < 2 ^ 64 }
    ensures { (p : ThePot) → Contains result.now p ↔ (Contains pots.now p × (p.root ≡ Root.Entry entered)) }
{
    let pairs = pots.as_slice();
    let start = first_of(pairs, Root::Entry(entered));
    let end = first_of(pairs, Root::Entry(StateNo(entered.0 + 1)));
    &pairs[start..end]
}
