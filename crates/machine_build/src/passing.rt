ghost use Rattle.std.specs.Prelude.{◌≡◌, ℕ, ◌+◌, ◌<◌, ◌≤◌, MatchOption, length};
ghost use Rattle.open_places.specs.Places.{IsRising};
ghost use Rattle.machine_build.specs.Passing.{AreAlike, AreBounds, AreNotTaken, HasNoneBetween, HasNoneFrom, is_below};

use label_sets::LabelSet;
use ml_base::{StateNo, Tag};
use nml_elements::{Element, Labels};
use open_places::Places;

/// The label from which on the set may have labels that are not below this one, if it has any.
fn next_label(set: &LabelSet, label: u32) -> Option<u32>
    ensures { MatchOption result (HasNoneFrom set.now label) (λ next. HasNoneBetween set.now label next) }
{
    let ranges = set.ranges();
    let place = ranges.partition_point(|range| range.1 < label);
    match ranges.get(place) {
        Some(range) => Some(range.0),
        None => None,
    }
}

fn is_below(tag: Tag, label: u32) -> bool
    ensures { result ≡ is_below tag label }
{
    match tag {
        Some(other) => other < label,
        None => true,
    }
}

/// One step of a binary search for the label: the half of the states where it goes on.
fn half(places: &Places, low: u64, high: u64, label: u32) -> (u64, u64)
    requires apart { low < high }
    requires within { high ≤ length places.now.places }
    ensures bounds { (first end : ℕ) → AreBounds places.now.places label first end low high → AreBounds places.now.places label first end result.0 result.1 }
    ensures nearer { result.1 + low < high + result.0 }
{
    let middle = low + (high - low) / 2;
    if is_below(places.place(StateNo(middle)).label, label) {
        return (middle + 1, high);
    }
    (low, middle)
}

/// The first of the states of a class whose label is this one or above it, or their end.
fn state_from(places: &Places, first: u64, end: u64, label: u32) -> u64
    requires proper { first ≤ end }
    requires within { end ≤ length places.now.places }
    ensures { AreBounds places.now.places label first end result result }
{
    let mut low = first;
    let mut high = end;
    while low < high {
        let part = half(places, low, high, label);
        low = part.0;
        high = part.1;
    }
    low
}

/// A state from this one on, up to which the element takes no label of the states of the class. Where a link has labels of its own,
/// it is found by the next one of them.
pub fn next_taken(places: &Places, element: &Element, state: u64, end: u64) -> u64
    requires before { state < end }
    requires within { end ≤ length places.now.places }
    requires rise { IsRising places.now.places }
    requires alike { AreAlike places.now.places state end }
    ensures from { state ≤ result }
    ensures to { result ≤ end }
    ensures passed { AreNotTaken places.now.places element.now state result }
{
    let Element::Link(link) = element else {
        return state;
    };
    let Labels::Of { set, .. } = &link.labels else {
        return state;
    };
    let Some(label) = places.place(StateNo(state)).label else {
        return state;
    };
    match next_label(set, label) {
        Some(next) => state_from(places, state, end, next),
        None => end,
    }
}
