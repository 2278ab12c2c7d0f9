ghost use Rattle.std.specs.Prelude.{◌≡◌, ◌<◌, ◌≤◌, ℕ, Some, MatchOption, length, slice_get, slice_range};
ghost use Rattle.std.specs.List.{Contains};
ghost use Rattle.open_places.specs.Spans.{AreStates, IsLabelled, IsSpanOf};

use crate::span::Span;
use circuit_spec::PlaceName;
use ml_base::{PortNo, StateNo, Tag};
use std::marker::Model;

/// The open places of a network whose label, if any, is kept, by numbers, and the span of the states of each port's class.
#[derive(Drop)]
pub struct Places {
    places: Vec<PlaceName>,
    spans: Vec<Span>,
}

impl Model for Places {
    ghost use Rattle.open_places.specs.Places.{PlacesValue};
    ghost use Rattle.open_places.specs.Spans.{AreStates};

    ghost Value = { PlacesValue };

    ghost view = { λ p. record { places = p.places.items; spans = p.spans.items } };

    ghost invariant = { λ p. AreStates p.places.items p.spans.items };
}

impl Places {
    /// The states, with the span of each port's class.
    pub(crate) fn new(places: Vec<PlaceName>, spans: Vec<Span>) -> Places
        requires { AreStates places.items spans.items }
        ensures { result ≡ record { places = places.items; spans = spans.items } }
    {
        Places { places, spans }
    }

    /// How many states there are.
    pub fn len(&self) -> u64
        ensures { result ≡ length self.now.places }
    {
        self.places.len() as u64
    }

    /// The place of a state.
    pub fn place(&self, state: StateNo) -> &PlaceName
        requires { state.0 < length self.now.places }
        ensures { slice_get self.now.places state.0 ≡ Some result.now }
    {
        &self.places[state.0 as usize]
    }

    /// The state of a place, and none where the place is not open or its label is not kept.
    pub fn state(&self, place: &PlaceName) -> Option<StateNo>
        ensures { MatchOption result (¬ Contains self.now.places place.now) (λ state. slice_get self.now.places state.0 ≡ Some place.now) }
    {
        match self.places.binary_search(place) {
            Ok(state) => Some(StateNo(state as u64)),
            Err(_) => None,
        }
    }

    /// The states of the class of a port.
    pub fn span(&self, port: PortNo) -> Span
        requires { port.0 < length self.now.spans }
        ensures span { slice_get self.now.spans port.0 ≡ Some result }
        ensures proper { result.first ≤ result.end }
        ensures within { result.end ≤ length self.now.places }
    {
        self.spans[port.0 as usize]
    }

    /// The state of a class that has this label, by the span of the class.
    pub fn labelled(&self, span: Span, label: Tag) -> Option<StateNo>
        requires { IsSpanOf self.now span }
        ensures { MatchOption result ((state : ℕ) → ¬ IsLabelled self.now span label state) (λ state. IsLabelled self.now span label state.0) }
    {
        let states = in_span(&self.places, span);
        match states.binary_search_by(|place| place.label.cmp(&label)) {
            Ok(place) => Some(StateNo(span.first + place as u64)),
            Err(_) => None,
        }
    }
}

/// The places of the states of a span.
fn in_span(places: &[PlaceName], span: Span) -> &[PlaceName]
    requires proper { span.first ≤ span.end }
    requires within { span.end ≤ length places.now }
    ensures { result.now ≡ slice_range places.now span.first span.end }
{
    &places[span.first as usize..span.end as usize]
}
