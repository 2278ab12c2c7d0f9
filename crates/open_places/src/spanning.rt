ghost use Rattle.std.specs.Prelude.{IfOk, length};
ghost use Rattle.circuit_spec.specs.Network.{ports};
ghost use Rattle.open_places.specs.Places.{IsRising};
ghost use Rattle.open_places.specs.Spans.{AreSpans, IsClassSpan};

use crate::span::Span;
use circuit_spec::PlaceName;
use ml_base::{Id, NoMemory, PortNo};
use nml_inventory::Inventory;
use std::alloc::Global;

/// The span of the class of each port.
pub fn spans_of(
    alloc: Global,
    inventory: &Inventory,
    places: &[PlaceName],
) -> Result<Vec<Span>, NoMemory>
    requires { IsRising places.now }
    ensures { IfOk result (λ spans. AreSpans inventory.now places.now (length (ports inventory.now)) spans.items) }
{
    let mut spans = Vec::new(alloc);
    for number in 0..inventory.ports() {
        let class = inventory.class(PortNo(number));
        let Ok(()) = spans.push(span_of(places, inventory.name(class))) else {
            return Err(NoMemory);
        };
    }
    Ok(spans)
}

/// The span of a class.
pub fn span_of(places: &[PlaceName], class: &Id) -> Span
    requires { IsRising places.now }
    ensures { IsClassSpan places.now class.now result }
{
    let first = places.partition_point(|place| place.class < *class);
    let end = places.partition_point(|place| place.class <= *class);
    Span {
        first: first as u64,
        end: end as u64,
    }
}
