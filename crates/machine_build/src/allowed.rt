ghost use Rattle.std.specs.Prelude.{◌≡◌, ◌<◌, ◌≤◌, IfOk, length};
ghost use Rattle.circuit_spec.specs.Faults.{IsKnownEnd};
ghost use Rattle.circuit_spec.specs.Network.{ports};
ghost use Rattle.machine_build.specs.Built.{AreAllowed};
ghost use Rattle.machine_build.specs.Ways.{AreFitting, AreOpen, AreStatesOf, HaveSpans, is_any, label_of};

use crate::sides::fitting;
use ml_base::{Id, NoMemory, PortNo, StateNo, Wish};
use nml_inventory::Inventory;
use open_places::{Places, Span};
use std::alloc::Global;

/// The states of a span.
fn states_in(alloc: Global, span: Span) -> Result<Vec<StateNo>, NoMemory>
    requires { span.first ≤ span.end }
    ensures { IfOk result (λ states. AreStatesOf span states.items) }
{
    let mut states = Vec::new(alloc);
    for state in span.first..span.end {
        let Ok(()) = states.push(StateNo(state)) else {
            return Err(NoMemory);
        };
    }
    Ok(states)
}

/// The states of a port's class whose label is as wished.
fn wished(inventory: &Inventory, places: &Places, port: PortNo, wish: Wish) -> Span
    requires port { port.0 < length (ports inventory.now) }
    requires places { HaveSpans inventory.now places.now }
    ensures { AreFitting inventory.now places.now.places port.0 (is_any wish) (label_of wish) result }
{
    match wish {
        Wish::Any => fitting(inventory, places, port, true, None),
        Wish::Value(label) => fitting(inventory, places, port, false, Some(label)),
    }
}

/// The states that are allowed places of an end.
pub fn allowed(
    alloc: Global,
    inventory: &Inventory,
    places: &Places,
    port: &Id,
    wish: Wish,
) -> Result<Vec<StateNo>, NoMemory>
    requires known { IsKnownEnd inventory.now port.now wish }
    requires places { HaveSpans inventory.now places.now }
    requires all_open { AreOpen inventory.now places.now.places }
    ensures { IfOk result (λ states. AreAllowed inventory.now places.now.places port.now wish states.items) }
{
    let Some(number) = inventory.port(port.text()) else {
        unreachable!()
    };
    let span = wished(inventory, places, number, wish);
    let states = states_in(alloc, span)?;
    Ok(states)
}
