ghost use Rattle.std.specs.Prelude.{◌≡◌, ◌<◌, MatchOption, Some, length, option_map, slice_get};
ghost use Rattle.circuit_spec.specs.Network.{IsClass, Placed, Port, elements_of};
ghost use Rattle.packet_replay.specs.Conditions.{IsWay, Way};
ghost use Rattle.packet_replay.specs.Numbered.{AreNumbers, IsEnd};

use circuit_spec::Hop;
use ml_base::{Id, PortNo};
use nml_elements::Element;
use nml_inventory::Inventory;

/// A port, and the first port of its class.
#[derive(Clone, Copy)]
pub struct End {
    pub port: PortNo,
    pub class: PortNo,
}

/// The element and the two ports of a hop.
#[derive(Clone, Copy)]
pub struct Numbers {
    pub element: u64,
    pub from: End,
    pub to: End,
}

/// The numbers of the port of an id and of its class.
fn end_of(inventory: &Inventory, id: &Id) -> Option<End>
    ensures { MatchOption result ((class : Port) → ¬ IsClass inventory.now id.now class) (λ end. (class : Port) × IsEnd inventory.now id.now class end) }
{
    match inventory.port(id.text()) {
        Some(port) => Some(End {
            port,
            class: inventory.class(port),
        }),
        None => None,
    }
}

/// The numbers of what a hop names, where its element is there and its two ports are ports.
pub fn numbers_of(inventory: &Inventory, hop: &Hop) -> Option<Numbers>
    ensures { MatchOption result ((way : Way) → ¬ IsWay inventory.now hop.now way) (λ numbers. (way : Way) × AreNumbers inventory.now hop.now way numbers) }
{
    inventory.is_merged();
    let Some(element) = inventory.element_no(hop.element.text()) else {
        return None;
    };
    let Some(from) = end_of(inventory, &hop.from) else {
        return None;
    };
    let Some(to) = end_of(inventory, &hop.to) else {
        return None;
    };
    Some(Numbers { element, from, to })
}

/// The element of a number.
pub fn element_at(inventory: &Inventory, number: u64) -> &Element
    requires { number < length (elements_of inventory.now) }
    ensures { option_map (λ (p : Placed). p.element) (slice_get (elements_of inventory.now) number) ≡ Some result.now }
{
    match inventory.element(number) {
        Some(element) => element,
        None => unreachable!(),
    }
}
