ghost use Rattle.std.specs.Prelude.{◌≡◌, ◌<◌, ◌≤◌, [], true, None, IfOk, OnOk, length};
ghost use Rattle.circuit_spec.specs.Faults.{ClassesFit};
ghost use Rattle.circuit_spec.specs.Network.{elements_of, ports};
ghost use Rattle.machine_build.specs.Adding.{Adds, AreMoves, Between};
ghost use Rattle.machine_build.specs.Frames.{GoesOn};
ghost use Rattle.machine_build.specs.Ways.{AreFitting, GoesFrom, HaveSpans, IsDone, IsFarPort, IsFrom, IsNearPort, IsNearEnd, IsWay};

use crate::frames::effect_of;
use crate::moves::Moves;
use crate::passing::next_taken;
use crate::sides::{changes, far_ports, fitting, near_ports, takes};
use crate::ways::{Crossing, End, Move};
use circuit_spec::Frame;
use indexmap::IndexSet;
use keyed_hash::Keyed;
use ml_base::{NoMemory, PortNo, StateNo};
use nml_inventory::Inventory;
use open_places::{Places, Span};
use std::alloc::Global;

/// Adds the move from the near end of a crossing to a far end.
fn add_move(moves: &mut Moves, crossing: Crossing, far: End) -> Result<(), NoMemory>
    ensures { IfOk result (λ _. Adds (λ w. (w.element ≡ crossing.element) × (w.near ≡ crossing.near) × (w.far ≡ far)) (λ m. m.effect ≡ crossing.effect) moves.old moves.new) }
{
    let added = Move {
        element: crossing.element,
        near: crossing.near,
        far,
        effect: crossing.effect,
    };
    moves.push(added)?;
    Ok(())
}

/// Adds the moves from the near end of a crossing to the places of a port at the far side.
fn add_far_port(
    inventory: &Inventory,
    places: &Places,
    moves: &mut Moves,
    crossing: Crossing,
    port: PortNo,
) -> Result<(), NoMemory>
    requires port { port.0 < length (ports inventory.now) }
    requires places { HaveSpans inventory.now places.now }
    ensures { IfOk result (λ _. Adds (λ w. GoesFrom inventory.now places.now.places crossing w × (w.far.port ≡ port)) (λ m. m.effect ≡ crossing.effect) moves.old moves.new) }
{
    let span = fitting(inventory, places, port, crossing.any, crossing.label);
    for state in span.first..span.end {
        let far = End {
            port,
            state: StateNo(state),
        };
        add_move(moves, crossing, far)?;
    }
    Ok(())
}

/// Adds the moves from the near end of a crossing to the far side.
fn add_far_side(
    inventory: &Inventory,
    places: &Places,
    moves: &mut Moves,
    crossing: Crossing,
) -> Result<(), NoMemory>
    requires element { crossing.element < length (elements_of inventory.now) }
    requires places { HaveSpans inventory.now places.now }
    ensures { IfOk result (λ _. Adds (λ w. GoesFrom inventory.now places.now.places crossing w × IsFarPort inventory.now crossing.element w.far.port.0) (λ m. m.effect ≡ crossing.effect) moves.old moves.new) }
{
    inventory.is_merged();
    let ports = far_ports(inventory, crossing.element);
    for place in 0..ports.len() {
        add_far_port(inventory, places, moves, crossing, ports[place])?;
    }
    Ok(())
}

/// Adds the moves between a near end of an element and its far side.
fn add_near_end(
    inventory: &Inventory,
    places: &Places,
    frames: &mut IndexSet<Frame, Keyed>,
    moves: &mut Moves,
    number: u64,
    near: End,
) -> Result<(), NoMemory>
    requires fit { ClassesFit inventory.now }
    requires near { IsNearEnd inventory.now places.now.places number near }
    requires places { HaveSpans inventory.now places.now }
    ensures on { OnOk result (GoesOn frames.old.keys frames.new.keys) }
    ensures adds { IfOk result (λ _. Adds (λ w. IsWay inventory.now places.now.places w × (w.element ≡ number) × (w.near ≡ near)) (IsDone inventory.now places.now.places frames.new.keys) moves.old moves.new) }
{
    let label = places.place(near.state).label;
    let Some(element) = inventory.element(number) else {
        unreachable!()
    };
    if !takes(element, label) {
        return Ok(());
    }
    let effect = effect_of(inventory, frames, element, near.port, label)?;
    let crossing = Crossing {
        element: number,
        near,
        label,
        any: changes(element),
        effect,
    };
    add_far_side(inventory, places, moves, crossing)?;
    Ok(())
}

/// Adds the moves between the far side of an element and the next of a near port's places, from this one on, whose label the element
/// may take. Returns the state up to which that adds all moves.
fn add_next_end(
    inventory: &Inventory,
    places: &Places,
    frames: &mut IndexSet<Frame, Keyed>,
    moves: &mut Moves,
    number: u64,
    near: End,
    span: Span,
) -> Result<u64, NoMemory>
    requires fit { ClassesFit inventory.now }
    requires near { IsNearPort inventory.now number near.port.0 }
    requires places { HaveSpans inventory.now places.now }
    requires fitting { AreFitting inventory.now places.now.places near.port.0 true None span }
    requires first { span.first ≤ near.state.0 }
    requires end { near.state.0 < span.end }
    ensures past { IfOk result (λ past. (near.state.0 < past) × (past ≤ span.end)) }
    ensures on { OnOk result (GoesOn frames.old.keys frames.new.keys) }
    ensures adds { IfOk result (λ past. Adds (Between near.state.0 past (IsFrom inventory.now places.now.places number near.port)) (IsDone inventory.now places.now.places frames.new.keys) moves.old moves.new) }
{
    let Some(element) = inventory.element(number) else {
        unreachable!()
    };
    let next = next_taken(places, element, near.state.0, span.end);
    if next == span.end {
        return Ok(next);
    }
    let taken = End {
        port: near.port,
        state: StateNo(next),
    };
    add_near_end(inventory, places, frames, moves, number, taken)?;
    Ok(next + 1)
}

/// Adds the moves between the places of a port at the near side of an element and its far side.
fn add_near_port(
    inventory: &Inventory,
    places: &Places,
    frames: &mut IndexSet<Frame, Keyed>,
    moves: &mut Moves,
    number: u64,
    port: PortNo,
) -> Result<(), NoMemory>
    requires fit { ClassesFit inventory.now }
    requires near { IsNearPort inventory.now number port.0 }
    requires places { HaveSpans inventory.now places.now }
    ensures on { OnOk result (GoesOn frames.old.keys frames.new.keys) }
    ensures adds { IfOk result (λ _. Adds (λ w. IsWay inventory.now places.now.places w × (w.element ≡ number) × (w.near.port ≡ port)) (IsDone inventory.now places.now.places frames.new.keys) moves.old moves.new) }
{
    let span = fitting(inventory, places, port, true, None);
    let mut state = span.first;
    while state < span.end {
        let near = End {
            port,
            state: StateNo(state),
        };
        state = add_next_end(inventory, places, frames, moves, number, near, span)?;
    }
    Ok(())
}

/// Adds the moves through an element. One without far ports has none.
fn add_element(
    inventory: &Inventory,
    places: &Places,
    frames: &mut IndexSet<Frame, Keyed>,
    moves: &mut Moves,
    number: u64,
) -> Result<(), NoMemory>
    requires fit { ClassesFit inventory.now }
    requires number { number < length (elements_of inventory.now) }
    requires places { HaveSpans inventory.now places.now }
    ensures on { OnOk result (GoesOn frames.old.keys frames.new.keys) }
    ensures adds { IfOk result (λ _. Adds (λ w. IsWay inventory.now places.now.places w × (w.element ≡ number)) (IsDone inventory.now places.now.places frames.new.keys) moves.old moves.new) }
{
    inventory.is_merged();
    if far_ports(inventory, number).is_empty() {
        return Ok(());
    }
    let ports = near_ports(inventory, number);
    for place in 0..ports.len() {
        add_near_port(inventory, places, frames, moves, number, ports[place])?;
    }
    Ok(())
}

/// The moves through all elements, with the frames of adaptations and deadaptations numbered.
pub fn moves_of(
    alloc: Global,
    inventory: &Inventory,
    places: &Places,
    frames: &mut IndexSet<Frame, Keyed>,
) -> Result<Moves, NoMemory>
    requires fit { ClassesFit inventory.now }
    requires places { HaveSpans inventory.now places.now }
    ensures { IfOk result (λ moves. AreMoves inventory.now places.now.places frames.new.keys moves) }
{
    let mut moves = Moves::new(alloc);
    for number in 0..inventory.elements() {
        add_element(inventory, places, frames, &mut moves, number)?;
    }
    Ok(moves)
}
