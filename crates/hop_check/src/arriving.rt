ghost use Rattle.std.specs.Prelude.{◌≡◌, ◌↔◌, [], ◌<◌, Some, IsTrue, length, slice_get};
ghost use Rattle.circuit_spec.specs.Faults.{IsHere, IsKnown, IsSound};
ghost use Rattle.circuit_spec.specs.Network.{IsClass, Port, Tag, ports};
ghost use Rattle.circuit_spec.specs.Steps.{IsWished, Walk};
ghost use Rattle.packet_replay.specs.Carried.{admits};
ghost use Rattle.verdict.specs.declared.rules.Rule.TheVariants as rule;
ghost use Rattle.hop_check.specs.Arriving.{EndsWell, IsSomewhere, ServesBoth};
ghost use Rattle.hop_check.specs.Carrying.{Leads};
ghost use Rattle.hop_check.specs.Deciding.{Decides};

use crate::ends::class_of;
use answer_spec::Answer;
use circuit_spec::{Outcome, Request, Unit};
use ml_base::{PortNo, Tag, Wish};
use nml_elements::Labels;
use nml_inventory::Inventory;
use verdict::{CheckFault, Rule};

/// Whether the label, or none, is as the wish says.
fn is_wished(wish: Wish, label: Tag) -> bool
    ensures { IsTrue result ↔ IsWished wish label }
{
    match (wish, label) {
        (Wish::Any, _) => true,
        (Wish::Value(wished), Some(label)) => wished == label,
        (Wish::Value(_), None) => false,
    }
}

/// Whether labels have one, or are none.
fn has_some(labels: &Labels) -> bool
    ensures { IsTrue result ↔ ((label : Tag) × IsTrue (admits labels.now label)) }
{
    match labels {
        Labels::Unlabelled => true,
        Labels::Of { set, .. } => set.least().is_some(),
    }
}

/// Whether one open place of the class is as both wishes say, where what they state is there.
fn serves_both(inventory: &Inventory, class: PortNo, from: Wish, to: Wish) -> bool
    requires sound { IsSound inventory.now }
    requires within { class.0 < length (ports inventory.now) }
    ensures { (port : Port) → slice_get (ports inventory.now) class.0 ≡ Some port → IsClass inventory.now port.id port → IsHere inventory.now port from → IsHere inventory.now port to → IsTrue result ↔ ServesBoth inventory.now port from to }
{
    match (from, to) {
        (Wish::Any, Wish::Any) => has_some(inventory.labels_of(class)),
        (Wish::Any, Wish::Value(_)) => true,
        (Wish::Value(_), Wish::Any) => true,
        (Wish::Value(from), Wish::Value(to)) => from == to,
    }
}

/// Whether no hops at all are a walk.
fn stays(inventory: &Inventory, request: &Request) -> bool
    requires sound { IsSound inventory.now }
    requires known { IsKnown inventory.now request.now }
    ensures { IsTrue result ↔ Walk inventory.now request.now [] }
{
    let Some(from) = class_of(inventory, &request.from) else {
        unreachable!()
    };
    let Some(to) = class_of(inventory, &request.to) else {
        unreachable!()
    };
    if *inventory.name(from) != *inventory.name(to) {
        return false;
    }
    serves_both(inventory, from, request.from_wish, request.to_wish)
}

/// Whether the unit, which is at an open place, is at an allowed one of TO with the empty stack.
fn ends_well(inventory: &Inventory, request: &Request, unit: &Unit) -> bool
    requires known { IsKnown inventory.now request.now }
    requires somewhere { IsSomewhere inventory.now unit.now }
    ensures { IsTrue result ↔ EndsWell inventory.now request.now unit.now }
{
    let Some(to) = class_of(inventory, &request.to) else {
        unreachable!()
    };
    if unit.class != *inventory.name(to) {
        return false;
    }
    is_wished(request.to_wish, unit.label) && unit.stack.len() == 0
}

/// Whether the hops, which lead to the unit, are a walk.
fn is_walk(inventory: &Inventory, answer: &Answer, unit: &Unit) -> bool
    requires sound { IsSound inventory.now }
    requires known { IsKnown inventory.now answer.now.request }
    requires led { Leads inventory.now answer.now answer.now.hops unit.now }
    ensures { IsTrue result ↔ Walk inventory.now answer.now.request answer.now.hops }
{
    if answer.hops.len() == 0 {
        return stays(inventory, &answer.request);
    }
    ends_well(inventory, &answer.request, unit)
}

/// What is found is a walk. The unit is the one to which the hops lead.
pub fn check_arrival(inventory: &Inventory, answer: &Answer, unit: &Unit) -> Result<(), CheckFault>
    requires sound { IsSound inventory.now }
    requires known { IsKnown inventory.now answer.now.request }
    requires led { Leads inventory.now answer.now answer.now.hops unit.now }
    ensures { Decides inventory.now answer.now rule.Arrives result }
{
    let Outcome::Found { .. } = answer.outcome else {
        return Ok(());
    };
    if is_walk(inventory, answer, unit) {
        return Ok(());
    }
    Err(CheckFault::NotValid {
        line: 3,
        rule: Rule::Arrives,
    })
}
