ghost use Rattle.std.specs.Prelude.{◌≡◌, ◌<◌, ◌≤◌, ◌+◌, [], length, IfOk, OnOk};
ghost use Rattle.circuit_spec.specs.Faults.{IsKnown, IsSound};
ghost use Rattle.circuit_spec.specs.Network.{IsClass, Port};
ghost use Rattle.circuit_spec.specs.Segments.{unit_in};
ghost use Rattle.answer_spec.specs.Certificate.{first_label, first_place};
ghost use Rattle.verdict.specs.declared.rules.Rule.TheVariants as rule;
ghost use Rattle.hop_check.specs.Carrying.{Leads, TakesOrNot};
ghost use Rattle.hop_check.specs.Deciding.{Decides};

use crate::ends::class_of;
use answer_spec::Answer;
use circuit_spec::{FrameList, Hop, HopList, Unit};
use ml_base::{Id, NoMemory, Tag, Wish};
use nml_inventory::Inventory;
use packet_replay::{Replay, StepFault};
use std::alloc::Global;
use verdict::{CheckFault, Rule};

/// The id of the class of a port.
pub fn class_name(inventory: &Inventory, id: &Id) -> Result<Id, NoMemory>
    requires { (class : Port) × IsClass inventory.now id.now class }
    ensures { IfOk result (λ name. (class : Port) → IsClass inventory.now id.now class → name ≡ class.id) }
{
    let Some(class) = class_of(inventory, id) else {
        unreachable!()
    };
    inventory.name(class).share()
}

/// The label with which the hops begin: the stated one, or else that of the first hop.
pub fn first_label(wish: Wish, hops: &HopList) -> Tag
    ensures { result ≡ first_label wish hops.now }
{
    match wish {
        Wish::Value(label) => Some(label),
        Wish::Any => match hops.get(0) {
            Some(hop) => hop.from_label,
            None => None,
        },
    }
}

/// The unit where the hops of the answer begin.
fn first_unit(alloc: Global, inventory: &Inventory, answer: &Answer) -> Result<Unit, NoMemory>
    requires { IsKnown inventory.now answer.now.request }
    ensures { IfOk result (λ unit. (class : Port) → IsClass inventory.now answer.now.request.from class → unit ≡ unit_in (first_place class answer.now.request answer.now.hops) []) }
{
    let class = class_name(inventory, &answer.request.from)?;
    Ok(Unit {
        class,
        label: first_label(answer.request.from_wish, &answer.hops),
        stack: FrameList::new(alloc),
    })
}

/// Takes the unit over the hop, or says that the hop takes it nowhere.
fn takes(inventory: &Inventory, replay: &mut Replay, hop: &Hop) -> Result<bool, NoMemory>
    requires sound { IsSound inventory.now }
    requires room { length replay.old.unit.stack < replay.old.room }
    ensures unit { IfOk result (TakesOrNot inventory.now replay.old.unit hop.now replay.new.unit) }
    ensures room { replay.new.room ≡ replay.old.room }
    ensures height { length replay.new.unit.stack ≤ length replay.old.unit.stack + 1 }
{
    match replay.step(inventory, hop) {
        Ok(()) => Ok(true),
        Err(StepFault::NoMemory) => Err(NoMemory),
        Err(StepFault::Full) => unreachable!(),
        Err(StepFault::NoHop) | Err(StepFault::Label) | Err(StepFault::Frame) => Ok(false),
    }
}

/// Each hop takes the unit that the hops before it left. Gives the unit behind the last hop.
pub fn carry(alloc: Global, inventory: &Inventory, answer: &Answer) -> Result<Replay, CheckFault>
    requires sound { IsSound inventory.now }
    requires known { IsKnown inventory.now answer.now.request }
    ensures decides { Decides inventory.now answer.now rule.Carried result }
    ensures led { IfOk result (λ replay. Leads inventory.now answer.now answer.now.hops replay.unit) }
{
    let unit = first_unit(alloc, inventory, answer)?;
    let mut replay = Replay::new(alloc, unit, answer.hops.len())?;
    let mut line = 4;
    for hop in answer.hops.as_slice() {
        if !takes(inventory, &mut replay, hop)? {
            return Err(CheckFault::NotValid {
                line,
                rule: Rule::Carried,
            });
        }
        line += 1;
    }
    Ok(replay)
}
