ghost use Rattle.std.specs.Prelude.{◌≡◌, ◌≤◌, ◌↔◌, IfErr, IfOk, IsErrOf, MatchResult, OnErr, OnOk, length, max};
ghost use Rattle.circuit_spec.specs.declared.hops.Unit.{Unit as DataUnit};
ghost use Rattle.circuit_spec.specs.Faults.{IsSound};
ghost use Rattle.circuit_spec.specs.Steps.{Step};
ghost use Rattle.packet_replay.specs.Carried.{IsFirstRefusal};
ghost use Rattle.packet_replay.specs.Conditions.{Fits, HasRoom, IsRefused, Way, unit_after};
ghost use Rattle.packet_replay.specs.Numbered.{AreNumbers};

use crate::faults::StepFault;
use crate::frames::{fits_frame, has_room, restack};
use crate::labels::fits_labels;
use crate::numbers::{Numbers, numbers_of};
use crate::relating::is_related;
use circuit_spec::{Hop, Unit};
use ml_base::NoMemory;
use nml_inventory::Inventory;
use std::alloc::Global;
use std::marker::Model;

/// A data unit on its way through a network. Contracts see the unit, and for how many frames its stack has room.
#[derive(Debug, Drop)]
pub struct Replay {
    unit: Unit,
    room: u64,
}

impl Model for Replay {
    ghost use Rattle.packet_replay.specs.Carried.{Carried};

    ghost Value = { Carried };

    ghost view = { λ r. record { unit = r.unit; room = r.room } };
}

/// The numbers of what a hop names where the unit can take it, or the first condition that fails.
fn check(inventory: &Inventory, unit: &Unit, room: u64, hop: &Hop) -> Result<Numbers, StepFault>
    requires { IsSound inventory.now }
    ensures ok { IfOk result (λ numbers. (way : Way) × AreNumbers inventory.now hop.now way numbers × Fits inventory.now unit.now hop.now way × HasRoom room unit.now hop.now) }
    ensures err { IfErr result (IsFirstRefusal inventory.now room unit.now hop.now) }
{
    let Some(numbers) = numbers_of(inventory, hop) else {
        return Err(StepFault::NoHop);
    };
    if !is_related(inventory, unit, hop, numbers) {
        return Err(StepFault::NoHop);
    }
    if !fits_labels(inventory, unit, hop, numbers) {
        return Err(StepFault::Label);
    }
    if !fits_frame(inventory, unit, hop, numbers) {
        return Err(StepFault::Frame);
    }
    if !has_room(room, unit, hop) {
        return Err(StepFault::Full);
    }
    Ok(numbers)
}

impl Replay {
    /// The unit, whose stack gets room for so many frames in all, or for those that it has if they are more. All memory for frames
    /// is taken here.
    pub fn new(alloc: Global, unit: Unit, room: u64) -> Result<Replay, NoMemory>
        ensures { IfOk result (λ replay. (replay.unit ≡ unit) × (replay.room ≡ max room (length unit.stack))) }
    {
        let _ = alloc;
        let mut unit = unit;
        unit.stack.reserve(room)?;
        let room = room.max(unit.stack.len());
        Ok(Replay { unit, room })
    }

    /// The unit where it is now.
    pub fn unit(&self) -> &Unit
        ensures { result.now ≡ self.now.unit }
    {
        &self.unit
    }

    /// Takes the hop.
    fn advance(
        &mut self,
        inventory: &Inventory,
        hop: &Hop,
        numbers: Numbers,
    ) -> Result<(), NoMemory>
        requires sound { IsSound inventory.now }
        requires numbers { (way : Way) × AreNumbers inventory.now hop.now way numbers }
        ensures ok { OnOk result ((way : Way) → AreNumbers inventory.now hop.now way numbers → self.new.unit ≡ unit_after hop.now way self.old.unit) }
        ensures err { OnErr result (self.new ≡ self.old) }
        ensures room { self.new.room ≡ self.old.room }
    {
        let class = inventory.name(numbers.to.class).share()?;
        restack(inventory, &mut self.unit.stack, hop, numbers)?;
        self.unit.class = class;
        self.unit.label = hop.to_label;
        Ok(())
    }

    /// Takes the unit over the hop, if it is a hop of the unit and the stack has room.
    ///
    /// # Errors
    ///
    /// The first condition that fails, in this order: `NoHop`, `Label`, `Frame`, `Full`; and `NoMemory` where all of them hold. The
    /// unit is then as it was.
    pub fn step(&mut self, inventory: &Inventory, hop: &Hop) -> Result<(), StepFault>
        requires { IsSound inventory.now }
        ensures ok { OnOk result (Step inventory.now self.old.unit hop.now self.new.unit) }
        ensures next { (v : DataUnit) → Step inventory.now self.old.unit hop.now v → HasRoom self.old.room self.old.unit hop.now → MatchResult result (λ _. self.new.unit ≡ v) (λ fault. fault ≡ StepFault.NoMemory) }
        ensures no_hop { IsErrOf result StepFault.NoHop ↔ IsRefused inventory.now self.old.room self.old.unit hop.now StepFault.NoHop }
        ensures label { IsErrOf result StepFault.Label ↔ IsRefused inventory.now self.old.room self.old.unit hop.now StepFault.Label }
        ensures frame { IsErrOf result StepFault.Frame ↔ IsRefused inventory.now self.old.room self.old.unit hop.now StepFault.Frame }
        ensures full { IsErrOf result StepFault.Full ↔ IsRefused inventory.now self.old.room self.old.unit hop.now StepFault.Full }
        ensures memory { IsErrOf result StepFault.NoMemory → IsRefused inventory.now self.old.room self.old.unit hop.now StepFault.NoMemory }
        ensures unchanged { OnErr result (self.new ≡ self.old) }
        ensures room { self.new.room ≡ self.old.room }
    {
        let numbers = match check(inventory, &self.unit, self.room, hop) {
            Ok(numbers) => numbers,
            Err(fault) => return Err(fault),
        };
        let Ok(()) = self.advance(inventory, hop, numbers) else {
            return Err(StepFault::NoMemory);
        };
        Ok(())
    }
}
