ghost use Rattle.std.specs.Prelude.{◌≡◌, ◌≢◌, ◌≤◌, ◌<◌, ◌+◌, ◌↔◌, [], IfOk, IfErr, IsTrue, OnOk, length};
ghost use Rattle.circuit_spec.specs.Faults.{IsSound};
ghost use Rattle.circuit_spec.specs.Segments.{unit_in};
ghost use Rattle.table_replay.specs.Forwarding.{Answers, Ending, ForwardsFrom, IsFault, arrived, place_of};
ghost use Rattle.table_replay.specs.Tabled.{Arrives, IsReady, Meets, Moves, StopsOrFails, Takes};

use crate::fault::ForwardFault;
use crate::table::{Slot, Table, table_of};
use circuit_spec::{FrameList, Hop, HopList, PlaceName, Unit};
use device_rules::RuleList;
use indexmap::IndexSet;
use keyed_hash::Keyed;
use ml_base::NoMemory;
use nml_inventory::Inventory;
use packet_replay::{Replay, StepFault};
use std::alloc::Global;

/// A unit on its way: the slots of the places that it has not met, the places that it has met, and the hops that it has taken.
#[derive(Drop)]
pub struct Way {
    pub replay: Replay,
    pub table: Table,
    pub met: IndexSet<PlaceName, Keyed>,
    pub hops: HopList,
}

/// The unit at a place, with no frames round it.
pub fn unit_at(alloc: Global, place: &PlaceName) -> Result<Unit, NoMemory>
    ensures { IfOk result (λ unit. unit ≡ unit_in place.now []) }
{
    Ok(Unit {
        class: place.class.share()?,
        label: place.label,
        stack: FrameList::new(alloc),
    })
}

/// The place where a unit is.
pub fn place_of(unit: &Unit) -> Result<PlaceName, NoMemory>
    ensures { IfOk result (λ place. place ≡ place_of unit.now) }
{
    Ok(PlaceName {
        class: unit.class.share()?,
        label: unit.label,
    })
}

/// Puts the place behind those that were met. The answer is whether it was not among them.
pub fn meet(met: &mut IndexSet<PlaceName, Keyed>, place: &PlaceName) -> Result<bool, NoMemory>
    ensures { IfOk result (Meets met.old.keys met.new.keys place.now) }
{
    let Ok(put) = met.insert_full(place.share()?) else {
        return Err(NoMemory);
    };
    Ok(put.1)
}

/// Takes the unit over the hop. The answer is whether it is a hop of the unit.
fn take_hop(replay: &mut Replay, inventory: &Inventory, hop: &Hop) -> Result<bool, NoMemory>
    requires sound { IsSound inventory.now }
    requires room { length replay.old.unit.stack < replay.old.room }
    ensures moves { IfOk result (Moves inventory.now replay.old replay.new hop.now) }
    ensures room { replay.new.room ≡ replay.old.room }
{
    match replay.step(inventory, hop) {
        Ok(()) => Ok(true),
        Err(StepFault::NoHop) => Ok(false),
        Err(StepFault::Label) => Ok(false),
        Err(StepFault::Frame) => Ok(false),
        Err(StepFault::Full) => Ok(false),
        Err(StepFault::NoMemory) => Err(NoMemory),
    }
}

impl Way {
    /// The unit at the start place, before any rule is taken.
    pub fn new(
        alloc: Global,
        inventory: &Inventory,
        rules: &RuleList,
        start: &PlaceName,
    ) -> Result<Way, NoMemory>
        ensures unit { IfOk result (λ way. way.replay.unit ≡ unit_in start.now []) }
        ensures ready { IfOk result (λ way. IsReady inventory.now rules.now way.replay way.table way.met.keys) }
        ensures unmet { IfOk result (λ way. (way.met.keys ≡ []) × (way.hops ≡ [])) }
    {
        let table = table_of(alloc, inventory, rules.as_slice())?;
        let unit = unit_at(alloc, start)?;
        let replay = Replay::new(alloc, unit, rules.len())?;
        let met = IndexSet::with_hasher(alloc, table.hashing());
        Ok(Way {
            replay,
            table,
            met,
            hops: HopList::new(alloc),
        })
    }

    /// Whether the unit is at the place.
    pub fn is_at(&self, place: &PlaceName) -> bool
        ensures { IsTrue result ↔ (place_of self.now.replay.unit ≡ place.now) }
    {
        let unit = self.replay.unit();
        unit.class == place.class && unit.label == place.label
    }

    /// Takes the one rule that leaves from the unit's place, which is not the target.
    pub fn turn(
        &mut self,
        inventory: &Inventory,
        rules: &RuleList,
        target: &PlaceName,
    ) -> Result<(), ForwardFault>
        requires sound { IsSound inventory.now }
        requires ready { IsReady inventory.now rules.now self.old.replay self.old.table self.old.met.keys }
        requires away { place_of self.old.replay.unit ≢ target.now }
        ensures ready { OnOk result (IsReady inventory.now rules.now self.new.replay self.new.table self.new.met.keys) }
        ensures takes { OnOk result (Takes inventory.now rules.now target.now self.old.met.keys self.new.met.keys self.old.replay.unit self.new.replay.unit self.old.hops self.new.hops) }
        ensures fewer { OnOk result (length self.new.table < length self.old.table) }
        ensures stops { IfErr result (StopsOrFails inventory.now rules.now target.now self.old.met.keys self.old.replay.unit) }
    {
        let at = place_of(self.replay.unit())?;
        if !meet(&mut self.met, &at)? {
            return Err(ForwardFault::Loop { at });
        }
        let number = match self.table.take(&at) {
            Some(Slot::One(number)) => number,
            Some(Slot::Several) => return Err(ForwardFault::TwoRules { at }),
            None => return Err(ForwardFault::NoRule { at }),
        };
        let hop = &rules.as_slice()[number as usize].hop;
        if !take_hop(&mut self.replay, inventory, hop)? {
            return Err(ForwardFault::Step { at });
        }
        self.hops.push(hop.share()?)?;
        Ok(())
    }

    /// The hops that the unit has taken, where it has arrived at the target.
    pub fn arrive(self) -> Result<HopList, ForwardFault>
        ensures { Arrives self.replay.unit self.hops result }
    {
        let frames = self.replay.unit().stack.len();
        if frames > 0 {
            return Err(ForwardFault::Left { frames });
        }
        Ok(self.hops)
    }
}
