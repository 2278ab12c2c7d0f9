ghost use Rattle.std.specs.Prelude.{◌≡◌, ◌↔◌, ◌<◌, ◌≤◌, [], ◌∷◌, IfOk, IsTrue, length};
ghost use Rattle.circuit_spec.specs.Faults.{IsSound};
ghost use Rattle.circuit_spec.specs.Flags.{flags_after};
ghost use Rattle.circuit_spec.specs.Segments.{unit_in};
ghost use Rattle.table_replay.specs.Walked.{AreUnset};
ghost use Rattle.rule_replay.specs.Carrying.{IsCarry, Passes, StepsOver};

use crate::replayed::ReplayCause;
use circuit_spec::{Hop, HopList, PlaceName};
use indexmap::IndexSet;
use keyed_hash::{Keyed, ReadDigest};
use ml_base::{Items, NoMemory};
use nml_inventory::Inventory;
use packet_replay::{Replay, StepFault};
use std::alloc::Global;
use table_replay::{add_place, meet, place_of, unit_at};

/// A unit on its way, and the places where it was, one after another.
#[derive(Drop)]
pub struct Passed {
    pub replay: Replay,
    pub places: Items<PlaceName>,
}

/// The unit behind all hops, or the number of the first hop that it cannot take and why.
#[derive(Drop)]
pub enum Carry {
    Through(Passed),
    Refused { at: u64, cause: ReplayCause },
}

/// Takes the unit over the hop, or says why it cannot take it.
fn step_over(
    replay: &mut Replay,
    inventory: &Inventory,
    hop: &Hop,
) -> Result<Option<ReplayCause>, NoMemory>
    requires sound { IsSound inventory.now }
    requires room { length replay.old.unit.stack < replay.old.room }
    ensures steps { IfOk result (StepsOver inventory.now replay.old.unit replay.new.unit hop.now) }
    ensures room { replay.new.room ≡ replay.old.room }
{
    match replay.step(inventory, hop) {
        Ok(()) => Ok(None),
        Err(StepFault::NoHop) => Ok(Some(ReplayCause::NoHop)),
        Err(StepFault::Label) => Ok(Some(ReplayCause::Label)),
        Err(StepFault::Frame) => Ok(Some(ReplayCause::Frame)),
        Err(StepFault::Full) => unreachable!(),
        Err(StepFault::NoMemory) => Err(NoMemory),
    }
}

/// Takes the unit over the hop, and puts its place behind the others.
fn pass(
    passed: &mut Passed,
    inventory: &Inventory,
    hop: &Hop,
) -> Result<Option<ReplayCause>, NoMemory>
    requires sound { IsSound inventory.now }
    requires room { length passed.old.replay.unit.stack < passed.old.replay.room }
    ensures passes { IfOk result (Passes inventory.now hop.now passed.old.replay.unit passed.new.replay.unit passed.old.places passed.new.places) }
    ensures room { passed.new.replay.room ≡ passed.old.replay.room }
{
    match step_over(&mut passed.replay, inventory, hop)? {
        Some(cause) => Ok(Some(cause)),
        None => {
            passed.places.push(place_of(passed.replay.unit())?)?;
            Ok(None)
        }
    }
}

/// A unit at the start place with no frames round it, with room for this many.
fn begin(alloc: Global, start: &PlaceName, room: u64) -> Result<Passed, NoMemory>
    ensures unit { IfOk result (λ passed. passed.replay.unit ≡ unit_in start.now []) }
    ensures room { IfOk result (λ passed. room ≤ passed.replay.room) }
    ensures places { IfOk result (λ passed. passed.places ≡ start.now ∷ []) }
{
    let replay = Replay::new(alloc, unit_at(alloc, start)?, room)?;
    let mut places = Items::new(alloc);
    places.push(start.share()?)?;
    Ok(Passed { replay, places })
}

/// Takes a unit from the start place over the hops, one after another.
pub fn carry_unit(
    alloc: Global,
    inventory: &Inventory,
    start: &PlaceName,
    hops: &HopList,
) -> Result<Carry, NoMemory>
    requires { IsSound inventory.now }
    ensures { IfOk result (IsCarry inventory.now start.now hops.now) }
{
    let mut passed = begin(alloc, start, hops.len())?;
    let hops = hops.as_slice();
    for number in 0..hops.len() {
        match pass(&mut passed, inventory, &hops[number])? {
            Some(cause) => return Ok(Carry::Refused {
                at: number as u64 + 1,
                cause,
            }),
            None => {}
        }
    }
    Ok(Carry::Through(passed))
}

/// The key of these places.
fn key_of(places: &[PlaceName]) -> Keyed {
    let mut digest = ReadDigest::new();
    for place in places {
        add_place(&mut digest, &place.class, place.label);
    }
    digest.key()
}

/// Whether no two of the places are the same.
pub fn are_apart(alloc: Global, places: &[PlaceName]) -> Result<bool, NoMemory>
    ensures { IfOk result (λ apart. IsTrue apart ↔ AreUnset (flags_after [] places.now)) }
{
    let mut met = IndexSet::with_hasher(alloc, key_of(places));
    for place in places {
        if !meet(&mut met, place)? {
            return Ok(false);
        }
    }
    Ok(true)
}
