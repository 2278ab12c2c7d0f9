ghost use Rattle.std.specs.Prelude.{◌≡◌, ◌↔◌, ◌<◌, ◌∷◌, [], ◌++◌, List, Some, None, if◌then◌else◌, IfOk, IsTrue, OnOk, length, position, slice_get, option_copied};
ghost use Rattle.std.specs.Option.{option_or};
ghost use Rattle.std.specs.Ordering.{is_eq};
ghost use Rattle.circuit_spec.specs.declared.hops.PlaceName.{PlaceName as Place};
ghost use Rattle.circuit_spec.specs.Faults.{IsKnown};
ghost use Rattle.circuit_spec.specs.Flags.{same_place};
ghost use Rattle.circuit_spec.specs.Network.{IsClass, Port};
ghost use Rattle.answer_spec.specs.Certificate.{AreCarried, first_place};
ghost use Rattle.verdict.specs.declared.rules.Rule.TheVariants as rule;
ghost use Rattle.hop_check.specs.Deciding.{Decides};
ghost use Rattle.hop_check.specs.Visits.{AreVisits, EntersPlace, first_at, place_cmp};

use crate::carrying::{class_name, first_label};
use answer_spec::Answer;
use circuit_spec::{Hop, PlaceName};
use ml_base::NoMemory;
use nml_inventory::Inventory;
use std::alloc::Global;
use std::collections::BTreeMap;
use verdict::{CheckFault, Rule};

/// Notes the visit of a place.
fn note(visited: &mut BTreeMap<PlaceName, u64>, place: PlaceName, at: u64) -> Result<(), NoMemory>
    ensures { OnOk result ((q : Place) → first_at visited.new q ≡ (if is_eq (place_cmp place q) then Some at else first_at visited.old q)) }
{
    match visited.insert(place, at) {
        Ok(_) => Ok(()),
        Err(_) => Err(NoMemory),
    }
}

/// The number of the first visit of a place; where this is the first, none, and its number is noted.
fn visit(
    visited: &mut BTreeMap<PlaceName, u64>,
    place: PlaceName,
    at: u64,
) -> Result<Option<u64>, NoMemory>
    ensures first { IfOk result (λ first. first ≡ first_at visited.old place) }
    ensures noted { OnOk result ((q : Place) → first_at visited.new q ≡ option_or (first_at visited.old q) (if same_place place q then Some at else None)) }
{
    match visited.get(&place) {
        Some(first) => Ok(Some(*first)),
        None => {
            note(visited, place, at)?;
            Ok(None)
        }
    }
}

/// The place where the hops of the answer begin.
fn place_before(inventory: &Inventory, answer: &Answer) -> Result<PlaceName, NoMemory>
    requires { IsKnown inventory.now answer.now.request }
    ensures { IfOk result (λ place. (class : Port) → IsClass inventory.now answer.now.request.from class → place ≡ first_place class answer.now.request answer.now.hops) }
{
    Ok(PlaceName {
        class: class_name(inventory, &answer.request.from)?,
        label: first_label(answer.request.from_wish, &answer.hops),
    })
}

/// The place that a hop enters.
fn place_behind(inventory: &Inventory, hop: &Hop) -> Result<PlaceName, NoMemory>
    requires { (class : Port) × IsClass inventory.now hop.now.to class }
    ensures { IfOk result (EntersPlace inventory.now hop.now) }
{
    Ok(PlaceName {
        class: class_name(inventory, &hop.to)?,
        label: hop.to_label,
    })
}

/// The place where the hops begin is visited at 0.
fn begin(
    alloc: Global,
    inventory: &Inventory,
    answer: &Answer,
) -> Result<BTreeMap<PlaceName, u64>, NoMemory>
    requires { IsKnown inventory.now answer.now.request }
    ensures { IfOk result (λ visited. (class : Port) → IsClass inventory.now answer.now.request.from class → AreVisits (first_place class answer.now.request answer.now.hops ∷ []) visited) }
{
    let mut visited = BTreeMap::new(alloc);
    let start = place_before(inventory, answer)?;
    visit(&mut visited, start, 0)?;
    Ok(visited)
}

/// The flag that is due at a hop, which enters its place at this number; the visit is noted.
fn flag_due(
    inventory: &Inventory,
    visited: &mut BTreeMap<PlaceName, u64>,
    hop: &Hop,
    at: u64,
) -> Result<Option<u64>, NoMemory>
    requires { (class : Port) × IsClass inventory.now hop.now.to class }
    ensures { IfOk result (λ due. (before : List Place) (place : Place) → AreVisits before visited.old → at ≡ length before → EntersPlace inventory.now hop.now place → (due ≡ position (same_place place) before) × AreVisits (before ++ place ∷ []) visited.new) }
{
    let place = place_behind(inventory, hop)?;
    visit(visited, place, at)
}

/// Whether this is the flag of the hop of a number.
fn is_flag(answer: &Answer, at: usize, due: Option<u64>) -> bool
    requires { at < length answer.now.flags }
    ensures { IsTrue result ↔ slice_get answer.now.flags at ≡ Some due }
{
    match answer.flags.get(at as u64) {
        Some(flag) => *flag == due,
        None => unreachable!(),
    }
}

/// The flags are those of the hops.
pub fn check_flags(alloc: Global, inventory: &Inventory, answer: &Answer) -> Result<(), CheckFault>
    requires known { IsKnown inventory.now answer.now.request }
    requires carried { AreCarried inventory.now answer.now.request answer.now.hops }
    requires counted { length answer.now.hops ≡ length answer.now.flags }
    ensures { Decides inventory.now answer.now rule.Flagged result }
{
    let mut visited = begin(alloc, inventory, answer)?;
    for (at, hop) in answer.hops.as_slice().iter().enumerate() {
        let due = flag_due(inventory, &mut visited, hop, at as u64 + 1)?;
        if !is_flag(answer, at, due) {
            return Err(CheckFault::NotValid {
                line: 4 + at as u64,
                rule: Rule::Flagged,
            });
        }
    }
    Ok(())
}
