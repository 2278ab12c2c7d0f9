ghost use Rattle.std.specs.Prelude.{◌≡◌, List, IfOk, IfErr};
ghost use Rattle.circuit_spec.specs.declared.hops.Hop.{Hop};
ghost use Rattle.circuit_spec.specs.Faults.{IsSound};
ghost use Rattle.table_replay.specs.Forwarding.{Answers, Ending, ForwardsFrom, IsFault, arrived};
ghost use Rattle.table_replay.specs.Walked.{AreRulesInAnyOrder, IsPlainWalk};

use crate::fault::ForwardFault;
use crate::way::Way;
use circuit_spec::{HopList, PlaceName};
use device_rules::RuleList;
use nml_inventory::Inventory;
use std::alloc::Global;

/// Takes a unit by rules until it arrives or stops.
fn carry(
    alloc: Global,
    inventory: &Inventory,
    rules: &RuleList,
    start: &PlaceName,
    target: &PlaceName,
) -> Result<HopList, ForwardFault>
    requires { IsSound inventory.now }
    ensures ok { IfOk result (λ hops. ForwardsFrom inventory.now rules.now start.now target.now hops arrived) }
    ensures err { IfErr result (IsFault inventory.now rules.now start.now target.now) }
{
    let mut way = Way::new(alloc, inventory, rules, start)?;
    while !way.is_at(target) {
        match way.turn(inventory, rules, target) {
            Ok(()) => {}
            Err(fault) => return Err(fault),
        }
    }
    way.arrive()
}

/// Forwards a unit by rules, from the start place to the target.
///
/// The unit begins with no frames round it. At each place the one rule whose from class and label are the place is taken as a hop.
/// The answer is the hops that were taken. The numbers of the rules and the order of the list are not looked at. It takes a few
/// look-ups by id for each rule and each hop.
///
/// # Errors
///
/// Away from the target: `Loop` at a place that was met before, else `NoRule` or `TwoRules` at a place that no rule leaves from, or
/// more than one, else `Step` where the rule is no hop of the unit. At the target: `Left` where frames stand round the unit.
pub fn forward(
    alloc: Global,
    inventory: &Inventory,
    rules: &RuleList,
    start: &PlaceName,
    target: &PlaceName,
) -> Result<HopList, ForwardFault>
    requires { IsSound inventory.now }
    ensures ok { IfOk result (λ hops. ForwardsFrom inventory.now rules.now start.now target.now hops arrived) }
    ensures err { IfErr result (IsFault inventory.now rules.now start.now target.now) }
    ensures exact { (hops : List Hop) (ending : Ending) → ForwardsFrom inventory.now rules.now start.now target.now hops ending → Answers result hops ending }
    ensures plain { (hops : List Hop) → IsPlainWalk inventory.now start.now target.now hops → AreRulesInAnyOrder hops rules.now → Answers result hops arrived }
{
    carry(alloc, inventory, rules, start, target)
}
