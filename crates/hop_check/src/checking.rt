ghost use Rattle.std.specs.Prelude.{MatchResult};
ghost use Rattle.circuit_spec.specs.Faults.{IsSound};
ghost use Rattle.answer_spec.specs.WellFormed.{IsWellFormed};
ghost use Rattle.verdict.specs.declared.rules.Rule.TheVariants as rule;
ghost use Rattle.verdict.specs.Faults.{TellsFirst};
ghost use Rattle.verdict.specs.Rules.{PassWithin};

use crate::arriving::check_arrival;
use crate::carrying::carry;
use crate::ends::check_ends;
use crate::flagging::check_flags;
use crate::ruling::check_rules;
use crate::weighing::check_weight;
use answer_spec::Answer;
use nml_inventory::Inventory;
use std::alloc::Global;
use verdict::CheckFault;

/// Checks the rules on the request, the hops, their flags and the rules of devices, in the order of their numbers.
///
/// # Errors
///
/// The first rule that fails, with the first line at which it fails; or want of memory.
pub fn check_hops(alloc: Global, inventory: &Inventory, answer: &Answer) -> Result<(), CheckFault>
    requires sound { IsSound inventory.now }
    requires formed { IsWellFormed answer.now }
    ensures { MatchResult result (λ _. PassWithin inventory.now answer.now rule.Ends rule.Ruled) (TellsFirst inventory.now answer.now) }
{
    check_ends(inventory, answer)?;
    let replay = carry(alloc, inventory, answer)?;
    check_arrival(inventory, answer, replay.unit())?;
    check_weight(inventory, answer)?;
    check_flags(alloc, inventory, answer)?;
    check_rules(alloc, answer)?;
    Ok(())
}
