ghost use Rattle.std.specs.Prelude.{IfErr, OnOk};
ghost use Rattle.answer_spec.specs.WellFormed.{IsWellFormed};
ghost use Rattle.circuit_spec.specs.Network.{Topology};
ghost use Rattle.machine_lift.specs.Lift.{IsMachineOf};
ghost use Rattle.verdict.specs.declared.rules.Rule.TheVariants as rule;
ghost use Rattle.verdict.specs.Rules.{PassWithin};
ghost use Rattle.potential_check.specs.Faults.{IsFirstOf};

use crate::agreeing::is_outcome_of;
use crate::fault::PotentialFault;
use crate::pairs::pairs_of;
use answer_spec::Answer;
use machine_build::Built;
use pair_check::{check_pairs, least_listed};
use std::alloc::Global;
use verdict::Rule;

/// Whether the potentials of a well-formed answer keep the rules of a certificate on them; else the first rule on them that fails, and
/// where. The machine must be that of the request, over its kept labels.
pub fn check_potentials(alloc: Global, built: &Built, answer: &Answer) -> Result<(), PotentialFault>
    requires formed { IsWellFormed answer.now }
    requires machine { (T : Topology) × IsMachineOf T answer.now.request built.now }
    ensures ok { (T : Topology) → IsMachineOf T answer.now.request built.now → OnOk result (PassWithin T answer.now rule.Placed rule.Agrees) }
    ensures err { (T : Topology) → IsMachineOf T answer.now.request built.now → IfErr result (IsFirstOf T answer.now) }
{
    let pots = pairs_of(alloc, built, &answer.potentials)?;
    check_pairs(alloc, built.machine(), built.starts(), &pots)?;
    let least = least_listed(&pots, built.targets());
    if !is_outcome_of(least, answer.outcome) {
        return Err(PotentialFault::Outcome { rule: Rule::Agrees });
    }
    Ok(())
}
