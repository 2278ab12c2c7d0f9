ghost use Rattle.std.specs.Prelude.{◌≡◌, ◌<◌, ◌+◌, length};
ghost use Rattle.circuit_spec.specs.Network.{Topology};
ghost use Rattle.verdict.specs.declared.rules.Rule.TheVariants as rule;
ghost use Rattle.verdict.specs.Faults.{TellsFirst, first_potential_line};
ghost use Rattle.verdict.specs.Rules.{PassWithin};
ghost use Rattle.potential_check.specs.Faults.{IsFirstOf};

use answer_spec::Answer;
use hop_check::count_rule_lines;
use potential_check::PotentialFault;
use verdict::CheckFault;

/// The line of the potential of this place.
fn potential_line(answer: &Answer, place: u64) -> u64
    requires { place < length answer.now.potentials }
    ensures { result ≡ first_potential_line answer.now + place }
{
    let hops = answer.hops.as_slice().len() as u64;
    // That the list is in memory bounds its places, so the sum fits.
    let _potentials = answer.potentials.as_slice();
    4 + hops + count_rule_lines(&answer.rules) + place
}

/// The fault of a document whose first fault is one of its potentials.
pub fn fault_at(answer: &Answer, fault: PotentialFault) -> CheckFault
    requires { (T : Topology) × IsFirstOf T answer.now fault }
    ensures { (T : Topology) → PassWithin T answer.now rule.Ends rule.Ruled → IsFirstOf T answer.now fault → TellsFirst T answer.now result }
{
    match fault {
        PotentialFault::Potential { rule, place } => CheckFault::NotValid {
            line: potential_line(answer, place),
            rule,
        },
        PotentialFault::Outcome { rule } => CheckFault::NotValid { line: 3, rule },
        PotentialFault::NoMemory => CheckFault::NoMemory,
    }
}
