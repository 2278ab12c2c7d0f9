ghost use Rattle.std.specs.Prelude.{◌↔◌, IsTrue};
ghost use Rattle.potential_check.specs.Pairs.{IsOutcomeOf};

use circuit_spec::Outcome;
use ml_base::Weight;

/// Whether the outcome is as the least weight at the targets, if there is one.
pub(crate) fn is_outcome_of(least: Option<Weight>, outcome: Outcome) -> bool
    ensures { IsTrue result ↔ IsOutcomeOf least outcome }
{
    match outcome {
        Outcome::NoWalk => least.is_none(),
        Outcome::Past => least == Some(Weight::Past),
        Outcome::Found { cost, hops } | Outcome::Long { cost, hops } => {
            least == Some(Weight::Known { cost, hops })
        }
    }
}
