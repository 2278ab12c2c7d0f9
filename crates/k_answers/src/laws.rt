ghost use Rattle.std.specs.Prelude.{◌≡◌, ℕ, List, Some};
ghost use Rattle.ml_base.specs.declared.ends.KEnd.{KEnd};
ghost use Rattle.circuit_spec.specs.declared.hops.Outcome.{Outcome};
ghost use Rattle.circuit_spec.specs.declared.hops.Request.{Request};
ghost use Rattle.circuit_spec.specs.declared.hops.TheConstants.{HOP_LIMIT};
ghost use Rattle.circuit_spec.specs.Faults.{IsSound};
ghost use Rattle.circuit_spec.specs.Keeping.{GivesKeepers, Keeping};
ghost use Rattle.circuit_spec.specs.Network.{Topology};
ghost use Rattle.circuit_spec.specs.Steps.{IsOutcome};
ghost use Rattle.k_answers.specs.declared.answer.KAnswer.{KAnswer};
ghost use Rattle.k_answers.specs.declared.answer.KHops.{KHops};
ghost use Rattle.k_answers.specs.KAnswers.{IsKAnswer, IsKFormed};
ghost use Rattle.k_answers.specs.KLists.{IsKList, outcome_told};

/// In a sound topology the first listed walk is a cheapest of all walks, over all labels; where none is listed, there is no walk, each
/// is past, or the least weight is the stated one, as the end says.
pub fn first_walks_tell_outcomes()
    ensures { (T : Topology) (r : Request) (keeping : Keeping) → IsSound T → GivesKeepers T r keeping → (k : ℕ) (walks : List KHops) (end : KEnd)
        → IsKList T r k HOP_LIMIT walks end → (outcome : Outcome) → outcome_told walks end ≡ Some outcome → IsOutcome T r outcome }
{}

/// Each listed weight has a cost and a number of hops.
pub fn listed_weights_are_known()
    ensures { (T : Topology) (r : Request) (k : ℕ) (a : KAnswer) → IsKAnswer T r k a → IsKFormed a }
{}
