ghost use Rattle.std.specs.Prelude.{ℕ};
ghost use Rattle.walk_grammar.specs.System.{System, Origin};
ghost use Rattle.walk_grammar.specs.Rules.{IsFound, Rules};
ghost use Rattle.walk_grammar.specs.Laws.{HoldsOfSegments, RunsStandOnStacks};

/// A system of steps, and the states where runs of the request start. Contracts alone read its members.
pub trait Stepping {
    type State;

    type Frame;

    type Step;

    ghost system: { System Self.State Self.Frame Self.Step };

    ghost starts: { Self.State → Type 0 };
}

/// A relation on the roots and states of a system, costs and numbers of steps.
pub trait Relation: Stepping {
    ghost holds: { Origin Self.State → Self.State → ℕ → ℕ → Type 0 };
}

/// A run goes under any stack: what runs from one stack to another does so with any frames below, and leaves them as they are.
pub fn runs_stand_on_stacks<S: Stepping>()
    ensures { RunsStandOnStacks S.system }
{}

/// The rules make segments alone: that there is a segment of this root, state, cost and number of steps keeps each of them, with
/// the summed weight.
pub fn rules_are_sound<S: Stepping>()
    ensures { Rules S.system S.starts (IsFound S.system S.starts) }
{}

/// The rules make every segment: a relation that keeps them has each segment under each root, at its cost and number of steps.
pub fn rules_are_complete<R: Relation>()
    ensures { Rules R.system R.starts R.holds → HoldsOfSegments R.system R.starts R.holds }
{}
