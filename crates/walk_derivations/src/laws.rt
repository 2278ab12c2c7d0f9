ghost use Rattle.walk_derivations.specs.Endings.{HaveKinds};
ghost use Rattle.walk_derivations.specs.Laws.{MakeSegments, HaveDerivations, DifferInSteps, EndInOneWay};

use walk_grammar::Stepping;

/// The steps of a derivation are a segment, between the states that the derivation goes between.
pub fn derivations_make_segments<S: Stepping>()
    ensures { MakeSegments S.system }
{}

/// Each segment has a derivation.
pub fn segments_have_derivations<S: Stepping>()
    ensures { HaveDerivations S.system }
{}

/// Where steps tell what they do to the stack, two derivations of the same steps are the same.
pub fn derivations_differ_in_steps<S: Stepping>()
    ensures { HaveKinds S.system → DifferInSteps S.system }
{}

/// Where steps tell what they do to the stack, a segment that has steps ends in one way.
pub fn segments_end_in_one_way<S: Stepping>()
    ensures { HaveKinds S.system → EndInOneWay S.system }
{}
