ghost use Rattle.std.specs.Prelude.{List};
ghost use Rattle.adapt_machine.specs.declared.MachineStep.{MachineStep};
ghost use Rattle.deriv_arena.specs.Derivation.{IsOver, IsSegment};

use crate::Deriv;

/// The unfolding of a derivation over a machine is a segment of it, between the derivation's ends.
pub fn segment_law<'a>(deriv: &Deriv<'a>)
    ensures { (steps : List MachineStep) → IsOver steps deriv.now → IsSegment steps deriv.now }
{}
