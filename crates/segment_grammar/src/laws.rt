ghost use Rattle.std.specs.Prelude.{List, ◌↔◌};
ghost use Rattle.ml_base.specs.declared.numbers.StateNo.{StateNo};
ghost use Rattle.ml_base.specs.declared.numbers.Root.{Root};
ghost use Rattle.adapt_machine.specs.declared.MachineStep.{MachineStep};
ghost use Rattle.segment_grammar.specs.Reached.{IsReached};
ghost use Rattle.segment_grammar.specs.Generated.{Generated};

/// The pairs that whole runs reach are those that are generated, one step or one nest at a time.
pub fn reached_pairs_are_generated()
    ensures { (steps : List MachineStep) (starts : List StateNo) (root : Root) (state : StateNo) → IsReached steps starts root state ↔ Generated steps starts root state }
{}
