ghost use Rattle.std.specs.Prelude.{List};
ghost use Rattle.adapt_machine.specs.declared.MachineStep.{MachineStep};
ghost use Rattle.adapt_machine.specs.Walks.{system_of};
ghost use Rattle.walk_derivations.specs.Endings.{HaveKinds};

/// The steps of a machine tell what they do to the stack. So each segment of it has one derivation, by the laws of `walk_derivations`:
/// whoever takes segments apart by how they end comes to each walk once.
pub fn machine_steps_have_kinds()
    ensures { (steps : List MachineStep) → HaveKinds (system_of steps) }
{}
