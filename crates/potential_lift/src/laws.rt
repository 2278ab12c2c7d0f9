ghost use Rattle.std.specs.Prelude.{List};
ghost use Rattle.segment_grammar.specs.declared.potentials.Pot.{Pot};
ghost use Rattle.circuit_spec.specs.declared.hops.Request.{Request};
ghost use Rattle.circuit_spec.specs.Network.{Topology};
ghost use Rattle.knuth_search.specs.Settled.{ArePotentials};
ghost use Rattle.machine_build.specs.Built.{BuiltValue};
ghost use Rattle.machine_lift.specs.Lift.{IsMachineOf};
ghost use Rattle.potential_lift.specs.Lines.{AreWithin};

/// The potentials of the machine of a network are those of pairs of its states.
pub fn pairs_are_within()
    ensures { (T : Topology) (r : Request) (b : BuiltValue) (pots : List Pot) → IsMachineOf T r b → ArePotentials b.machine.steps b.starts pots → AreWithin b pots }
{}
