ghost use Rattle.std.specs.Prelude.{◌↔◌, List};
ghost use Rattle.ml_base.specs.declared.numbers.Root.{Root};
ghost use Rattle.ml_base.specs.declared.numbers.StateNo.{StateNo};
ghost use Rattle.ml_base.specs.declared.weight.Weight.{Weight};
ghost use Rattle.segment_grammar.specs.Reached.{IsLeast, IsReached as IsReachedState};
ghost use Rattle.circuit_spec.specs.declared.hops.PlaceName.{PlaceName};
ghost use Rattle.circuit_spec.specs.declared.hops.Request.{Request};
ghost use Rattle.circuit_spec.specs.Network.{Topology};
ghost use Rattle.circuit_spec.specs.Segments.{IsLeastOf, IsReached, RootPlace};
ghost use Rattle.kept_table.specs.Table.{IsKeptTable, KeptOfType};
ghost use Rattle.machine_build.specs.Built.{BuiltValue, IsBuilt, IsState};
ghost use Rattle.machine_lift.specs.Lift.{AreLifted, ArePaired, IsMachineOf, IsRootAt};

/// The segments of a machine that is built over the kept labels of a request are the segments of the network: the hops of the steps of
/// a segment are a segment of the same weight, under the place of its root, and each segment of the network is such.
pub fn segments_are_lifted()
    ensures { (T : Topology) (r : Request) (table : List KeptOfType) (b : BuiltValue) → IsKeptTable T r table → IsBuilt T table r b → AreLifted T r b }
{}

/// So a root and a state of the machine are reached where the root and the place of the network are, and have the same least weight.
pub fn pairs_are_lifted()
    ensures reached { (T : Topology) (r : Request) (b : BuiltValue) → AreLifted T r b → (root : Root) (at : RootPlace) (state : StateNo) (place : PlaceName)
        → IsRootAt b root at → IsState b state place → IsReachedState b.machine.steps b.starts root state ↔ IsReached T r at place }
    ensures least { (T : Topology) (r : Request) (b : BuiltValue) → AreLifted T r b → (root : Root) (at : RootPlace) (state : StateNo) (place : PlaceName)
        → IsRootAt b root at → IsState b state place → (w : Weight) → IsLeast b.machine.steps b.starts root state w ↔ IsLeastOf T r at place w }
{}

/// And each pair that the machine or the network reaches belongs to a pair of the other.
pub fn reached_pairs_meet()
    ensures { (T : Topology) (r : Request) (b : BuiltValue) → IsMachineOf T r b → ArePaired T r b }
{}
