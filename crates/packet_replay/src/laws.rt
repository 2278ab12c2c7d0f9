ghost use Rattle.std.specs.Prelude.{◌≡◌, ℕ};
ghost use Rattle.circuit_spec.specs.declared.hops.Hop.{Hop};
ghost use Rattle.circuit_spec.specs.declared.hops.Unit.{Unit as DataUnit};
ghost use Rattle.circuit_spec.specs.Network.{Topology};
ghost use Rattle.circuit_spec.specs.Steps.{Step};
ghost use Rattle.packet_replay.specs.declared.faults.StepFault.{StepFault};
ghost use Rattle.packet_replay.specs.Conditions.{IsRefused, StepsWhereFitting, TellsOfSteps};

/// A unit has a next one over a hop exactly where the hop is related to it and fits its label, its place and its top frame.
pub fn hops_that_fit()
    ensures { (T : Topology) (u : DataUnit) (h : Hop) → StepsWhereFitting T u h }
{}

/// A unit has one next unit at most over a hop.
pub fn next_unit_is_one()
    ensures { (T : Topology) (u : DataUnit) (h : Hop) (v w : DataUnit) → Step T u h v → Step T u h w → v ≡ w }
{}

/// A hop is refused in one way at most.
pub fn refusal_is_one()
    ensures { (T : Topology) (room : ℕ) (u : DataUnit) (h : Hop) (one other : StepFault) → IsRefused T room u h one → IsRefused T room u h other → one ≡ other }
{}

/// `NoHop`, `Label` and `Frame` say that there is no next unit; `Full` and want of memory say that there is one.
pub fn refusals_tell_of_steps()
    ensures { (T : Topology) (room : ℕ) (u : DataUnit) (h : Hop) (fault : StepFault) → IsRefused T room u h fault → TellsOfSteps T u h fault }
{}
