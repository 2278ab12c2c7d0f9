ghost use Rattle.std.specs.Prelude.{◌≡◌, ◌↔◌, ℕ, List, [], ◌∷◌, Option};
ghost use Rattle.circuit_spec.specs.declared.hops.Hop.{Hop};
ghost use Rattle.circuit_spec.specs.declared.hops.Request.{Request};
ghost use Rattle.circuit_spec.specs.Faults.{IsKnown, IsSound};
ghost use Rattle.circuit_spec.specs.Flags.{AreFlags};
ghost use Rattle.circuit_spec.specs.Keeping.{GivesKeepers, Keeping};
ghost use Rattle.circuit_spec.specs.Network.{IsClass, Port, Topology};
ghost use Rattle.circuit_spec.specs.Steps.{Ends, Joins, Walk};
ghost use Rattle.answer_spec.specs.declared.answer.Answer.{Answer};
ghost use Rattle.answer_spec.specs.declared.answer.PotLine.{PotLine};
ghost use Rattle.answer_spec.specs.Bounds.{BoundsWalks};
ghost use Rattle.answer_spec.specs.Arriving.{EndAllowed, start_of};
ghost use Rattle.answer_spec.specs.Certificate.{AreFlagged, Certificate};
ghost use Rattle.answer_spec.specs.Exact.{IsExactAnswer};
ghost use Rattle.answer_spec.specs.Potentials.{ArePotentials};
ghost use Rattle.answer_spec.specs.WellFormed.{IsWellFormed};

/// Hops of a known request are a walk exactly where they run from the place where they begin to an allowed place of TO, with the empty
/// stack at both.
pub fn walks_end_allowed()
    ensures { (T : Topology) (r : Request) (class : Port) (h : Hop) (hops : List Hop) → IsKnown T r → IsClass T r.from class → Walk T r (h ∷ hops) ↔ EndAllowed T r class (h ∷ hops) }
{}

/// The flags of a walk from its start are those of its hops.
pub fn walks_are_flagged()
    ensures { (T : Topology) (r : Request) (hops : List Hop) (flags : List (Option ℕ)) (ends : Ends T r) → Joins ends hops [] → AreFlags T (start_of ends) hops flags → AreFlagged T r hops flags }
{}

/// The answer of a search has a certificate, whatever its outcome: the least weights of the reached pairs keep all its rules.
pub fn exact_answers_are_certified()
    ensures { (T : Topology) (a : Answer) (keeping : Keeping) → IsSound T → GivesKeepers T a.request keeping → IsExactAnswer T a → Certificate T a }
{}

/// A certificate bounds all walks, over all labels: what is found is a circuit of the stated weight and no walk weighs less. Otherwise there
/// is no walk, or none below what is stated.
pub fn certificates_bound_walks()
    ensures { (T : Topology) (a : Answer) (keeping : Keeping) → IsSound T → GivesKeepers T a.request keeping → IsWellFormed a → Certificate T a → BoundsWalks T a.request a.outcome a.hops }
{}

/// The potentials of a request are one list.
pub fn potentials_are_one()
    ensures { (T : Topology) (r : Request) (x y : List PotLine) → ArePotentials T r x → ArePotentials T r y → x ≡ y }
{}
