ghost use Rattle.std.specs.Prelude.{◌≡◌, List};
ghost use Rattle.circuit_spec.specs.declared.hops.Hop.{Hop};
ghost use Rattle.circuit_spec.specs.declared.hops.PlaceName.{PlaceName};
ghost use Rattle.circuit_spec.specs.Network.{Topology};
ghost use Rattle.device_rules.specs.declared.rules.Rule.{Rule};
ghost use Rattle.table_replay.specs.Forwarding.{Ending, ForwardsFrom, arrived};
ghost use Rattle.table_replay.specs.Walked.{AreRulesInAnyOrder, IsPlainWalk};

/// Forwarding takes one list of hops, and ends in one way.
pub fn forwarding_is_one()
    ensures { (T : Topology) (rules : List Rule) (start target : PlaceName) (hops others : List Hop) (ending other : Ending) → ForwardsFrom T rules start target hops ending → ForwardsFrom T rules start target others other → (hops ≡ others) × (ending ≡ other) }
{}

/// Where a walk passes no place twice, the rules of its hops, in whatever order and with whatever numbers, carry the unit from its first
/// place to its last over exactly its hops.
pub fn plain_walks_are_forwarded()
    ensures { (T : Topology) (rules : List Rule) (start target : PlaceName) (hops : List Hop) → IsPlainWalk T start target hops → AreRulesInAnyOrder hops rules → ForwardsFrom T rules start target hops arrived }
{}
