ghost use Rattle.std.specs.Prelude.{◌≡◌};

use circuit_spec::PlaceName;
use ml_base::NoMemory;
use thiserror::Error;

/// Why forwarding stops.
#[derive(Debug, Drop, PartialEq, Eq, Error)]
pub enum ForwardFault {
    /// No rule leaves from the place.
    #[error("no rule leaves from a place")]
    NoRule { at: PlaceName },
    /// More than one rule leaves from the place.
    #[error("two rules leave from a place")]
    TwoRules { at: PlaceName },
    /// The unit is at the place for the second time.
    #[error("the unit comes back to a place")]
    Loop { at: PlaceName },
    /// The rule that leaves from the place is no hop of the unit.
    #[error("a rule is no hop of the unit")]
    Step { at: PlaceName },
    /// The unit is at the target, with this many frames round it.
    #[error("{frames} frames are left")]
    Left { frames: u64 },
    #[error("out of memory")]
    NoMemory,
}

impl From<NoMemory> for ForwardFault {
    ghost use Rattle.std.specs.Prelude.{◌≡◌};
    ghost use Rattle.table_replay.specs.declared.fault.ForwardFault.TheVariants as fault;

    ghost from_gives = { λ _ e. e ≡ fault.NoMemory };

    fn from(_: NoMemory) -> Self
        ensures { result ≡ ForwardFault.NoMemory }
    {
        ForwardFault::NoMemory
    }
}
