use ml_base::NoMemory;
use thiserror::Error;

/// Why a derivation is not unfolded.
#[derive(Clone, Copy, Debug, PartialEq, Eq, Error)]
pub enum UnfoldFault {
    /// It has more hops than the limit.
    #[error("{hops} hops are too many")]
    Long { hops: u64 },
    /// Its cost is 2^64 or more.
    #[error("the cost is past 2^64")]
    Past,
    #[error("out of memory")]
    NoMemory,
}

impl From<NoMemory> for UnfoldFault {
    ghost use Rattle.std.specs.Prelude.{◌≡◌};
    ghost use Rattle.route_unfold.specs.declared.fault.UnfoldFault.TheVariants as faults;

    ghost from_gives = { λ _ e. e ≡ faults.NoMemory };

    fn from(_: NoMemory) -> UnfoldFault {
        UnfoldFault::NoMemory
    }
}
