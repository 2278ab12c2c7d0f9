ghost use Rattle.std.specs.Prelude.{◌≡◌};
ghost use Rattle.pair_check.specs.declared.fault.PairFault.TheVariants as fault;

use ml_base::NoMemory;
use thiserror::Error;

/// Why potentials do not bound the walks of a machine: the first rule that fails, and the first pair of which it does not hold, by its
/// place from 0.
#[derive(Clone, Copy, Debug, PartialEq, Eq, Error)]
pub enum PairFault {
    /// A start is not listed under the request with weight zero.
    #[error("a start is not listed")]
    Starts,
    /// The root of the pair is not listed at itself with weight zero.
    #[error("the root of pair {place} is not listed")]
    Roots { place: u64 },
    /// A flat step leads to no pair with at most the sum.
    #[error("a flat step from pair {place} leads to no bound")]
    Extends { place: u64 },
    /// A push enters no listed root.
    #[error("a push from pair {place} enters no listed root")]
    Opens { place: u64 },
    /// A push, a pair of the root that it enters and a pop lead to no pair with at most the sum.
    #[error("a nest from pair {place} leads to no bound")]
    Nests { place: u64 },
    #[error("out of memory")]
    NoMemory,
}

impl From<NoMemory> for PairFault {
    ghost from_gives = { λ _ e. e ≡ fault.NoMemory };

    fn from(_: NoMemory) -> PairFault {
        PairFault::NoMemory
    }
}
