ghost use Rattle.std.specs.Prelude.{◌≡◌};

use ml_base::{Id, NoMemory};
use thiserror::Error;

/// Why a request is refused.
#[derive(Debug, Drop, Error)]
pub enum SolveFault {
    /// No port has the id.
    #[error("unknown port")]
    UnknownPort { id: Id },
    /// The stated label is not in the set of the port's class.
    #[error("label not here")]
    LabelNotHere { id: Id, label: u32 },
    #[error("out of memory")]
    NoMemory,
}

impl From<NoMemory> for SolveFault {
    ghost use Rattle.std.specs.Prelude.{◌≡◌};
    ghost use Rattle.finder_core.specs.declared.faults.SolveFault.TheVariants as fault;

    ghost from_gives = { λ _ e. e ≡ fault.NoMemory };

    fn from(_: NoMemory) -> Self
        ensures { result ≡ SolveFault.NoMemory }
    {
        SolveFault::NoMemory
    }
}
