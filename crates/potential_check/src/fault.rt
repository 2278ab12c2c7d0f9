ghost use Rattle.std.specs.Prelude.{◌≡◌};
ghost use Rattle.potential_check.specs.declared.fault.PotentialFault.TheVariants as fault;

use ml_base::NoMemory;
use pair_check::PairFault;
use thiserror::Error;
use verdict::Rule;

/// Why potentials are not taken for bounds: the first rule on them that fails, and where.
#[derive(Clone, Copy, Debug, PartialEq, Eq, Error)]
pub enum PotentialFault {
    /// The rule fails first at the potential of this place, from 0.
    #[error("potential {place} is against rule {rule:?}")]
    Potential { rule: Rule, place: u64 },
    /// The rule fails at the outcome.
    #[error("the outcome is against rule {rule:?}")]
    Outcome { rule: Rule },
    #[error("out of memory")]
    NoMemory,
}

impl From<NoMemory> for PotentialFault {
    ghost from_gives = { λ _ e. e ≡ fault.NoMemory };

    fn from(_: NoMemory) -> PotentialFault {
        PotentialFault::NoMemory
    }
}

impl From<PairFault> for PotentialFault {
    ghost use Rattle.potential_check.specs.Faults.{fault_of};

    ghost from_gives = { λ pair e. e ≡ fault_of pair };

    fn from(pair: PairFault) -> PotentialFault {
        match pair {
            PairFault::Starts => PotentialFault::Outcome { rule: Rule::Starts },
            PairFault::Roots { place } => PotentialFault::Potential {
                rule: Rule::Starts,
                place,
            },
            PairFault::Extends { place } => PotentialFault::Potential {
                rule: Rule::Extends,
                place,
            },
            PairFault::Opens { place } => PotentialFault::Potential {
                rule: Rule::Opens,
                place,
            },
            PairFault::Nests { place } => PotentialFault::Potential {
                rule: Rule::Nests,
                place,
            },
            PairFault::NoMemory => PotentialFault::NoMemory,
        }
    }
}
