use crate::rules::Rule;
use circuit_spec::Outcome;
use ml_base::NoMemory;
use thiserror::Error;

/// What is said of a document.
#[derive(Clone, Copy, Debug, PartialEq, Eq)]
pub enum Verdict {
    /// It is the certificate of this outcome.
    Valid { outcome: Outcome },
    /// This is the first rule that fails, and the first line at which it fails, counted from 1.
    NotValid { line: u64, rule: Rule },
}

/// Why an answer is not taken for a certificate.
#[derive(Clone, Copy, Debug, PartialEq, Eq, Error)]
pub enum CheckFault {
    /// The first rule that fails, and the first line of the document at which it fails, counted from 1.
    #[error("line {line} is against rule {rule:?}")]
    NotValid { line: u64, rule: Rule },
    #[error("out of memory")]
    NoMemory,
}

impl From<NoMemory> for CheckFault {
    ghost use Rattle.std.specs.Prelude.{◌≡◌};
    ghost use Rattle.verdict.specs.declared.verdicts.CheckFault.TheVariants as faults;

    ghost from_gives = { λ _ e. e ≡ faults.NoMemory };

    fn from(_: NoMemory) -> Self
        ensures { result ≡ CheckFault.NoMemory }
    {
        CheckFault::NoMemory
    }
}
