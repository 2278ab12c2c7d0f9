use thiserror::Error;

/// Why a text is not read as rules.
#[derive(Clone, Copy, Debug, PartialEq, Eq, Error)]
pub enum RuleFault {
    /// The first line that does not fit, counted from 1.
    #[error("line {line} does not fit")]
    Line { line: u64 },
    #[error("out of memory")]
    NoMemory,
}
