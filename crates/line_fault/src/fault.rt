ghost use Rattle.std.specs.Prelude.{◌≡◌};
ghost use Rattle.line_fault.specs.Answering.{told_at};

use line_text::Refused;
use thiserror::Error;

/// Why a text of lines is not read.
#[derive(Clone, Copy, Debug, PartialEq, Eq, Error)]
pub enum LineFault {
    /// The first line that does not fit, counted from 1. A text that ends too early has it behind its last line.
    #[error("line {line} does not fit")]
    Line { line: u64 },
    #[error("out of memory")]
    NoMemory,
}

/// What a line was read as, or its number where it does not fit.
pub fn at_line<T>(line: u64, read: Result<T, Refused>) -> Result<T, LineFault>
    ensures { result ≡ told_at line read }
{
    match read {
        Ok(value) => Ok(value),
        Err(Refused::Misfit) => Err(LineFault::Line { line }),
        Err(Refused::NoMemory) => Err(LineFault::NoMemory),
    }
}
