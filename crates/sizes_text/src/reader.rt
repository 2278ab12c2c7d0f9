// A text of sizes, read line by line.
ghost use Rattle.std.specs.Prelude.{◌≡◌, IfErr, IfOk};
ghost use Rattle.line_fault.specs.Answering.{AnswersAs, NamesFirstMisfit};
ghost use Rattle.line_text.specs.Cursor.{Gives};
ghost use Rattle.line_text.specs.Lines.{closing};
ghost use Rattle.sizes_text.specs.Reading.{In, sizes_end, sizes_in, sizes_step};
ghost use Rattle.sizes_text.specs.Seen.{at_of};
ghost use Rattle.sizes_text.specs.Text.{IsSizesText, Spells};

use crate::line::read_size;
use crate::sizes::Sizes;
use line_fault::{LineFault, at_line};
use line_text::{Refused, next_line};
use std::alloc::Global;

/// The sizes of the lines so far.
#[derive(Drop)]
enum SizeReader {
    Start,
    In(Sizes),
    Ended(Sizes),
}

/// Takes a line behind the first one.
fn take_size(mut sizes: Sizes, alloc: Global, line: &[u8]) -> Result<SizeReader, Refused>
    ensures { Gives at_of result (sizes_step (In sizes) line.now) }
{
    if line == b"end".as_slice() {
        return Ok(SizeReader::Ended(sizes));
    }
    let size = read_size(alloc, line)?;
    sizes.add(size)?;
    Ok(SizeReader::In(sizes))
}

/// Takes the next line.
fn take_line(reader: SizeReader, alloc: Global, line: &[u8]) -> Result<SizeReader, Refused>
    ensures { Gives at_of result (sizes_step (at_of reader) line.now) }
{
    match reader {
        SizeReader::Start => {
            if line != b"sizes 1".as_slice() {
                return Err(Refused::Misfit);
            }
            Ok(SizeReader::In(Sizes::new(alloc)))
        }
        SizeReader::In(sizes) => take_size(sizes, alloc, line),
        SizeReader::Ended(_) => Err(Refused::Misfit),
    }
}

/// The sizes, where the text ends behind its last line.
fn finish(reader: SizeReader, rest: &[u8], line: u64) -> Result<Sizes, LineFault>
    ensures { AnswersAs result (closing line rest.now (sizes_end (at_of reader))) }
{
    if !rest.is_empty() {
        return Err(LineFault::Line { line });
    }
    match reader {
        SizeReader::Ended(sizes) => Ok(sizes),
        SizeReader::Start => Err(LineFault::Line { line }),
        SizeReader::In(_) => Err(LineFault::Line { line }),
    }
}

/// The sizes that a text spells: the line `sizes 1`, a line `overhead ID N` or `octets ID N` for each, and the line `end`. An id is an
/// `Id`, N a decimal from 0 to 65535 without leading zeros, and no two lines have the same word and id.
///
/// `Line` tells the first line with which the text is no front of such a text. Where it ends too early this is one more than it has
/// lines, and a piece behind the last newline counts as a line.
pub fn read_sizes(alloc: Global, bytes: &[u8]) -> Result<Sizes, LineFault>
    ensures read { AnswersAs result (sizes_in bytes.now) }
    ensures spelled { IfOk result (Spells bytes.now) }
    ensures line { IfErr result (NamesFirstMisfit IsSizesText bytes.now) }
{
    let mut reader = SizeReader::Start;
    let mut rest = bytes;
    let mut number: u64 = 1;
    while let Some((line, later)) = next_line(rest) {
        reader = at_line(number, take_line(reader, alloc, line))?;
        rest = later;
        number += 1;
    }
    finish(reader, rest, number)
}
