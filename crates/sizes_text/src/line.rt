// One line of a text of sizes.
ghost use Rattle.std.specs.Prelude.{◌≡◌, ◌^◌, option_copied};
ghost use Rattle.line_text.specs.Cursor.{parts_of, Gives};
ghost use Rattle.line_text.specs.Fields.{entry_of, number_of, words_in};
ghost use Rattle.line_text.specs.Taking.{take_word};
ghost use Rattle.sizes_text.specs.Reading.{measures, size_in};

use line_text::{Refused, next_word, number, take_end, take_id};
use ml_base::Id;
use std::alloc::Global;

/// What a line tells of its id.
#[derive(Clone, Copy, Debug, PartialEq, Eq)]
pub enum Measure {
    /// The octets that a frame gets more.
    Overhead,
    /// The octets that a frame may have.
    Octets,
}

/// A line of sizes.
#[derive(Drop)]
pub struct SizeLine {
    pub measure: Measure,
    pub id: Id,
    pub number: u32,
}

/// The measure that a word names.
fn read_measure(word: &[u8]) -> Option<Measure>
    ensures { result ≡ entry_of measures word.now }
{
    if word == b"overhead".as_slice() {
        return Some(Measure::Overhead);
    }
    if word == b"octets".as_slice() {
        return Some(Measure::Octets);
    }
    None
}

/// The measure that the next word names, and the words behind it.
fn take_measure(rest: Option<&[u8]>) -> Result<(Measure, Option<&[u8]>), Refused>
    ensures { Gives (λ x. (x.0, parts_of 32 (option_copied x.1))) result (take_word (entry_of measures) (parts_of 32 (option_copied rest.entry))) }
{
    let Some((word, rest)) = next_word(rest) else {
        return Err(Refused::Misfit);
    };
    match read_measure(word) {
        Some(measure) => Ok((measure, rest)),
        None => Err(Refused::Misfit),
    }
}

/// The octets that the next word spells, and the words behind it.
fn take_octets(rest: Option<&[u8]>) -> Result<(u32, Option<&[u8]>), Refused>
    ensures { Gives (λ x. (x.0, parts_of 32 (option_copied x.1))) result (take_word (number_of (2 ^ 16)) (parts_of 32 (option_copied rest.entry))) }
{
    let Some((word, rest)) = next_word(rest) else {
        return Err(Refused::Misfit);
    };
    match number(word, 65_535) {
        Some(octets) => Ok((octets as u32, rest)),
        None => Err(Refused::Misfit),
    }
}

/// The size that a line spells.
pub(crate) fn read_size(alloc: Global, line: &[u8]) -> Result<SizeLine, Refused>
    ensures { Gives (λ size. size) result (size_in (words_in line.now)) }
{
    let (measure, rest) = take_measure(Some(line))?;
    let (id, rest) = take_id(alloc, rest)?;
    let (number, rest) = take_octets(rest)?;
    take_end(rest)?;
    Ok(SizeLine {
        measure,
        id,
        number,
    })
}
