// The next word of a line, and what is left of the line.
ghost use Rattle.std.specs.Prelude.{◌+◌, option_copied};
ghost use Rattle.line_text.specs.Fields.{number_of, id_of, tag_of, done_of, done};
ghost use Rattle.line_text.specs.Cursor.{parts_of, Gives};
ghost use Rattle.line_text.specs.Taking.{take_word};

use crate::reading::{Refused, id, next_word, number, tag};
use ml_base::{Id, Tag};
use std::alloc::Global;

/// The number that the next word spells, at most this one, and the words behind it.
pub fn take_number(rest: Option<&[u8]>, most: u64) -> Result<(u64, Option<&[u8]>), Refused>
    ensures { Gives (λ x. (x.0, parts_of 32 (option_copied x.1))) result (take_word (number_of (most + 1)) (parts_of 32 (option_copied rest.entry))) }
{
    let Some((word, rest)) = next_word(rest) else {
        return Err(Refused::Misfit);
    };
    match number(word, most) {
        Some(n) => Ok((n, rest)),
        None => Err(Refused::Misfit),
    }
}

/// The label that the next word spells, and the words behind it.
pub fn take_tag(rest: Option<&[u8]>) -> Result<(Tag, Option<&[u8]>), Refused>
    ensures { Gives (λ x. (x.0, parts_of 32 (option_copied x.1))) result (take_word tag_of (parts_of 32 (option_copied rest.entry))) }
{
    let Some((word, rest)) = next_word(rest) else {
        return Err(Refused::Misfit);
    };
    match tag(word) {
        Some(label) => Ok((label, rest)),
        None => Err(Refused::Misfit),
    }
}

/// The id that the next word spells, and the words behind it.
pub fn take_id(alloc: Global, rest: Option<&[u8]>) -> Result<(Id, Option<&[u8]>), Refused>
    ensures { Gives (λ x. (x.0, parts_of 32 (option_copied x.1))) result (take_word id_of (parts_of 32 (option_copied rest.entry))) }
{
    let Some((word, rest)) = next_word(rest) else {
        return Err(Refused::Misfit);
    };
    match id(alloc, word) {
        Ok(id) => Ok((id, rest)),
        Err(e) => Err(e),
    }
}

/// No further word.
pub fn take_end(rest: Option<&[u8]>) -> Result<(), Refused>
    ensures { Gives (λ x. done) result (done_of (parts_of 32 (option_copied rest.entry))) }
{
    match next_word(rest) {
        Some(_) => Err(Refused::Misfit),
        None => Ok(()),
    }
}
