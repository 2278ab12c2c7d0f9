ghost use Rattle.std.specs.Prelude.{◌≡◌, ◌≤◌, ◌+◌, IfSome, ◌∷◌, None, Some, option_copied, nat_eq};
ghost use Rattle.std.specs.List.{slice_split, position};
ghost use Rattle.line_text.specs.Fields.{number_of, id_of, tag_of};
ghost use Rattle.line_text.specs.Cursor.{parts_of, Gives, word_then};

use ml_base::{Id, IdFault, Tag};
use std::alloc::Global;

/// Why a line is not read.
#[derive(Clone, Copy, Debug, PartialEq, Eq)]
pub enum Refused {
    /// It does not fit.
    Misfit,
    NoMemory,
}

pub(crate) fn place_of(bytes: &[u8], mark: u8) -> Option<usize>
    ensures { result ≡ position (λ b. nat_eq b mark) bytes.now }
{
    bytes.iter().position(|b| *b == mark)
}

/// What stands before the first mark, and what stands behind it where there is one.
pub fn cut(bytes: &[u8], mark: u8) -> (&[u8], Option<&[u8]>)
    ensures { slice_split (λ b. nat_eq b mark) bytes.now ≡ result.0.now ∷ parts_of mark (option_copied result.1) }
{
    match place_of(bytes, mark) {
        Some(at) => (&bytes[..at], Some(&bytes[at + 1..])),
        None => (bytes, None),
    }
}

/// The number that a word spells, at most this one.
pub fn number(word: &[u8], most: u64) -> Option<u64>
    ensures value { result ≡ number_of (most + 1) word.now }
    ensures below { IfSome result (λ n. n ≤ most) }
{
    let Ok(text) = std::str::from_utf8(word) else {
        return None;
    };
    let Ok(number) = text.parse::<u64>() else {
        return None;
    };
    let mut buffer = itoa::Buffer::new();
    if buffer.format(number).as_bytes() != word {
        return None;
    }
    if number <= most { Some(number) } else { None }
}

/// The id that a word spells.
pub fn id(alloc: Global, word: &[u8]) -> Result<Id, Refused>
    ensures { Gives (λ x. x) result (id_of word.now) }
{
    let Ok(text) = std::str::from_utf8(word) else {
        return Err(Refused::Misfit);
    };
    match Id::new(alloc, text) {
        Ok(id) => Ok(id),
        Err(IdFault::Text) => Err(Refused::Misfit),
        Err(IdFault::NoMemory) => Err(Refused::NoMemory),
    }
}

/// The label that a word spells, or no label.
pub fn tag(word: &[u8]) -> Option<Tag>
    ensures { result ≡ tag_of word.now }
{
    match number(word, 4_294_967_295) {
        Some(label) => Some(Some(label as u32)),
        None => {
            if word == b"-".as_slice() {
                return Some(None);
            }
            None
        }
    }
}

/// The next word of a line, and what is left of it behind that.
pub fn next_word(rest: Option<&[u8]>) -> Option<(&[u8], Option<&[u8]>)>
    ensures { parts_of 32 (option_copied rest.entry) ≡ word_then result }
{
    match rest {
        Some(line) => Some(cut(line, b' ')),
        None => None,
    }
}
