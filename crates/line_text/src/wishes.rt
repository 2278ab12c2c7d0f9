ghost use Rattle.std.specs.Prelude.{◌≡◌, option_copied};
ghost use Rattle.line_text.specs.Fields.{wish_of};
ghost use Rattle.line_text.specs.Cursor.{parts_of, Gives};
ghost use Rattle.line_text.specs.Taking.{take_word};

use crate::reading::{Refused, next_word, number};
use ml_base::Wish;

/// The label that a word wishes for, or any.
pub fn read_wish(word: &[u8]) -> Option<Wish>
    ensures { result ≡ wish_of word.now }
{
    match number(word, 4_294_967_295) {
        Some(label) => Some(Wish::Value(label as u32)),
        None => {
            if word == b"any".as_slice() {
                return Some(Wish::Any);
            }
            None
        }
    }
}

/// The wish that the next word spells, and the words behind it.
pub fn take_wish(rest: Option<&[u8]>) -> Result<(Wish, Option<&[u8]>), Refused>
    ensures { Gives (λ x. (x.0, parts_of 32 (option_copied x.1))) result (take_word wish_of (parts_of 32 (option_copied rest.entry))) }
{
    let Some((word, rest)) = next_word(rest) else {
        return Err(Refused::Misfit);
    };
    match read_wish(word) {
        Some(wish) => Ok((wish, rest)),
        None => Err(Refused::Misfit),
    }
}
