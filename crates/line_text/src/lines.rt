ghost use Rattle.std.specs.Prelude.{◌≡◌, ◌∷◌, [], ◌+◌, ◌<◌, length, IfSome, MatchOption};
ghost use Rattle.line_text.specs.Lines.{pieces};

use crate::reading::place_of;

/// The next line of a text and what stands behind it. None where no newline follows.
pub fn next_line(rest: &[u8]) -> Option<(&[u8], &[u8])>
    ensures cut { MatchOption result (pieces rest.now ≡ rest.now ∷ []) (λ next. pieces rest.now ≡ next.0.now ∷ pieces next.1.now) }
    ensures shorter { IfSome result (λ next. length next.1.now < length rest.now) }
{
    match place_of(rest, b'\n') {
        Some(at) => Some((&rest[..at], &rest[at + 1..])),
        None => None,
    }
}
