// The words of a line, each behind a space.
ghost use Rattle.std.specs.Prelude.{◌≡◌, ◌+◌, ◌≤◌, ◌∷◌, ◌++◌, length, decimal};
ghost use Rattle.line_text.specs.Fields.{tag};

use io_edges::Line;
use ml_base::{Id, Tag};

/// Puts a space and a word at the end of the line.
pub fn push_word(line: &mut Line, word: &[u8])
    requires { length line.old + length word.now + 1 ≤ 1280 }
    ensures spelled { line.new ≡ line.old ++ 32 ∷ word.now }
    ensures long { length line.new ≡ length line.old + length word.now + 1 }
{
    line.push(b" ");
    line.push(word);
}

/// Puts a space and an id at the end of the line.
pub fn push_id(line: &mut Line, id: &Id)
    requires { length line.old + 256 ≤ 1280 }
    ensures spelled { line.new ≡ line.old ++ 32 ∷ id.now }
    ensures long { length line.new ≤ length line.old + 256 }
{
    push_word(line, id.text().as_bytes());
}

/// Puts a space and a number in decimal at the end of the line.
pub fn push_number(line: &mut Line, number: u64)
    requires { length line.old + 21 ≤ 1280 }
    ensures spelled { line.new ≡ line.old ++ 32 ∷ decimal number }
    ensures long { length line.new ≤ length line.old + 21 }
{
    line.push(b" ");
    line.push_number(number);
}

/// Puts a space and a label, or the word for no label, at the end of the line.
pub fn push_tag(line: &mut Line, label: Tag)
    requires { length line.old + 21 ≤ 1280 }
    ensures spelled { line.new ≡ line.old ++ 32 ∷ tag label }
    ensures long { length line.new ≤ length line.old + 21 }
{
    match label {
        Some(label) => push_number(line, label as u64),
        None => push_word(line, b"-"),
    }
}

/// Puts a class and a label at the end of the line, each behind a space.
pub fn push_place(line: &mut Line, class: &Id, label: Tag)
    requires { length line.old + 277 ≤ 1280 }
    ensures spelled { line.new ≡ line.old ++ 32 ∷ (class.now ++ 32 ∷ tag label) }
    ensures long { length line.new ≤ length line.old + 277 }
{
    push_id(line, class);
    push_tag(line, label);
}
