// Each line that a document does not have, made in a fixed buffer.
ghost use Rattle.std.specs.Prelude.{◌≡◌, ◌∷◌, [], ◌++◌};
ghost use Rattle.k_text.specs.Listing.{walk_line, more_line};

use answer_text::{make_known_line, make_text_line, push_weight};
use io_edges::Line;
use line_text::push_number;
use ml_base::{KEnd, Weight};

pub(crate) fn make_walk_line(number: u64, weight: Weight) -> Line
    ensures { result ≡ walk_line number weight ++ 10 ∷ [] }
{
    let mut line = Line::new();
    line.push(b"walk");
    push_number(&mut line, number);
    push_weight(&mut line, weight);
    line.push(b"\n");
    line
}

pub(crate) fn make_more_line(end: KEnd) -> Line
    ensures { result ≡ more_line end ++ 10 ∷ [] }
{
    match end {
        KEnd::Enough => make_text_line(b"more enough"),
        KEnd::NoMore => make_text_line(b"more none"),
        KEnd::Past => make_text_line(b"more past"),
        KEnd::Long { cost, hops } => make_known_line(b"more long", cost, hops),
    }
}

pub(crate) fn make_version_line() -> Line
    ensures { result ≡ Rattle.std.specs.Prelude.codes "circuits 1" ++ 10 ∷ [] }
{
    make_text_line(b"circuits 1")
}
