// What is printed: lines that are kept, or a document or a list whose lines are made as they are written.
ghost use Rattle.std.specs.Prelude.{◌≡◌, ◌≤◌, OnOk, OnErr};
ghost use Rattle.std.specs.List.{concat};
ghost use Rattle.std.specs.Io.KnownBytes.{Appends};
ghost use Rattle.line_text.specs.Lines.{text_of};
ghost use Rattle.answer_text.specs.Spelling.{lines_of};
ghost use Rattle.answer_spec.specs.WellFormed.{IsWellFormed};
ghost use Rattle.k_text.specs.Listing.{k_lines_of};
ghost use Rattle.io_edges.specs.Counts.{Rose};
ghost use Rattle.io_edges.specs.Stores.{AppendsFront};

use crate::text::{Text, Texts};
use answer_spec::Answer;
use io_edges::{Failed, Sink, write_all};
use k_answers::KAnswer;
use std::marker::Model;

#[derive(Drop)]
enum Source {
    Kept(Texts),
    Document(Answer),
    Walks(KAnswer),
}

/// A text of lines, each of which is printed by a call of its own.
#[derive(Drop)]
pub struct Page {
    source: Source,
}

impl Model for Page {
    ghost use Rattle.std.specs.Prelude.{ℕ, List};
    ghost use Rattle.replies.specs.Pages.{text_in, IsPrintable};

    ghost Value = { List ℕ };

    ghost view = { λ a. text_in a.source };

    ghost invariant = { λ a. IsPrintable a.source };
}

fn write_line<K: Sink>(out: &mut K, line: &Text) -> Result<(), Failed>
    ensures ok { OnOk result (Appends (K.written out.old) (K.written out.new) line.now) }
    ensures front { AppendsFront (K.written out.old) (K.written out.new) line.now }
    ensures faults { K.faults out.old ≤ K.faults out.new }
    ensures failed { OnErr result (Rose (K.faults out.old) (K.faults out.new)) }
{
    write_all(out, line.bytes())
}

fn write_lines<K: Sink>(out: &mut K, lines: &[Text]) -> Result<(), Failed>
    ensures ok { OnOk result (Appends (K.written out.old) (K.written out.new) (concat lines.now)) }
    ensures front { OnErr result (AppendsFront (K.written out.old) (K.written out.new) (concat lines.now)) }
    ensures faults { K.faults out.old ≤ K.faults out.new }
    ensures failed { OnErr result (Rose (K.faults out.old) (K.faults out.new)) }
{
    for line in lines {
        write_line(out, line)?;
    }
    Ok(())
}

impl Page {
    /// The text of these lines.
    pub fn of_lines(lines: Texts) -> Page
        ensures { result ≡ concat lines }
    {
        Page {
            source: Source::Kept(lines),
        }
    }

    /// The document of this answer.
    pub fn of_answer(answer: Answer) -> Page
        requires { IsWellFormed answer }
        ensures { result ≡ text_of (lines_of answer) }
    {
        Page {
            source: Source::Document(answer),
        }
    }

    /// The list of these cheapest walks.
    pub fn of_list(answer: KAnswer) -> Page
        ensures { result ≡ text_of (k_lines_of answer) }
    {
        Page {
            source: Source::Walks(answer),
        }
    }

    /// Writes the text. It takes no memory.
    pub fn write<K: Sink>(&self, out: &mut K) -> Result<(), Failed>
        ensures ok { OnOk result (Appends (K.written out.old) (K.written out.new) self.now) }
        ensures front { OnErr result (AppendsFront (K.written out.old) (K.written out.new) self.now) }
        ensures faults { K.faults out.old ≤ K.faults out.new }
        ensures failed { OnErr result (Rose (K.faults out.old) (K.faults out.new)) }
    {
        match &self.source {
            Source::Kept(lines) => write_lines(out, lines.as_slice()),
            Source::Document(answer) => answer_text::write(answer, out),
            Source::Walks(answer) => k_text::k_write(answer, out),
        }
    }
}
