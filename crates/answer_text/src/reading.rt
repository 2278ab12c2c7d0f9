// A document, read from its front.
ghost use Rattle.std.specs.Prelude.{◌≡◌, IfOk, IfErr};
ghost use Rattle.line_text.specs.Lines.{text_of, adding, closing};
ghost use Rattle.answer_spec.specs.declared.answer.Answer.{Answer};
ghost use Rattle.answer_text.specs.Document.{answer_in};
ghost use Rattle.answer_text.specs.Reading.{Version, Asked, add_request, answer_step, answer_end};
ghost use Rattle.answer_spec.specs.WellFormed.{IsWellFormed};
ghost use Rattle.answer_text.specs.Spelling.{lines_of};
ghost use Rattle.answer_text.specs.Taking.{said_from, AnswersAs, TakesAt, fault_of, NamesFirstMisfit, Returns, phase_of, behind_answer};

use crate::fault::TextFault;
use crate::reader::BodyReader;
use crate::steps::{is_version, outcome_line, request_line};
use answer_spec::Answer;
use circuit_spec::Request;
use line_text::{Refused, next_line};
use std::alloc::Global;

fn fault_at(number: u64, refused: Refused) -> TextFault
    ensures { result ≡ fault_of number refused }
{
    match refused {
        Refused::Misfit => TextFault::Line { line: number },
        Refused::NoMemory => TextFault::NoMemory,
    }
}

fn take_line(
    reader: &mut BodyReader,
    alloc: Global,
    line: &[u8],
    number: u64,
) -> Result<(), TextFault>
    ensures { TakesAt number reader.old reader.new result (answer_step (phase_of reader.old) line.now) }
{
    match reader.take(alloc, line) {
        Ok(()) => Ok(()),
        Err(refused) => Err(fault_at(number, refused)),
    }
}

fn finish(reader: BodyReader, rest: &[u8], number: u64) -> Result<Answer, TextFault>
    ensures { AnswersAs result (adding (behind_answer reader.answer) (closing number rest.now (answer_end (phase_of reader)))) }
{
    if !rest.is_empty() {
        return Err(TextFault::Line { line: number });
    }
    if !reader.may_end() {
        return Err(TextFault::Line { line: number });
    }
    Ok(reader.answer)
}

fn read_body(alloc: Global, body: BodyReader, bytes: &[u8]) -> Result<Answer, TextFault>
    ensures { AnswersAs result (adding (behind_answer body.answer) (said_from (phase_of body) 4 bytes.now)) }
{
    let mut reader = body;
    let mut rest = bytes;
    let mut number: u64 = 4;
    while let Some((line, later)) = next_line(rest) {
        take_line(&mut reader, alloc, line, number)?;
        rest = later;
        number += 1;
    }
    finish(reader, rest, number)
}

fn read_outcome(alloc: Global, request: Request, rest: &[u8]) -> Result<Answer, TextFault>
    ensures { AnswersAs result (adding (add_request request) (said_from Asked 3 rest.now)) }
{
    let Some((line, later)) = next_line(rest) else {
        return Err(TextFault::Line { line: 3 });
    };
    match outcome_line(line) {
        Ok(outcome) => read_body(alloc, BodyReader::new(alloc, request, outcome), later),
        Err(refused) => Err(fault_at(3, refused)),
    }
}

fn read_request(alloc: Global, rest: &[u8]) -> Result<Answer, TextFault>
    ensures { AnswersAs result (said_from Version 2 rest.now) }
{
    let Some((line, later)) = next_line(rest) else {
        return Err(TextFault::Line { line: 2 });
    };
    match request_line(alloc, line) {
        Ok(request) => read_outcome(alloc, request, later),
        Err(refused) => Err(fault_at(2, refused)),
    }
}

fn read_version(alloc: Global, bytes: &[u8]) -> Result<Answer, TextFault>
    ensures { AnswersAs result (answer_in bytes.now) }
{
    let Some((line, later)) = next_line(bytes) else {
        return Err(TextFault::Line { line: 1 });
    };
    if !is_version(line) {
        return Err(TextFault::Line { line: 1 });
    }
    read_request(alloc, later)
}

/// The answer that a document spells.
///
/// A text that is no document is refused with the number, from 1, of its first line that does not fit: the least n such
/// that no document begins with its first n lines. A last piece without a newline is a line that does not fit, and where
/// all lines fit and the document has not ended, the line behind them is named. It takes time in proportion to the
/// bytes.
pub fn read(alloc: Global, bytes: &[u8]) -> Result<Answer, TextFault>
    ensures read { AnswersAs result (answer_in bytes.now) }
    ensures spelled { IfOk result (λ a. IsWellFormed a × (bytes.now ≡ text_of (lines_of a))) }
    ensures again { (a : Answer) → IsWellFormed a → bytes.now ≡ text_of (lines_of a) → Returns a result }
    ensures line { IfErr result (NamesFirstMisfit bytes.now) }
{
    read_version(alloc, bytes)
}
