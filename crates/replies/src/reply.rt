ghost use Rattle.std.specs.Prelude.{◌≡◌, ◌≢◌, IfOk};
ghost use Rattle.std.specs.Io.KnownBytes.{Appends};
ghost use Rattle.circuit_spec.specs.declared.hops.Outcome.{Outcome};
ghost use Rattle.io_edges.specs.Counts.{Rose};
ghost use Rattle.io_edges.specs.Stores.{AppendsFront};
ghost use Rattle.replies.specs.Status.{code, k_status_of, status_at, status_of};
ghost use Rattle.replies.specs.Through.{IsStop, IsText};

use crate::page::Page;
use crate::text::{Text, Texts};
use circuit_spec::Outcome;
use io_edges::{Failed, Sink};
use k_answers::KAnswer;
use ml_base::{KEnd, NoMemory};
use std::alloc::Global;

/// How a run ends that prints its whole text.
#[derive(Clone, Copy, Debug, PartialEq, Eq)]
pub enum Status {
    Done,
    NoWalk,
    Usage,
    Fault,
    NoRequest,
    NotRead,
    Past,
    Long,
    /// A document does not hold, or its rules do not carry the unit.
    Fails,
    TooBig,
}

fn code_of(status: Status) -> u8
    ensures { result ≡ code status }
{
    match status {
        Status::Done => 0,
        Status::NoWalk => 1,
        Status::Usage => 2,
        Status::Fault => 3,
        Status::NoRequest => 4,
        Status::NotRead => 5,
        Status::Past => 7,
        Status::Long => 8,
        Status::Fails => 9,
        Status::TooBig => 11,
    }
}

/// The status of a search with this outcome.
pub fn status_of(outcome: &Outcome) -> Status
    ensures { result ≡ status_of outcome.now }
{
    match outcome {
        Outcome::Found { .. } => Status::Done,
        Outcome::NoWalk => Status::NoWalk,
        Outcome::Past => Status::Past,
        Outcome::Long { .. } => Status::Long,
    }
}

fn status_at(end: KEnd) -> Status
    ensures { result ≡ status_at end }
{
    match end {
        KEnd::Enough => Status::Done,
        KEnd::NoMore => Status::NoWalk,
        KEnd::Past => Status::Past,
        KEnd::Long { .. } => Status::Long,
    }
}

/// The status of a list: done where a walk is listed, else by why there is none.
pub fn k_status_of(answer: &KAnswer) -> Status
    ensures { result ≡ k_status_of answer.now.walks answer.now.end }
{
    match answer.walks.as_slice().split_first() {
        Some(_) => Status::Done,
        None => status_at(answer.end),
    }
}

/// What is printed, and the status after it.
#[derive(Drop)]
pub struct Reply {
    pub status: Status,
    pub text: Page,
}

/// Why a part of the work gives nothing: the run is answered, or memory ran out.
#[derive(Drop)]
pub enum Stop {
    Ended(Reply),
    NoMemory,
}

impl From<NoMemory> for Stop {
    ghost use Rattle.replies.specs.declared.reply.Stop.TheVariants as stops;
    ghost use Rattle.std.specs.Prelude.{◌≡◌};

    ghost from_gives = { λ _ e. e ≡ stops.NoMemory };

    fn from(_: NoMemory) -> Stop {
        Stop::NoMemory
    }
}

/// A reply of one line.
pub fn one_line(alloc: Global, status: Status, line: Text) -> Result<Reply, NoMemory>
    ensures { IfOk result (IsText status line) }
{
    let mut lines = Texts::new(alloc);
    lines.push(line)?;
    Ok(Reply {
        status,
        text: Page::of_lines(lines),
    })
}

/// The run ends with that line.
pub fn ended(alloc: Global, status: Status, line: Text) -> Stop
    ensures { IsStop result (IsText status line) }
{
    match one_line(alloc, status, line) {
        Ok(reply) => Stop::Ended(reply),
        Err(NoMemory) => Stop::NoMemory,
    }
}

/// Writes the text, each line by a call of its own, and gives the exit status. It takes no memory.
pub fn print<K: Sink>(reply: &Reply, out: &mut K) -> u8
    ensures status { result ≢ 6 → result ≡ code reply.now.status }
    ensures whole { result ≢ 6 → Appends (K.written out.old) (K.written out.new) reply.now.text }
    ensures memory { result ≢ 10 }
    ensures failed { result ≡ 6 → Rose (K.faults out.old) (K.faults out.new) }
    ensures front { result ≡ 6 → AppendsFront (K.written out.old) (K.written out.new) reply.now.text }
{
    match reply.text.write(out) {
        Ok(()) => code_of(reply.status),
        Err(Failed) => 6,
    }
}
