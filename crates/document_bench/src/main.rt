//! Reads the document in a file and writes it again, so that both can be timed.
//!
//! usage: document_bench FILE
#![tactic(auto)]

ghost use Rattle.std.specs.Prelude.{IfOk};
ghost use Rattle.answer_spec.specs.WellFormed.{IsWellFormed};

use answer_spec::Answer;
use answer_text::{TextFault, read, write};
use anyhow::{Result, bail};
use io_edges::{Files, RealFiles, RealSink};
use std::process::ExitCode;
use std::{env, io};

/// The most bytes of a document that is read: 1 GiB.
const LIMIT: u64 = 1_073_741_824;

fn words(rt: &HostRuntime) -> io::Result<Vec<String>> {
    let mut words = Vec::new(rt.alloc());
    for word in env::args(rt)? {
        words.push(word)?;
    }
    Ok(words)
}

/// The answer that the file spells.
fn answer_in(rt: &HostRuntime, name: &str) -> Result<Answer>
    ensures { IfOk result IsWellFormed }
{
    let mut files = RealFiles::new(rt);
    let Ok(bytes) = files.read_file(rt.alloc(), name, LIMIT) else {
        bail!("not read");
    };
    match read(rt.alloc(), bytes.as_slice()) {
        Ok(answer) => Ok(answer),
        Err(TextFault::Line { line }) => bail!("line {line} does not fit"),
        Err(TextFault::NoMemory) => bail!("out of memory"),
    }
}

fn main(rt: HostRuntime) -> Result<ExitCode> {
    let words = words(&rt)?;
    let [_, name] = words.as_slice() else {
        bail!("usage: document_bench FILE");
    };
    let answer = answer_in(&rt, name.as_str())?;
    match write(&answer, &mut RealSink::new(&rt)) {
        Ok(()) => Ok(ExitCode::SUCCESS),
        Err(_) => Ok(ExitCode::from(6)),
    }
}
