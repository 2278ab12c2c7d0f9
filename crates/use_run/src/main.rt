//! A use of the top call: `find` over a file in memory, with the text in memory too, which is then printed. A service does the same over a
//! store and a sink of its own, which are types with the traits `Files` and `Sink`.
#![tactic(auto)]

use anyhow::Result;
use finder_cli::run;
use io_edges::{MemFiles, MemSink, RealSink, write_all};
use std::alloc::{AllocError, Global};
use std::process::ExitCode;

/// The port `a` leads over the link `l` to the port `b`.
const ONE: &str =
    "{\"format\":1,\"topology\":\"d\",\"elements\":[{\"type\":\"Port\",\"id\":\"a\",\"isSource\":[\"l\"]},{\"type\":\"Port\",\"id\":\"b\",\"isSink\":[\"l\"]},{\"type\":\"Link\",\"id\":\"l\"}]}";

fn words_of(alloc: Global, text: &str) -> Result<Vec<String>, AllocError> {
    let mut words = Vec::new(alloc);
    for word in text.split(' ') {
        words.push(String::from_str(alloc, word)?)?;
    }
    Ok(words)
}

fn main(rt: HostRuntime) -> Result<ExitCode> {
    let alloc = rt.alloc();
    let mut files = MemFiles::new(alloc);
    files.put("one.json", ONE.as_bytes())?;
    let mut text = MemSink::new(alloc, 4000)?;
    let words = words_of(alloc, "find a any b any one.json")?;
    let status = run(alloc, words.as_slice(), &mut files, &mut text);
    match write_all(&mut RealSink::new(&rt), text.written()) {
        Ok(()) => Ok(ExitCode::from(status)),
        Err(_) => Ok(ExitCode::from(6)),
    }
}
