// The program: it hands its words, the real files and standard output to the top call.
#![tactic(auto)]

use finder_cli::run;
use io_edges::{RealFiles, RealSink};
use std::io::ErrorKind;
use std::process::ExitCode;
use std::{env, io};

// The words after the program's name.
fn words_of(rt: &HostRuntime) -> io::Result<Vec<String>> {
    let mut args = env::args(rt)?;
    let _name = args.next();
    let mut words = Vec::new(rt.alloc());
    for word in args {
        words.push(word)?;
    }
    Ok(words)
}

fn run_words(rt: &HostRuntime, words: &[String]) -> ExitCode {
    let mut files = RealFiles::new(rt);
    let mut out = RealSink::new(rt);
    ExitCode::from(run(rt.alloc(), words, &mut files, &mut out))
}

fn main(rt: HostRuntime) -> ExitCode {
    match words_of(&rt) {
        Ok(words) => run_words(&rt, words.as_slice()),
        // A word that is no UTF-8 spells no command, like no words.
        Err(e) if e.kind() == ErrorKind::InvalidData => run_words(&rt, &[]),
        Err(_) => ExitCode::from(10),
    }
}
