//! Builds a machine of a named shape, searches it, and prints counts. It is measured beside the plain Rust program in
//! bench/machine, which prints the same lines.
//!
//! usage: machine_bench chain STATES | roots ROOTS SIZE | shared ROOTS SIZE | nest LEVELS | ways WAYS
#![tactic(auto)]

mod counts;
mod report;
mod shapes;

use anyhow::Result;
use report::report;
use shapes::Shape;
use std::alloc::Global;
use std::env;
use std::env::Env;
use std::process::ExitCode;

fn size_at(words: &[String], place: usize) -> Option<u64> {
    words.get(place)?.as_str().parse().ok()
}

/// The shape that the words after the program's name spell, if they do.
fn shape_of(words: &[String]) -> Option<Shape> {
    let name = words.get(1)?;
    let first = size_at(words, 2)?;
    let second = size_at(words, 3);
    match (name.as_str(), second, words.len()) {
        ("chain", None, 3) => Some(Shape::Chain { states: first }),
        ("nest", None, 3) => Some(Shape::Nest { levels: first }),
        ("ways", None, 3) => Some(Shape::Ways { ways: first }),
        ("roots", Some(size), 4) => Some(Shape::Roots { roots: first, size }),
        ("shared", Some(size), 4) => Some(Shape::Shared { roots: first, size }),
        _ => None,
    }
}

fn words<R: Env + Alloc<A = Global>>(rt: &R) -> Result<Vec<String>> {
    let mut words = Vec::new(rt.alloc());
    for word in env::args(rt)? {
        words.push(word)?;
    }
    Ok(words)
}

fn main(rt: HostRuntime) -> Result<ExitCode> {
    let words = words(&rt)?;
    let Some(shape) = shape_of(words.as_slice()) else {
        eprintln!(rt;
            "usage: machine_bench chain STATES | roots ROOTS SIZE | shared ROOTS SIZE | nest LEVELS | ways WAYS"
        )?;
        return Ok(ExitCode::from(2));
    };
    report(&rt, rt.alloc(), shape)?;
    Ok(ExitCode::SUCCESS)
}
