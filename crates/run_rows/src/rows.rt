// How a row is tried.
use crate::faulty::put_faulty;
use crate::topologies::put_sound;
use finder_cli::run;
use io_edges::{Files, MemFiles, MemSink};
use ml_base::NoMemory;
use std::alloc::{AllocError, Global};
use std::test::Fail;

/// All topologies of the rows, by their names.
pub fn stored(alloc: Global) -> Result<MemFiles, NoMemory> {
    let mut files = MemFiles::new(alloc);
    put_sound(&mut files)?;
    put_faulty(&mut files)?;
    Ok(files)
}

pub fn words_of(alloc: Global, text: &str) -> Result<Vec<String>, AllocError> {
    let mut words = Vec::new(alloc);
    for word in text.split(' ') {
        words.push(String::from_str(alloc, word)?)?;
    }
    Ok(words)
}

/// Whether the words over these files end with this status and print this text.
pub fn ends_so<F: Files>(
    alloc: Global,
    words: &str,
    files: &mut F,
    status: u8,
    printed: &str,
) -> Result<bool, Fail> {
    let words = words_of(alloc, words)?;
    let mut out = MemSink::new(alloc, 4000)?;
    let ended = run(alloc, words.as_slice(), files, &mut out);
    Ok(ended == status && out.written() == printed.as_bytes())
}

/// The words of the first row that, over the stored files, do not end with its status or do not print its text.
pub fn first_that_differs<'a>(
    alloc: Global,
    rows: &[(&'a str, u8, &str)],
) -> Result<Option<&'a str>, Fail> {
    for &(words, status, printed) in rows {
        let mut files = stored(alloc)?;
        if !ends_so(alloc, words, &mut files, status, printed)? {
            return Ok(Some(words));
        }
    }
    Ok(None)
}

fn has_line(text: &[u8], line: &str) -> bool {
    text.split(|byte| *byte == b'\n')
        .any(|printed| printed == line.as_bytes())
}

/// Whether the words over the stored files end with this status, and print each of these lines.
pub fn shows(alloc: Global, words: &str, status: u8, lines: &str) -> Result<bool, Fail> {
    let words = words_of(alloc, words)?;
    let mut files = stored(alloc)?;
    let mut out = MemSink::new(alloc, 4000)?;
    let ended = run(alloc, words.as_slice(), &mut files, &mut out);
    Ok(ended == status && lines.lines().all(|line| has_line(out.written(), line)))
}
