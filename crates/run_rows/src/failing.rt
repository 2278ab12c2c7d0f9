// Writes and reads that fail, stores that tell no contents, and an answer that is too long to list.
use crate::faulty::ONE;
use crate::refusals::USAGE;
use crate::rows::{ends_so, stored, words_of};
use crate::topologies::nested;
use finder_cli::run;
use io_edges::{Blind, MemFiles, MemSink};
use std::alloc::Global;
use std::test::Fail;

/// The lines of the document of `find c1 any c2 any tunnel.json`.
const TUNNEL: [&str; 15] = [
    "circuit 1\n",
    "request c1 any c2 any\n",
    "outcome found 3 3\n",
    "hop 1 adapt ad c1 - s1 - d\n",
    "hop 2 link t s1 - s2 - d\n",
    "hop 3 deadapt de s2 - c2 - d\n",
    "domain d\n",
    "rule 1 wrap ad c1 - s1 -\n",
    "rule 2 carry t s1 - s2 -\n",
    "rule 3 unwrap de s2 - c2 -\n",
    "top c1 - 0 0\n",
    "top c2 - 3 3\n",
    "seg s1 - s1 - 0 0\n",
    "seg s1 - s2 - 1 1\n",
    "end\n",
];

const ONE_LINK: &str =
    "circuit 1\nrequest a any b any\noutcome found 1 1\nhop 1 link l a - b - d\ndomain d\nrule 1 carry l a - b -\ntop a - 0 0\ntop b - 1 1\nend\n";

#[test]
fn failing_writes(rt: HostRuntime) -> Result<(), Fail> {
    let alloc = rt.alloc();
    let words = words_of(alloc, "find c1 any c2 any tunnel.json")?;
    let mut files = stored(alloc)?;
    let mut printed = String::new(alloc);
    for (number, line) in (1..16).zip(TUNNEL) {
        let mut out = MemSink::new(alloc, 4096)?;
        out.fail_call(number)?;
        assert_eq!(rt; run(alloc, words.as_slice(), &mut files, &mut out), 6);
        assert_eq!(rt; out.written(), printed.as_bytes());
        printed.push_str(line)?;
    }
    let mut out = MemSink::chunked(alloc, 4096, 1)?;
    assert_eq!(rt; run(alloc, words.as_slice(), &mut files, &mut out), 0);
    assert_eq!(rt; out.written(), printed.as_bytes());
    let mut out = MemSink::chunked(alloc, 4096, 1)?;
    out.fail_call(5)?;
    assert_eq!(rt; run(alloc, words.as_slice(), &mut files, &mut out), 6);
    assert_eq!(rt; out.written(), b"circ".as_slice());
    Ok(())
}

#[test]
fn failing_reads(rt: HostRuntime) -> Result<(), Fail> {
    let alloc = rt.alloc();
    let three = "find a-in 1780 c-host 2000 alpha.json beta.json gamma.json";
    let rows = [
        (three, 1, "read 1 failed\n"),
        (three, 2, "read 2 failed\n"),
        (three, 3, "read 3 failed\n"),
        ("find a any b any one.json two.json", 2, "read 2 failed\n"),
    ];
    for (words, number, printed) in rows {
        let mut files = stored(alloc)?;
        files.fail_call(number)?;
        assert!(rt; ends_so(alloc, words, &mut files, 5, printed)?, "{words}");
    }
    let mut files = Blind::new(stored(alloc)?);
    let words = "find a any b any gone.json";
    assert!(rt; ends_so(alloc, words, &mut files, 5, "read 1 absent\n")?);
    assert_eq!(rt; files.faults(), 1);
    let mut files = Blind::new(stored(alloc)?);
    let words = "find a any b any one.json gone.json";
    assert!(rt; ends_so(alloc, words, &mut files, 5, "read 2 absent\n")?);
    Ok(())
}

#[test]
fn no_words(rt: HostRuntime) -> Result<(), Fail> {
    let alloc = rt.alloc();
    let mut files = MemFiles::new(alloc);
    let mut out = MemSink::new(alloc, 4096)?;
    assert_eq!(rt; run(alloc, &[], &mut files, &mut out), 2);
    assert_eq!(rt; out.written(), USAGE.as_bytes());
    let mut out = MemSink::new(alloc, 4096)?;
    out.fail_call(1)?;
    assert_eq!(rt; run(alloc, &[], &mut files, &mut out), 6);
    assert!(rt; out.written().is_empty());
    Ok(())
}

/// One link, filled up with spaces to that many bytes.
fn filled(alloc: Global, size: usize) -> Result<MemFiles, Fail> {
    let mut bytes = Vec::from_slice(alloc, ONE.as_bytes())?;
    bytes.resize(size, b' ')?;
    let mut files = MemFiles::new(alloc);
    files.put("one.json", bytes.as_slice())?;
    Ok(files)
}

#[test]
fn files_at_the_limit(rt: HostRuntime) -> Result<(), Fail> {
    let alloc = rt.alloc();
    let words = "find a any b any one.json";
    assert!(rt; ends_so(alloc, words, &mut filled(alloc, 16_777_216)?, 0, ONE_LINK)?);
    let too_big = "read 1 too-big\n";
    assert!(rt; ends_so(alloc, words, &mut filled(alloc, 16_777_217)?, 11, too_big)?);
    let mut blind = Blind::new(filled(alloc, 16_777_217)?);
    assert!(rt; ends_so(alloc, words, &mut blind, 11, too_big)?);
    assert_eq!(rt; blind.faults(), 0);
    Ok(())
}

#[test]
fn a_circuit_that_is_too_long(rt: HostRuntime) -> Result<(), Fail> {
    let alloc = rt.alloc();
    let mut files = MemFiles::new(alloc);
    let text = nested(alloc)?;
    files.put("nested.json", text.as_bytes())?;
    let words = "route xN any yN any nested.json";
    let printed = "circuit 1\nrequest xN any yN any\noutcome long 81916 81916\nend\n";
    assert!(rt; ends_so(alloc, words, &mut files, 8, printed)?);
    Ok(())
}
