use crate::{TextFault, read, write};
use answer_spec::well_formed;
use circuit_spec::Outcome;
use io_edges::MemSink;
use ml_base::NoMemory;
use std::alloc::{AllocError, Global};
use std::test::Fail;

const LINK: &str =
    "circuit 1\nrequest a any b any\noutcome found 1 1\nhop 1 link l a - b - d\ndomain d\nrule 1 carry l a - b -\ntop a - 0 0\ntop b - 1 1\nend\n";

const TUNNEL: &str =
    "circuit 1\nrequest c1 any c2 any\noutcome found 3 3\nhop 1 adapt ad c1 - s1 - d\nhop 2 link t s1 - s2 - d\nhop 3 deadapt de s2 - c2 - d\ndomain d\nrule 1 wrap ad c1 - s1 -\nrule 2 carry t s1 - s2 -\nrule 3 unwrap de s2 - c2 -\ntop c1 - 0 0\ntop c2 - 3 3\nseg s1 - s1 - 0 0\nseg s1 - s2 - 1 1\nend\n";

const AGAIN: &str =
    "circuit 1\nrequest x1 any y1 any\noutcome found 6 6\nhop 1 adapt f x1 - x0 - d\nhop 2 link l x0 - y0 - d\nhop 3 deadapt u y0 - m1 - d\nhop 4 adapt g m1 - x0 - d again 1\nhop 5 link l x0 - y0 - d again 2\nhop 6 deadapt v y0 - y1 - d\ndomain d\nrule 1 wrap f x1 - x0 -\nrule 2 carry l x0 - y0 -\nrule 3 unwrap u y0 - m1 -\nrule 4 wrap g m1 - x0 -\nrule 5 carry l x0 - y0 -\nrule 6 unwrap v y0 - y1 -\ntop m1 - 3 3\ntop x1 - 0 0\ntop y1 - 6 6\nseg x0 - x0 - 0 0\nseg x0 - y0 - 1 1\nend\n";

/// The document of the tunnel with a part of it changed, where it stands first.
fn changed(alloc: Global, old: &str, new: &str) -> Result<String, AllocError> {
    match TUNNEL.split_once(old) {
        Some((before, after)) => format!(in alloc; "{before}{new}{after}"),
        None => format!(in alloc; "not there: {old}"),
    }
}

/// The first line that does not fit, 0 where all fit.
fn misfit(alloc: Global, text: &str) -> Result<u64, NoMemory> {
    match read(alloc, text.as_bytes()) {
        Ok(_) => Ok(0),
        Err(TextFault::Line { line }) => Ok(line),
        Err(TextFault::NoMemory) => Err(NoMemory),
    }
}

/// Whether a text is read and written as the same text.
fn comes_back(alloc: Global, text: &str) -> Result<bool, Fail> {
    let answer = read(alloc, text.as_bytes())?;
    if !well_formed(&answer) {
        return Ok(false);
    }
    let mut out = MemSink::new(alloc, 4000)?;
    write(&answer, &mut out)?;
    Ok(out.written() == text.as_bytes())
}

#[test]
fn reads_a_link(rt: HostRuntime) -> Result<(), Fail> {
    let answer = read(rt.alloc(), LINK.as_bytes())?;
    assert_eq!(rt; answer.request.from.text(), "a");
    assert!(rt; matches!(answer.outcome, Outcome::Found { cost: 1, hops: 1 }));
    assert_eq!(rt; answer.hops.len(), 1);
    assert_eq!(rt; answer.flags.as_slice(), [None].as_slice());
    assert_eq!(rt; answer.rules.len(), 1);
    assert_eq!(rt; answer.potentials.len(), 2);
    Ok(())
}

#[test]
fn documents(rt: HostRuntime) -> Result<(), Fail> {
    let texts = [
        LINK,
        TUNNEL,
        AGAIN,
        "circuit 1\nrequest a 5 a any\noutcome found 0 0\nend\n",
        "circuit 1\nrequest a any c any\noutcome past\ntop a - 0 0\ntop b - 18446744073709551615 1\ntop c - past -\nend\n",
        "circuit 1\nrequest p 100 q 200\noutcome none\ntop p 100 0 0\ntop q 100 1 1\nend\n",
        "circuit 1\nrequest a any b any\noutcome long 7 1099511627776\ntop b - 0 1099511627776\ntop b 9 0 0\ntop b 10 0 0\nseg b - a - 0 0\nend\n",
        "circuit 1\nrequest a any b any\noutcome found 9 2\nhop 1 cross s a 5 b 4294967295 e\nhop 2 convert c b 7 b - d again 18446744073709551615\ndomain d\nrule 2 convert c b 7 b -\ndomain e\nrule 1 swap s a 5 b 4294967295\nrule 3 connect s a 5 b 5\nrule 18446744073709551615 connect s a - b -\nend\n",
    ];
    for text in texts {
        assert!(rt; comes_back(rt.alloc(), text)?, "{text}");
    }
    Ok(())
}

#[test]
fn first_misfits(rt: HostRuntime) -> Result<(), Fail> {
    let rows = [
        ("", "", 0),
        ("circuit 1", "circuit 2", 1),
        ("c1 any c2", "c1 01 c2", 2),
        ("c1 any c2", "c1 4294967296 c2", 2),
        ("c1 any c2", "c1  any c2", 2),
        ("found 3 3", "found 03 3", 3),
        ("found 3 3", "found 3 03", 3),
        ("found 3 3", "found 18446744073709551616 3", 3),
        ("found 3 3", "found 3 1099511627777", 3),
        ("found 3 3", "found 3", 3),
        ("found 3 3", "none", 4),
        ("\nhop 1 adapt", "\n\nhop 1 adapt", 4),
        ("hop 1 adapt", "hop 1  adapt", 4),
        ("hop 1 adapt", "hop 01 adapt", 4),
        ("hop 1 adapt", "hop 0 adapt", 4),
        ("- d\nhop 2", "- d again 18446744073709551616\nhop 2", 4),
        ("- d\nhop 2", "- d again\nhop 2", 4),
        ("hop 2 link t s1 - s2 - d\n", "", 5),
        ("hop 3", "hop 4", 6),
        ("domain d\n", "domain d\ndomain d\n", 8),
        ("domain d\n", "domain d\ndomain e\n", 8),
        ("domain d\n", "", 7),
        ("rule 1", "rule 0", 8),
        ("carry t s1 - s2 -", "connect t s1 5 s2 6", 9),
        ("carry t s1 - s2 -", "swap t s1 5 s2 5", 9),
        ("rule 2", "rule 1", 9),
        ("rule 3", "domain c\nrule 3", 10),
        ("rule 3 unwrap de s2 - c2 -\n", "domain e\n", 11),
        (
            "top c1 - 0 0\ntop c2 - 3 3\n",
            "top c2 - 3 3\ntop c1 - 0 0\n",
            12,
        ),
        ("top c2 - 3 3\n", "top c1 - 0 0\n", 12),
        ("top c2 - 3 3\n", "top c2 - 3 3\ntop c2 - 4 4\n", 13),
        ("top c2 - 3 3", "top c2 - 3 1099511627777", 12),
        ("top c2 - 3 3", "top c2 - past 0", 12),
        (
            "top c2 - 3 3\nseg s1 - s1 - 0 0\n",
            "seg s1 - s1 - 0 0\ntop c2 - 3 3\n",
            13,
        ),
        ("seg s1 - s2 - 1 1\n", "seg s1 - s1 - 0 0\n", 14),
        ("seg s1 - s2 -", "seg s1 - s2", 14),
        ("\nend\n", "\n", 15),
        ("\nend\n", "\nend", 15),
        ("\nend\n", "\nEND\n", 15),
        ("\nend\n", "\nend\nend\n", 16),
        ("\nend\n", "\nend\n\n", 16),
        ("\nend\n", "\nend\ne", 16),
    ];
    for (old, new, line) in rows {
        let text = changed(rt.alloc(), old, new)?;
        assert_eq!(rt; misfit(rt.alloc(), text.as_str())?, line, "{old}, {new}");
    }
    Ok(())
}

#[test]
fn cut_documents(rt: HostRuntime) -> Result<(), Fail> {
    let mut front = String::new(rt.alloc());
    for (number, line) in (1..=15_u64).zip(TUNNEL.lines()) {
        assert_eq!(rt; misfit(rt.alloc(), front.as_str())?, number);
        front.push_str(line)?;
        assert_eq!(rt; misfit(rt.alloc(), front.as_str())?, number);
        front.push('\n')?;
    }
    assert_eq!(rt; misfit(rt.alloc(), front.as_str())?, 0);
    Ok(())
}

#[test]
fn long_ids(rt: HostRuntime) -> Result<(), Fail> {
    let mut id = String::new(rt.alloc());
    for _ in 0..255 {
        id.push('~')?;
    }
    for (more, line) in [("", 0), ("~", 2), ("\u{7f}", 2)] {
        let text = format!(in rt.alloc();
            "circuit 1\nrequest a any {id}{more} any\noutcome none\nend\n"
        )?;
        assert_eq!(rt; misfit(rt.alloc(), text.as_str())?, line);
    }
    Ok(())
}
