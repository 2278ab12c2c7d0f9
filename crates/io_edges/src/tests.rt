use crate::{Blind, Failed, FileFault, Files, MemFiles, MemSink, Sink};
use std::test::Fail;

#[test]
fn reads(rt: HostRuntime) -> Result<(), Fail> {
    let alloc = rt.alloc();
    let mut files = MemFiles::new(alloc);
    files.put("n", b"xy").expect(&rt, "memory");
    let bytes = files.read_file(alloc, "n", 2)?;
    assert_eq!(rt; bytes.as_slice(), b"xy".as_slice());
    assert!(rt; matches!(files.read_file(alloc, "n", 1), Err(FileFault::TooBig)));
    assert!(rt; matches!(files.read_file(alloc, "m", 9), Err(FileFault::Absent)));
    assert_eq!(rt; files.faults(), 0);
    Ok(())
}

#[test]
fn failing_reads(rt: HostRuntime) -> Result<(), Fail> {
    let alloc = rt.alloc();
    let mut files = MemFiles::new(alloc);
    files.put("n", b"xy").expect(&rt, "memory");
    files.fail_call(1).expect(&rt, "memory");
    assert!(rt; matches!(files.read_file(alloc, "n", 2), Err(FileFault::Failed)));
    assert_eq!(rt; files.faults(), 1);
    let bytes = files.read_file(alloc, "n", 2)?;
    assert_eq!(rt; bytes.len(), 2);
    let mut blind = Blind::new(files);
    let bytes = blind.read_file(alloc, "n", 2)?;
    assert_eq!(rt; bytes.as_slice(), b"xy".as_slice());
    assert!(rt; matches!(blind.read_file(alloc, "n", 1), Err(FileFault::TooBig)));
    assert_eq!(rt; blind.faults(), 0);
    assert!(rt; matches!(blind.read_file(alloc, "m", 2), Err(FileFault::Absent)));
    assert_eq!(rt; blind.faults(), 1);
    Ok(())
}

#[test]
fn writes(rt: HostRuntime) -> Result<(), Fail> {
    let mut sink = MemSink::new(rt.alloc(), 3).expect(&rt, "memory");
    assert_eq!(rt; sink.write(b"abcd"), Ok(3));
    assert_eq!(rt; sink.write(b"d"), Err(Failed));
    assert_eq!(rt; sink.written(), b"abc".as_slice());
    let mut sink = MemSink::new(rt.alloc(), 9).expect(&rt, "memory");
    sink.fail_call(1).expect(&rt, "memory");
    assert_eq!(rt; sink.write(b"a"), Err(Failed));
    assert_eq!(rt; sink.write(b"a"), Ok(1));
    let mut sink = MemSink::chunked(rt.alloc(), 9, 2).expect(&rt, "memory");
    assert_eq!(rt; sink.write(b"abc"), Ok(2));
    assert_eq!(rt; sink.written(), b"ab".as_slice());
    Ok(())
}
