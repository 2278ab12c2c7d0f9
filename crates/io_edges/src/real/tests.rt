// What no clause says of the real edges: which bytes they pass on, and that they count what fails.
use super::{RealFiles, RealSink};
use crate::{Failed, FileFault, Files, Sink};
use std::cell::Cell;
use std::fmt::Display;
use std::io::ErrorKind;
use std::test::Fail;
use std::{fs, io};

#[test]
fn files_of_the_system(rt: HostRuntime) -> Result<(), Fail> {
    let alloc = rt.alloc();
    fs::write(&rt, "whole", b"all its bytes\n\xff".as_slice())?;
    let mut files = RealFiles::new(&rt);
    let bytes = files.read_file(alloc, "whole", 15)?;
    assert_eq!(rt; bytes.as_slice(), b"all its bytes\n\xff".as_slice());
    assert!(rt; matches!(files.read_file(alloc, "whole", 14), Err(FileFault::TooBig)));
    assert_eq!(rt; files.faults, 0);
    assert!(rt; matches!(files.read_file(alloc, ".", 15), Err(FileFault::Failed)));
    assert_eq!(rt; files.faults, 1);
    assert!(rt;
        matches!(
            files.read_file(alloc, "no such file", 15),
            Err(FileFault::Absent)
        )
    );
    assert_eq!(rt; files.faults, 2);
    assert_eq!(rt; files.reads, 4);
    fs::remove_file(&rt, "whole")?;
    Ok(())
}

/// A pipe of which the first try is interrupted; the second takes two bytes; then it is closed.
#[derive(Drop)]
struct Pipe {
    due: &'static [u8],
    tries: Cell<u64>,
    was_due: Cell<bool>,
}

impl Print for Pipe {
    fn print<D: Display + Drop>(&self, _value: D) -> io::Result<()> {
        Ok(())
    }

    fn println<D: Display + Drop>(&self, _value: D) -> io::Result<()> {
        Ok(())
    }

    fn write_all(&self, _bytes: &[u8]) -> io::Result<()> {
        Ok(())
    }

    fn write_some(&self, bytes: &[u8]) -> io::Result<usize> {
        self.tries.set(self.tries.get().saturating_add(1));
        match self.tries.get() {
            1 => Err(io::Error::from(ErrorKind::Interrupted)),
            2 => {
                self.was_due.set(bytes == self.due);
                Ok(bytes.len().min(2))
            }
            _ => Err(io::Error::from(ErrorKind::BrokenPipe)),
        }
    }
}

#[test]
fn a_pipe(rt: HostRuntime) -> Result<(), Fail> {
    let pipe = Pipe {
        due: b"abc",
        tries: Cell::new(0),
        was_due: Cell::new(false),
    };
    let mut sink = RealSink::new(&pipe);
    assert_eq!(rt; sink.write(b"abc"), Ok(2));
    assert!(rt; pipe.was_due.get());
    assert_eq!(rt; sink.faults, 0);
    assert_eq!(rt; sink.write(b"c"), Err(Failed));
    assert_eq!(rt; sink.faults, 1);
    assert_eq!(rt; pipe.tries.get(), 3);
    Ok(())
}
