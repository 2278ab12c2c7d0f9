use crate::{SizesFault, read_sizes};
use ml_base::Id;
use std::alloc::Global;
use std::test::Fail;

/// Overhead of `ad`, overhead of `t`, limit of `t`, limit of `ad`; or the line that does not fit.
type Told = Result<(u32, u32, Option<u32>, Option<u32>), u64>;

fn told(alloc: Global, bytes: &[u8]) -> Result<Told, Fail> {
    let ad = Id::new(alloc, "ad")?;
    let t = Id::new(alloc, "t")?;
    match read_sizes(alloc, bytes) {
        Ok(sizes) => Ok(Ok((
            sizes.overhead(&ad),
            sizes.overhead(&t),
            sizes.limit(&t),
            sizes.limit(&ad),
        ))),
        Err(SizesFault::Line { line }) => Ok(Err(line)),
        Err(fault) => Err(fault.into()),
    }
}

/// A text with one size, of an id of this length.
fn text_with_long_id(alloc: Global, length: u64) -> Result<String, Fail> {
    let mut text = String::from_str(alloc, "sizes 1\noverhead ")?;
    for _ in 0..length {
        text.push('x')?;
    }
    text.push_str(" 8\nend\n")?;
    Ok(text)
}

#[test]
fn texts_of_sizes(rt: HostRuntime) -> Result<(), Fail> {
    let alloc = rt.alloc();
    let long = text_with_long_id(alloc, 255)?;
    let too_long = text_with_long_id(alloc, 256)?;
    let rows: [(&[u8], Told); 22] = [
        (
            b"sizes 1\noverhead ad 8\noctets t 1500\nend\n".as_slice(),
            Ok((8, 0, Some(1500), None)),
        ),
        (
            b"sizes 1\noctets t 0\noverhead t 65535\noctets ad 65535\nend\n".as_slice(),
            Ok((0, 65535, Some(0), Some(65535))),
        ),
        (b"sizes 1\nend\n".as_slice(), Ok((0, 0, None, None))),
        (long.as_str().as_bytes(), Ok((0, 0, None, None))),
        (too_long.as_str().as_bytes(), Err(2)),
        (b"".as_slice(), Err(1)),
        (b"sizes 1".as_slice(), Err(1)),
        (b"sizes 2\nend\n".as_slice(), Err(1)),
        (b" sizes 1\nend\n".as_slice(), Err(1)),
        (b"sizes 1\n".as_slice(), Err(2)),
        (b"sizes 1\nend".as_slice(), Err(2)),
        (b"sizes 1\noctets t 65536\nend\n".as_slice(), Err(2)),
        (b"sizes 1\noctets t 08\nend\n".as_slice(), Err(2)),
        (b"sizes 1\noctets t +8\nend\n".as_slice(), Err(2)),
        (b"sizes 1\noctets t\nend\n".as_slice(), Err(2)),
        (b"sizes 1\noctets t 8 \nend\n".as_slice(), Err(2)),
        (b"sizes 1\noctets  t 8\nend\n".as_slice(), Err(2)),
        (b"sizes 1\noctets \xFF 8\nend\n".as_slice(), Err(2)),
        (b"sizes 1\noctets t 8\r\nend\n".as_slice(), Err(2)),
        (
            b"sizes 1\noctets t 8\noverhead t 8\noctets t 8\nend\n".as_slice(),
            Err(4),
        ),
        (b"sizes 1\noctets t 8\nend\n\n".as_slice(), Err(4)),
        (b"sizes 1\noctets t 8\nend\nx".as_slice(), Err(4)),
    ];
    for (bytes, wanted) in rows {
        assert_eq!(rt; told(alloc, bytes)?, wanted, "of {bytes:?}");
    }
    Ok(())
}
