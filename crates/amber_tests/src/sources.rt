//! A source in memory, and the standard input. Tests `amber_io`.

use crate::expected::expect_text;
use amber_io::{IoErr, MemSource, Numbers, RealSource, Source};
use std::alloc::{AllocError, Global};
use std::test::Fail;

// What reads of a source give one after the other: each is of at most a given number of bytes, or of one.
fn given<S: Source>(alloc: Global, source: &mut S, reads: &[u32]) -> Result<String, AllocError> {
    let mut text = String::new(alloc);
    for most in reads {
        match source.read(alloc, (*most).max(1)) {
            Ok(bytes) => text.push_str(&String::from_utf8_lossy(alloc, bytes.as_slice())?)?,
            Err(IoErr::Failed) => text.push_str("failed")?,
            Err(IoErr::NoMemory) => return Err(AllocError),
        }
        text.push_str(";")?;
    }
    Ok(text)
}

#[test]
fn a_source_in_memory_gives_its_bytes_in_pieces(rt: HostRuntime) -> Result<(), Fail> {
    let alloc = rt.alloc();
    let bytes = Vec::from_slice(alloc, b"run\npause")?;
    let fails = Numbers::new(Vec::from_slice(alloc, &[2, 5])?);
    let mut source = MemSource::new(bytes, 4, fails);
    let found = given(alloc, &mut source, &[9, 9, 1, 9, 9, 9, 9])?;
    expect_text(found, "run\n;failed;p;ause;failed;;;")
}

#[test]
fn a_source_in_memory_shows_what_it_has_left(rt: HostRuntime) -> Result<(), Fail> {
    let alloc = rt.alloc();
    let none = Numbers::new(Vec::new(alloc));
    let mut source = MemSource::new(Vec::from_slice(alloc, b"run\npause")?, 64, none);
    assert!(rt; source.read(alloc, 4).is_ok());
    assert!(rt; source.left() == b"pause".as_slice());
    Ok(())
}

#[test]
fn the_standard_input_of_a_test_is_at_its_end(rt: HostRuntime) -> Result<(), Fail> {
    let mut source = RealSource::new(&rt);
    expect_text(given(rt.alloc(), &mut source, &[9, 1])?, ";;")
}
