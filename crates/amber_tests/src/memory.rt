//! A folder and a sink in memory, of `amber_io`. What they do where a call fails is shown by the cases of
//! `amber_cases`.

use crate::expected::expect_text;
use crate::folders::loaded;
use amber_io::{Fails, Folder, IoErr, MemFolder, MemSink, NamedFiles, Numbers, Sink};
use std::alloc::{AllocError, Global};
use std::test::Fail;

// The second load fails.
fn fails(alloc: Global) -> Result<Fails, AllocError> {
    Ok(Fails {
        loads: Numbers::new(Vec::from_slice(alloc, &[2])?),
        writes: Numbers::new(Vec::new(alloc)),
        puts: Numbers::new(Vec::new(alloc)),
        keep: 0,
    })
}

// A folder with one file.
fn folder(alloc: Global) -> Result<MemFolder, AllocError> {
    let name = String::from_str(alloc, "o.csv")?;
    let mut files = Vec::new(alloc);
    files.push((name, Vec::from_slice(alloc, b"id,qty")?))?;
    Ok(MemFolder::new(alloc, NamedFiles::new(files), fails(alloc)?))
}

// Makes a log of two pieces.
fn write(folder: &mut MemFolder) -> Result<(), IoErr> {
    folder.create("log")?;
    for piece in ["head", "+tail"] {
        if folder.read("log").is_some() {
            folder.append("log", piece.as_bytes())?;
        }
    }
    Ok(())
}

#[test]
fn a_folder_in_memory_loads_and_writes(rt: HostRuntime) -> Result<(), Fail> {
    let alloc = rt.alloc();
    let mut folder = folder(alloc)?;
    let loads = [("o.csv", 2), ("o.csv", 2), ("O.csv", 2), ("o.csv", 9)];
    expect_text(
        loaded(alloc, &mut folder, &loads)?,
        "id;failed;failed;id,qty;",
    )?;
    assert!(rt; write(&mut folder).is_ok());
    expect_text(loaded(alloc, &mut folder, &[("log", 9)])?, "head+tail;")
}

// Whether a sink in memory keeps what is put.
fn keeps(alloc: Global) -> Result<bool, AllocError> {
    let mut sink = MemSink::new(alloc, fails(alloc)?);
    let put = sink.put(b"one").is_ok() && sink.put(b"two").is_ok();
    Ok(put && sink.bytes() == b"onetwo".as_slice())
}

#[test]
fn a_sink_in_memory_keeps_its_pieces(rt: HostRuntime) -> Result<(), Fail> {
    assert!(rt; keeps(rt.alloc())?);
    Ok(())
}

#[test]
fn an_error_prints_what_it_is(rt: HostRuntime) -> Result<(), Fail> {
    let text = format!(in rt.alloc(); "{}; {}", IoErr::Failed, IoErr::NoMemory)?;
    expect_text(text, "the folder or the sink failed; out of memory")
}
