//! The system's files and its standard output. Tests `RealFolder` and `RealSink` of `amber_io`.

use crate::expected::expect_text;
use crate::folders::loaded;
use amber_io::{Folder, IoErr, RealFolder, RealSink, Sink};
use std::os::unix::fs::symlink;
use std::rt::{Env, Files};
use std::test::Fail;
use std::{env, fs, io};

// The path of a file of this name in the system's temporary folder.
fn temporary<R: Env + AllocGlobal>(rt: &R, name: &str) -> io::Result<String> {
    Ok(env::temp_dir(rt)?.join(rt.alloc(), name)?.into_string())
}

// What a folder loads of the front of a file, what once the file is removed, and whether it then appends
// nothing to it.
fn fronts<R: Env + Files + AllocGlobal + Clone + Drop>(rt: &R) -> io::Result<String> {
    let path = temporary(rt, "amber_io_real_front")?;
    fs::write(rt, &path, "pausable")?;
    let mut folder = RealFolder::new(rt.alloc(), rt);
    let loads = [
        (path.as_str(), 0),
        (&path, 5),
        (&path, 8),
        (&path, u64::MAX),
    ];
    let there = loaded(rt.alloc(), &mut folder, &loads)?;
    fs::remove_file(rt, &path)?;
    let removed = loaded(rt.alloc(), &mut folder, &[(&path, 5)])?;
    let refused = folder.append(&path, b"x") == Err(IoErr::Failed);
    Ok(format!(in rt.alloc(); "{there} {removed} refused {refused}")?)
}

#[test]
fn real_folder_loads_the_front_of_a_file(rt: HostRuntime) -> Result<(), Fail> {
    expect_text(
        fronts(&rt)?,
        ";pausa;pausable;pausable; failed; refused true",
    )
}

// Makes a file of two pieces.
fn rewrite<R: Files>(folder: &mut RealFolder<R>, name: &str) -> Result<(), IoErr> {
    folder.create(name)?;
    folder.append(name, b"head")?;
    folder.append(name, b"+tail")
}

// Whether a folder writes a file anew, and what it then loads.
fn rewritten<R: Env + Files + AllocGlobal + Clone + Drop>(rt: &R) -> io::Result<String> {
    let path = temporary(rt, "amber_io_real_folder")?;
    fs::write(rt, &path, "older and longer")?;
    let mut folder = RealFolder::new(rt.alloc(), rt);
    let written = rewrite(&mut folder, &path).is_ok();
    let found = loaded(rt.alloc(), &mut folder, &[(&path, 99)])?;
    fs::remove_file(rt, &path)?;
    Ok(format!(in rt.alloc(); "written {written} {found}")?)
}

#[test]
fn real_folder_writes_a_file(rt: HostRuntime) -> Result<(), Fail> {
    expect_text(rewritten(&rt)?, "written true head+tail;")
}

// The names of a file: the one by which it is made, another spelling of it, a link to it and a second name of it.
#[derive(Drop)]
struct Names {
    path: String,
    spelled: String,
    link: String,
    second: String,
}

impl Names {
    fn all(&self) -> [&str; 4] {
        [&self.path, &self.spelled, &self.link, &self.second]
    }
}

// Four names in the system's temporary folder.
fn temporary_names<R: Env + AllocGlobal>(rt: &R) -> io::Result<Names> {
    let path = temporary(rt, "amber_io_real_input")?;
    let spelled = temporary(rt, "./amber_io_real_input")?;
    let link = temporary(rt, "amber_io_real_link")?;
    let second = temporary(rt, "amber_io_real_second")?;
    Ok(Names {
        path,
        spelled,
        link,
        second,
    })
}

// Makes the file, the link and the second name.
fn make<R: Files + AllocGlobal + Clone + Drop>(rt: &R, names: &Names) -> io::Result<()> {
    fs::write(rt, &names.path, "input")?;
    symlink(rt, &names.path, &names.link)?;
    fs::hard_link(rt, &names.path, &names.second)
}

// Removes the file, the link and the second name, where they are there.
fn clear<R: Files + AllocGlobal + Clone + Drop>(rt: &R, names: &Names) {
    for name in names.all() {
        let _ = fs::remove_file(rt, name);
    }
}

// Whether a folder makes no file of any of the names.
fn refuses_all<F: Folder>(folder: &mut F, names: &Names) -> bool {
    for name in names.all() {
        if folder.create(name) != Err(IoErr::Failed) {
            return false;
        }
    }
    true
}

// What a folder loads before and after it was to make a file of each of the names, and whether it made none.
fn kept<R: Env + Files + AllocGlobal + Clone + Drop>(rt: &R) -> io::Result<String> {
    let names = temporary_names(rt)?;
    clear(rt, &names);
    make(rt, &names)?;
    let mut folder = RealFolder::new(rt.alloc(), rt);
    let before = loaded(rt.alloc(), &mut folder, &[(&names.path, 9)])?;
    let refused = refuses_all(&mut folder, &names);
    let after = loaded(rt.alloc(), &mut folder, &[(&names.path, 9)])?;
    clear(rt, &names);
    Ok(format!(in rt.alloc(); "{before} refused {refused} {after}")?)
}

#[test]
fn real_folder_keeps_a_loaded_file_under_each_of_its_names(rt: HostRuntime) -> Result<(), Fail> {
    expect_text(kept(&rt)?, "input; refused true input;")
}

#[test]
fn real_sink_puts_a_piece(rt: HostRuntime) {
    let mut sink = RealSink::new(&rt);
    assert!(rt; sink.put(b"a piece\n") == Ok(()));
}
