//! The commands of the script in a file.
//! Rests on `load` and on `read_script`.

ghost use Rattle.std.specs.Prelude.{◌≡◌, IfErr, IfOk};
ghost use Rattle.amber_io.specs.World.{LoadsOnly};
ghost use Rattle.amber_course.specs.Course.{script_in, script_read};
ghost use Rattle.amber_course.specs.Ready.{AreOfScript};
ghost use Rattle.amber_course.specs.Steps.{Follows, Judges, Names};
ghost use Rattle.amber_script.specs.Script.{script_of};

use crate::failure::Failure;
use crate::loading::{MOST_TEXT, load};
use amber_io::Outside;
use amber_log::Commands;
use amber_rows::{Bytes, Flow};
use amber_script::{ScriptErr, read_script};
use std::alloc::Global;

// The commands that the bytes of a file are for a workflow.
fn read(alloc: Global, bytes: &Bytes, flow: &Flow) -> Result<Commands, Failure>
    ensures commands { Judges result (script_read (script_of bytes.now flow.now)) }
    ensures fit { IfOk result (AreOfScript flow.now) }
{
    match read_script(alloc, bytes.get(), flow) {
        Ok(commands) => Ok(commands),
        Err(ScriptErr::Bad { line, why }) => Err(Failure::BadScript { line, why }),
        Err(ScriptErr::NoMemory) => Err(Failure::NoMemory),
    }
}

/// The commands of the script in a file.
pub(crate) fn load_script<W: Outside>(
    alloc: Global,
    name: &str,
    flow: &Flow,
    outside: &mut W,
) -> Result<Commands, Failure>
    ensures course { Follows result (script_in name.now flow.now) (W.world outside.old)
        (W.world outside.new) }
    ensures fit { IfOk result (AreOfScript flow.now) }
    ensures named { IfErr result (λ failure. Names failure (λ file. file ≡ name.now)) }
    ensures only { LoadsOnly (W.world outside.old) (W.world outside.new) }
    ensures held { W.held outside.new ≡ W.held outside.old }
{
    let bytes = load(alloc, name, MOST_TEXT, outside)?;
    read(alloc, &bytes, flow)
}
