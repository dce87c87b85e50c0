//! The bytes that were fed to a session are read, and each line is answered that a line feed ends.
//! Rests on `answer_line` and on `Input`.

ghost use Rattle.std.specs.Prelude.{◌≡◌, ◌<◌, ◌+◌, length, IfOk};
ghost use Rattle.amber_io.specs.Folder.{IsThere};
ghost use Rattle.amber_meaning.specs.Legal.{IsLegal};
ghost use Rattle.amber_debug.specs.Session.{query_in};
ghost use Rattle.amber_recorder.specs.Writing.{Counted};
ghost use Rattle.amber_session.specs.Answers.{IsSound};
ghost use Rattle.amber_session.specs.Dialogue.{IsReadTo, ReadsLines};

use crate::answering::answer_line;
use crate::input::Input;
use amber_course::Failure;
use amber_debug::Debugger;
use amber_io::Outside;
use amber_mail::Gate;
use amber_recorder::Recorder;
use std::alloc::Global;
use std::thread::Threads;

// Reads the byte at a place: a line feed ends a line, which is answered.
fn read_byte<R: Threads + Sync, G: Gate + Sync, W: Outside>(
    alloc: Global,
    recorder: &mut Recorder<'_, R, G, W>,
    debugger: &mut Debugger,
    input: &mut Input,
    place: usize,
) -> Result<(), Failure>
    requires inside { place < length input.old.bytes.items }
    requires read { IsReadTo input.old place }
    requires sound { IsSound debugger.old }
    requires there { IsThere (W.world recorder.old.outside.now).files
        recorder.old.log_name.now }
    ensures reads { ReadsLines result (record {
      name = recorder.old.log_name.now;
      number = input.old.lines + 1;
      old = debugger.old;
      new = debugger.new;
      before = W.world recorder.old.outside.now;
      after = W.world recorder.new.outside.now;
    }) (record { text = input.old.bytes.items; from = place; to = place + 1 }) }
    ensures bytes { input.new.bytes ≡ input.old.bytes }
    ensures read { IfOk result (λ done. IsReadTo input.new (place + 1)) }
    ensures sound { IfOk result (λ done. IsSound debugger.new) }
    ensures legal { IsLegal (query_in debugger.new) debugger.new.log }
    ensures there { IfOk result (λ done.
        IsThere (W.world recorder.new.outside.now).files recorder.old.log_name.now) }
    ensures counted { Counted result (W.world recorder.old.outside.now)
        (W.world recorder.new.outside.now) }
    ensures held { W.held recorder.new.outside.now ≡ W.held recorder.old.outside.now }
    ensures same_outside { recorder.new.outside.ghost_name ≡ recorder.old.outside.ghost_name }
    ensures same_log { recorder.new.log_name.now ≡ recorder.old.log_name.now }
{
    if input.bytes[place] != b'\n' {
        return Ok(());
    }
    let line = &input.bytes[input.begun..place];
    answer_line(alloc, recorder, debugger, line, input.lines + 1)?;
    input.begun = place + 1;
    input.lines += 1;
    Ok(())
}

/// Reads the bytes from a place on, and answers each line that a line feed ends.
pub(crate) fn read_bytes<R: Threads + Sync, G: Gate + Sync, W: Outside>(
    alloc: Global,
    recorder: &mut Recorder<'_, R, G, W>,
    debugger: &mut Debugger,
    input: &mut Input,
    from: usize,
) -> Result<(), Failure>
    requires read { IsReadTo input.old from }
    requires sound { IsSound debugger.old }
    requires there { IsThere (W.world recorder.old.outside.now).files
        recorder.old.log_name.now }
    ensures reads { ReadsLines result (record {
      name = recorder.old.log_name.now;
      number = input.old.lines + 1;
      old = debugger.old;
      new = debugger.new;
      before = W.world recorder.old.outside.now;
      after = W.world recorder.new.outside.now;
    }) (record { text = input.old.bytes.items; from = from; to = length input.old.bytes.items }) }
    ensures bytes { input.new.bytes ≡ input.old.bytes }
    ensures read { IfOk result (λ done. IsReadTo input.new (length input.old.bytes.items)) }
    ensures sound { IfOk result (λ done. IsSound debugger.new) }
    ensures legal { IsLegal (query_in debugger.new) debugger.new.log }
    ensures there { IfOk result (λ done.
        IsThere (W.world recorder.new.outside.now).files recorder.old.log_name.now) }
    ensures counted { Counted result (W.world recorder.old.outside.now)
        (W.world recorder.new.outside.now) }
    ensures held { W.held recorder.new.outside.now ≡ W.held recorder.old.outside.now }
    ensures same_outside { recorder.new.outside.ghost_name ≡ recorder.old.outside.ghost_name }
    ensures same_log { recorder.new.log_name.now ≡ recorder.old.log_name.now }
{
    for place in from..input.bytes.len() {
        read_byte(alloc, recorder, debugger, input, place)?;
    }
    Ok(())
}
