//! One line of a session is answered. Rests on `read_line` and on `Recorder`.

ghost use Rattle.std.specs.Prelude.{◌≡◌, IfOk};
ghost use Rattle.std.specs.Str.Lines.{strip_carriage_return};
ghost use Rattle.amber_io.specs.Folder.{IsThere};
ghost use Rattle.amber_meaning.specs.Legal.{IsLegal};
ghost use Rattle.amber_debug.specs.Session.{query_in};
ghost use Rattle.amber_recorder.specs.Writing.{Counted};
ghost use Rattle.amber_session.specs.Answers.{AnswersLine, IsSound};

use crate::refusal::refusal_text;
use amber_course::Failure;
use amber_debug::Debugger;
use amber_io::Outside;
use amber_mail::Gate;
use amber_recorder::Recorder;
use amber_script::{ScriptLine, read_line};
use std::alloc::Global;
use std::thread::Threads;

/// Answers the line of this number, from 1: a command is done, and a line that is refused is told so.
pub(crate) fn answer_line<R: Threads + Sync, G: Gate + Sync, W: Outside>(
    alloc: Global,
    recorder: &mut Recorder<'_, R, G, W>,
    debugger: &mut Debugger,
    line: &[u8],
    number: u64,
) -> Result<(), Failure>
    requires sound { IsSound debugger.old }
    requires there { IsThere (W.world recorder.old.outside.now).files
        recorder.old.log_name.now }
    ensures answers { AnswersLine result (record {
      name = recorder.old.log_name.now;
      number = number;
      old = debugger.old;
      new = debugger.new;
      before = W.world recorder.old.outside.now;
      after = W.world recorder.new.outside.now;
    }) (strip_carriage_return line.now) }
    ensures sound { IfOk result (λ done. IsSound debugger.new) }
    ensures legal { IsLegal (query_in debugger.new) debugger.new.log }
    ensures there { IfOk result (λ done.
        IsThere (W.world recorder.new.outside.now).files recorder.old.log_name.now) }
    ensures counted { Counted result (W.world recorder.old.outside.now)
        (W.world recorder.new.outside.now) }
    ensures held { W.held recorder.new.outside.now ≡ W.held recorder.old.outside.now }
    ensures same_outside { recorder.new.outside.ghost_name ≡ recorder.old.outside.ghost_name }
    ensures same_log { recorder.new.log_name.now ≡ recorder.old.log_name.now }
{
    match read_line(alloc, line, debugger.flow())? {
        ScriptLine::Skipped => Ok(()),
        ScriptLine::Command(command) => {
            recorder.do_command(debugger, &command)?;
            Ok(())
        }
        ScriptLine::Bad(why) => {
            let text = refusal_text(alloc, number, why)?;
            recorder.answer(text.as_slice())
        }
    }
}
