//! What a worker does that is told something between two drives, and makes no turn. Rests on `turning` and `standing`.

ghost use Rattle.std.specs.Prelude.{OnErr, OnOk, Some, ◌≡◌};
ghost use Rattle.std.specs.Option.{option_copied};
ghost use Rattle.amber_worker.specs.Acting.{Acts, paused_at};
ghost use Rattle.amber_worker.specs.Counting.{IsBoardOf};
ghost use Rattle.amber_worker.specs.Driving.{CountsTurns};
ghost use Rattle.amber_worker.specs.Turning.{MakesTurns};

use super::Worker;
use amber_board::Board;
use amber_log::Entry;
use amber_mail::Control;
use std::alloc::AllocError;

impl Worker {
    // The worker is paused, where it has not finished.
    fn stand_paused(&mut self) -> Result<(), AllocError>
        ensures ok { OnOk result (self.new ≡ paused_at self.old) }
        ensures err { OnErr result (self.new ≡ self.old) }
    {
        if self.finished || self.flags.paused {
            return Ok(());
        }
        self.journal.reserve(1)?;
        self.journal.push(Entry::Pause);
        self.flags.paused = true;
        Ok(())
    }

    /// Does what the worker is told between two drives, and makes no turn. The board is that of its operator's count, and is
    /// there exactly where one is armed. If memory runs out all is as before: what it was told is not done.
    pub fn heed(&mut self, board: Option<&Board>, control: Control) -> Result<(), AllocError>
        requires own { IsBoardOf (option_copied board) self.old.seat }
        ensures own { IsBoardOf (option_copied board.entry) self.new.seat }
        ensures acts { OnOk result (Acts (Some control) self.old self.new) }
        ensures makes { OnOk result (MakesTurns 0 self.old self.new) }
        ensures counts { OnOk result (CountsTurns 0 self.old self.new) }
        ensures err { OnErr result (self.new ≡ self.old) }
    {
        match self.dealing_told(control) {
            Some(how) => self.deal_with(board, how),
            None => self.stand_paused(),
        }
    }
}
