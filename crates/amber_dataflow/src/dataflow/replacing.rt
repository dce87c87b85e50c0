//! A worker that takes the place of another, and one that is taken out. Over `replace_with` of `amber_worker`.

ghost use Rattle.std.specs.Prelude.{None, [], ◌<◌, ◌≡◌};
ghost use Rattle.amber_rows.specs.Topology.{crew_of};
ghost use Rattle.amber_dataflow.specs.AtWork.{worker_state_at};
ghost use Rattle.amber_dataflow.specs.Dataflow.{AreAllThere, HaveDoneNothing, seat_of};
ghost use Rattle.amber_dataflow.specs.Replacing.{MayReplace, StandReplaced, worker_replaced};

use super::Dataflow;
use amber_worker::Worker;

impl Dataflow {
    /// A worker becomes another one, which shows the same position over links of its own. Only the ends of its links
    /// stay. Neither has done anything since the journals were handed out.
    pub fn replace(&mut self, worker: u32, made: Worker)
        requires workers { AreAllThere self.old }
        requires there { worker < crew_of self.old.flow }
        requires rest { HaveDoneNothing self.old }
        requires unarmed { seat_of self.old worker ≡ None }
        requires made_rest { made.journal ≡ [] }
        requires made_unarmed { made.seat ≡ None }
        requires may { MayReplace self.old worker made }
        ensures only { self.new ≡ worker_replaced worker made self.old }
        ensures stand { StandReplaced worker made self.old self.new }
    {
        self.workers[worker as usize].replace_with(made);
    }

    /// Takes a worker out. The others are let go.
    pub fn into_worker(self, worker: u32) -> Worker
        requires workers { AreAllThere self }
        requires there { worker < crew_of self.flow }
        ensures { result ≡ worker_state_at self.workers worker }
    {
        let Dataflow { flow: _, workers } = self;
        let mut workers = workers;
        workers.swap_remove(worker as usize)
    }
}
