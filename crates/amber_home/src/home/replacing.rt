//! A worker of a home at rest that takes the place of another, and one that is taken out of its home. Over `replace` and
//! `into_worker` of `amber_dataflow`.

ghost use Rattle.std.specs.Prelude.{IfSome, None, [], slice_set, true, ◌<◌, ◌≡◌};
ghost use Rattle.amber_dataflow.specs.Replacing.{StandsFor};
ghost use Rattle.amber_log.specs.Fits.{fits_of};
ghost use Rattle.amber_meaning.specs.State.{position_at};
ghost use Rattle.amber_rows.specs.Topology.{crew_of};
ghost use Rattle.amber_home.specs.HomeState.{lost_by, query_of, rest_state};

use super::Home;
use crate::applying::worker_to_lose;
use crate::phase::Phase;
use amber_log::{Action, Command};
use amber_worker::Worker;

impl Home {
    /// The number among all workers of the one that a command loses, if it loses one.
    pub fn worker_to_lose(&self, command: &Command) -> Option<u32>
        requires resting { self.now.phase ≡ Phase.Resting }
        requires fits { fits_of self.now.flow command.now ≡ true }
        ensures is { result ≡ lost_by self.now command.now }
        ensures there { IfSome result (λ worker. worker < crew_of self.now.flow) }
    {
        match command.action() {
            Action::Leg { to_end: _ } => None,
            Action::AtRest(effect) => worker_to_lose(&effect, &self.dataflow),
        }
    }

    /// A worker becomes another one, which shows the same position over links of its own, and has done nothing since. Only
    /// the ends of its links stay, so the home stands for the same log.
    pub fn replace(&mut self, worker: u32, made: Worker)
        requires resting { self.old.phase ≡ Phase.Resting }
        requires there { worker < crew_of self.old.flow }
        requires made_rest { made.journal ≡ [] }
        requires made_unarmed { made.seat ≡ None }
        requires stands { StandsFor (query_of self.old) (rest_state self.old)
            (position_at (rest_state self.old).positions) worker made }
        ensures { self.new ≡ record self.old {
          turned = slice_set self.old.turned worker made.turned;
        } }
    {
        self.dataflow.replace(worker, made);
    }

    /// Takes a worker out of a home at rest. The others are let go, and so is all else. In another home that rests behind the
    /// same log it may take the place of the worker with its number, as `replace` says.
    pub fn into_worker(self, worker: u32) -> Worker
        requires resting { self.phase ≡ Phase.Resting }
        requires there { worker < crew_of self.flow }
        ensures rest { result.journal ≡ [] }
        ensures unarmed { result.seat ≡ None }
        ensures stands { StandsFor (query_of self) (rest_state self)
            (position_at (rest_state self).positions) worker result }
    {
        let Home { dataflow, .. } = self;
        dataflow.into_worker(worker)
    }
}
