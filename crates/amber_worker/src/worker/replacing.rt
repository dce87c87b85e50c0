//! A worker becomes another one that stands where it stands, and keeps the ends of its links. Rests on the fields of
//! `worker`.

ghost use Rattle.std.specs.Prelude.{None, ◌≡◌};
ghost use Rattle.amber_worker.specs.AtPosition.{HasSameEnds};
ghost use Rattle.amber_worker.specs.Replacing.{ShowsReplaced, StandAlike, StandsReplaced, with_links_of};

use super::Worker;

impl Worker {
    /// Becomes another worker, which shows the same position over links of its own. Only the ends of its links stay, and
    /// to whom its rows go.
    pub fn replace_with(&mut self, made: Worker)
        requires unarmed { self.old.seat ≡ None }
        requires made_unarmed { made.seat ≡ None }
        requires alike { StandAlike self.old made }
        ensures only { self.new ≡ with_links_of self.old made }
        ensures shows { ShowsReplaced self.old made self.new }
        ensures stands { StandsReplaced self.old made self.new }
        ensures ends { HasSameEnds self.old self.new }
    {
        let Worker {
            alloc: _,
            op,
            number,
            operator_state,
            columns,
            build_columns,
            building,
            rest,
            taken,
            emitted,
            batches,
            gains,
            when,
            seat,
            flags,
            finished,
            ins: _,
            outs: _,
            route: _,
            journal,
            turned,
        } = made;
        self.op = op;
        self.number = number;
        self.operator_state = operator_state;
        self.columns = columns;
        self.build_columns = build_columns;
        self.building = building;
        self.rest = rest;
        self.taken = taken;
        self.emitted = emitted;
        self.batches = batches;
        self.gains = gains;
        self.when = when;
        self.seat = seat;
        self.flags = flags;
        self.finished = finished;
        self.journal = journal;
        self.turned = turned;
    }
}
