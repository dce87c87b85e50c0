//! What commands have put in force at each operator. A command changes what it names and nothing else. Over
//! `Armed` of `armed`, one for each operator.

ghost use Rattle.std.specs.Prelude.{◌≡◌, ◌<◌, ◌≤◌, IfOk, None, if◌then◌else◌, is_some, length, map, option_map};
ghost use Rattle.std.specs.List.{list_any};
ghost use Rattle.amber_rows.specs.Lists.{changed_at, nth};
ghost use Rattle.amber_meaning.specs.State.{put};
ghost use Rattle.amber_home.specs.Leg.{counts_asked};
ghost use Rattle.amber_home.specs.Asked.{asked_at, asked_changed, asked_left, first_asked, without_asked};

use crate::armed::Armed;
use amber_boards::Target;
use amber_log::Arming;
use amber_rows::{Cond, Flow, Value};
use std::alloc::{AllocError, Global};
use std::marker::Model;

/// What is in force at each operator of a workflow. Operators are numbered from 1.
#[derive(Drop)]
pub struct InForce {
    arms: Vec<Armed>,
}

impl Model for InForce {
    ghost use Rattle.std.specs.Prelude.{List};
    ghost use Rattle.amber_home.specs.Asked.{Asked};

    ghost Value = { List Asked };

    ghost view = { λ a. a.arms.items };
}

impl InForce {
    /// What is in force before any command: nothing is armed, and filters have their own constants.
    pub fn new(alloc: Global, flow: &Flow) -> Result<InForce, AllocError>
        ensures { IfOk result (λ arms. arms ≡ first_asked flow.now) }
    {
        let operators = flow.get();
        let mut arms = Vec::with_capacity(alloc, operators.len())?;
        for operator in operators {
            arms.push(Armed::new(&operator.what)?)?;
        }
        Ok(InForce { arms })
    }

    /// What is in force at an operator, if there is such a one.
    pub fn at(&self, op: u32) -> Option<&Armed>
        ensures { option_map (λ arms. arms.now) result ≡ nth self.now op }
    {
        if op == 0 {
            return None;
        }
        self.arms.get(op as usize - 1)
    }

    /// The rows after which an operator pauses, if a pause is armed there.
    pub fn pause_at(&self, op: u32) -> Option<u64>
        ensures { result ≡ (asked_at self.now op).pause }
    {
        match self.at(op) {
            Some(arms) => arms.pause(),
            None => None,
        }
    }

    /// Whether a pause is armed at any operator.
    pub fn has_pause(&self) -> bool
        ensures { result ≡ list_any (λ asked. is_some asked.pause) self.now }
    {
        self.arms.iter().any(|armed| armed.pause().is_some())
    }

    /// Whether a count is armed at any operator.
    pub fn has_count(&self) -> bool
        ensures { result ≡ list_any (λ asked. is_some asked.count) self.now }
    {
        self.arms.iter().any(|armed| armed.count().is_some())
    }

    /// Whether a condition to stop at is armed at any operator.
    pub fn has_condition(&self) -> bool
        ensures { result ≡ list_any (λ asked. is_some asked.when) self.now }
    {
        self.arms.iter().any(|armed| armed.has_condition())
    }

    /// An operator's count, if one is armed there.
    pub fn count_at(&self, op: u32) -> Option<Target>
        ensures { result ≡ (asked_at self.now op).count }
    {
        match self.at(op) {
            Some(arms) => arms.count(),
            None => None,
        }
    }

    /// The counts, by operator.
    pub fn counts(&self, alloc: Global) -> Result<Vec<Option<Target>>, AllocError>
        ensures { IfOk result (λ counts. counts.items ≡ counts_asked self.now) }
    {
        let arms = self.arms.as_slice();
        let mut counts = Vec::with_capacity(alloc, arms.len())?;
        for armed in arms {
            counts.push(armed.count())?;
        }
        Ok(counts)
    }

    /// Does what a command asks for at an operator, which has emitted so many rows. The condition and the
    /// constant are copies of the command's.
    pub fn change(
        &mut self,
        op: u32,
        arming: &Arming<'_>,
        emitted: u64,
        when: Option<Cond>,
        constant: Option<Value>,
    )
        requires some { 0 < op }
        requires there { op ≤ length self.old }
        requires when { when ≡ put arming.now.when None }
        requires constant { constant ≡ arming.now.constant }
        ensures { self.new ≡ changed_at (asked_changed arming.now emitted) op self.old }
    {
        self.arms[op as usize - 1].change(arming, emitted, when, constant);
    }

    /// Takes away an operator's pause and its count where they stand, after so many rows.
    pub fn end_stops(&mut self, op: u32, rows: u64)
        requires some { 0 < op }
        requires there { op ≤ length self.old }
        ensures { self.new ≡ changed_at (asked_left rows) op self.old }
    {
        self.arms[op as usize - 1].end_stops(rows);
    }

    /// A leg begins. To the end all is taken back that was asked to stop anywhere.
    pub fn begin_leg(&mut self, to_end: bool)
        ensures { self.new ≡ (if to_end then map without_asked self.old else self.old) }
    {
        if !to_end {
            return;
        }
        for arms in self.arms.iter_mut() {
            arms.clear();
        }
    }
}
