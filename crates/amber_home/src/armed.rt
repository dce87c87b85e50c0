//! What is in force at one operator. Over `Target`, and `Change` of `amber_log`, which says what a command
//! asks for.

ghost use Rattle.std.specs.Prelude.{◌≡◌, IfOk, None, is_some, option_map, option_to_list};
ghost use Rattle.amber_meaning.specs.State.{first_constants, put};
ghost use Rattle.amber_home.specs.Asked.{asked_changed, asked_left, is_reached, no_asked, stands_after, without_asked};

use amber_boards::Target;
use amber_log::{Arming, Change};
use amber_rows::{Cond, Value, What};
use std::alloc::AllocError;
use std::marker::Model;

/// What is in force at one operator: its pause in rows, its count, its condition, and a filter's constant.
#[derive(Drop)]
pub struct Armed {
    pause: Option<u64>,
    count: Option<Target>,
    when: Option<Cond>,
    constant: Option<Value>,
}

impl Model for Armed {
    ghost use Rattle.std.specs.Prelude.{option_to_list};
    ghost use Rattle.amber_home.specs.Asked.{Asked};

    ghost Value = { Asked };

    ghost view = { λ a. record {
      pause = a.pause;
      count = a.count;
      when = a.when;
      constants = option_to_list a.constant;
    } };
}

impl Armed {
    /// What is in force at an operator of this kind before any command: nothing but a filter's own constant.
    pub fn new(what: &What) -> Result<Armed, AllocError>
        ensures { IfOk result
            (λ armed. armed ≡ record no_asked { constants = first_constants what.now }) }
    {
        let constant = match what.settable_cond() {
            Some(cond) => Some(cond.constant.clone()?),
            None => None,
        };
        Ok(Armed {
            pause: None,
            count: None,
            when: None,
            constant,
        })
    }

    /// The rows after which the operator pauses, where a pause is armed.
    pub fn pause(&self) -> Option<u64>
        ensures { result ≡ self.now.pause }
    {
        self.pause
    }

    /// The operator's count, where one is armed.
    pub fn count(&self) -> Option<Target>
        ensures { result ≡ self.now.count }
    {
        self.count
    }

    /// The condition to stop at, where one is armed.
    pub fn when(&self) -> Option<&Cond>
        ensures { option_map (λ cond. cond.now) result ≡ self.now.when }
    {
        self.when.as_ref()
    }

    /// Whether a condition to stop at is armed.
    pub fn has_condition(&self) -> bool
        ensures { result ≡ is_some self.now.when }
    {
        self.when.is_some()
    }

    /// The filter's constant, if the operator is one.
    pub fn constant(&self) -> Option<&Value>
        ensures { option_to_list (option_map (λ value. value.now) result) ≡ self.now.constants }
    {
        self.constant.as_ref()
    }

    /// Whether the pause stands, where the operator has emitted so many rows.
    pub fn is_paused(&self, rows: u64) -> bool
        ensures { result ≡ stands_after self.now.pause rows }
    {
        match self.pause {
            None => false,
            Some(n) => n <= rows,
        }
    }

    /// Whether the count stands, where the operator has emitted so many rows.
    pub fn is_counted(&self, rows: u64) -> bool
        ensures { result ≡ is_reached self.now.count rows }
    {
        match self.count {
            None => false,
            Some(count) => count.is_reached(rows),
        }
    }

    /// Does what a command asks for at the operator, which has emitted so many rows. The condition and the
    /// constant are copies of the command's.
    pub fn change(
        &mut self,
        arming: &Arming<'_>,
        emitted: u64,
        when: Option<Cond>,
        constant: Option<Value>,
    )
        requires when { when ≡ put arming.now.when None }
        requires constant { constant ≡ arming.now.constant }
        ensures { self.new ≡ asked_changed arming.now emitted self.old }
    {
        match arming.pause {
            Change::Keep => {}
            Change::TakeBack => self.pause = None,
            Change::Put(rows) => self.pause = Some(rows),
        }
        match arming.count {
            Change::Keep => {}
            Change::TakeBack => self.count = None,
            Change::Put(target) => {
                self.count = Some(Target {
                    target,
                    since: emitted,
                });
            }
        }
        match arming.when {
            Change::Keep => {}
            Change::TakeBack => self.when = None,
            Change::Put(_) => self.when = when,
        }
        if let Some(value) = constant {
            self.constant = Some(value);
        }
    }

    /// Takes away the pause and the count where they stand, after so many rows.
    pub fn end_stops(&mut self, rows: u64)
        ensures { self.new ≡ asked_left rows self.old }
    {
        if self.is_paused(rows) {
            self.pause = None;
        }
        if self.is_counted(rows) {
            self.count = None;
        }
    }

    /// Takes back all that was asked to stop at the operator.
    pub fn clear(&mut self)
        ensures { self.new ≡ without_asked self.old }
    {
        self.pause = None;
        self.count = None;
        self.when = None;
    }
}
