//! The rows of an operator that nobody has read yet. Over `Source` and `Stage`.

ghost use Rattle.std.specs.Prelude.{◌≡◌, ◌++◌, ◌∷◌, [], IfErr, IfOk};
ghost use Rattle.amber_plain.specs.Unread.{HasOne, nothing_unread, unread_at, without};
ghost use Rattle.amber_plain.specs.declared.stage.Source.TheVariants as source;

use crate::stage::{Source, Stage};
use amber_rows::Rows;
use std::alloc::{AllocError, Global};
use std::marker::Model;
use std::mem;

/// Rows that are yet to be read: their source, and the stages through which they pass, in order.
pub struct Unread {
    source: Source,
    stages: Vec<Stage>,
}

impl Drop for Unread {
    fn drop(self) {
        let Unread {
            source: _,
            stages: _,
        } = self;
    }
}

impl Model for Unread {
    ghost use Rattle.amber_plain.specs.Unread.{Waiting};

    ghost Value = { Waiting };

    ghost view = { λ a. record { source = a.source; stages = a.stages.items } };
}

impl Unread {
    /// The rows of a source.
    pub fn new(alloc: Global, source: Source) -> Self
        ensures { result ≡ record { source = source; stages = [] } }
    {
        Unread {
            source,
            stages: Vec::new(alloc),
        }
    }

    /// The source and the stages.
    pub fn into_parts(self) -> (Source, Vec<Stage>)
        ensures source { result.0 ≡ self.source }
        ensures stages { result.1.items ≡ self.stages }
    {
        let Unread { source, stages } = self;
        (source, stages)
    }

    /// The rows as they are, where they stand in a list and no stage is left; else it gives itself back.
    pub fn into_rows(self) -> Result<Rows, Self>
        ensures rows { IfOk result
            (λ rows. self ≡ record { source = source.Rows rows; stages = [] }) }
        ensures other { IfErr result (λ other. other ≡ self) }
    {
        let Unread { source, stages } = self;
        if !stages.is_empty() {
            return Err(Unread { source, stages });
        }
        match source {
            Source::Rows(rows) => Ok(rows),
            source => Err(Unread { source, stages }),
        }
    }

    /// What one stage more makes of the rows.
    pub fn through(self, stage: Stage) -> Result<Self, AllocError>
        ensures { IfOk result (λ unread. unread
            ≡ record { source = self.source; stages = self.stages ++ stage ∷ [] }) }
    {
        let Unread { source, mut stages } = self;
        stages.push(stage)?;
        Ok(Unread { source, stages })
    }
}

/// Takes what is unread for the operator with this number, for its one reader.
pub fn take(alloc: Global, waiting: &mut Vec<Unread>, op: u32) -> Unread
    requires { HasOne waiting.old.items op }
    ensures taken { result ≡ unread_at waiting.old.items op }
    ensures others { waiting.new.items ≡ without waiting.old.items op }
{
    let place = &mut waiting[op as usize - 1];
    let none = Source::Rows(Rows::new(Vec::new(alloc)));
    mem::replace(place, Unread::new(alloc, none))
}
