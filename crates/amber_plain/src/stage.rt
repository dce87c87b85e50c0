//! Where the rows of an operator come from, and through what they pass. Over `OperatorState` of `amber_operators`.

ghost use Rattle.std.specs.Prelude.{◌≡◌, IfOk, OnOk, [], false, true};
ghost use Rattle.amber_operators.specs.States.{row_yield};
ghost use Rattle.amber_operators.specs.Yielding.{rows_given};
ghost use Rattle.amber_operators.specs.declared.operator_state.OperatorState.TheVariants as operator_state;

use amber_join::JoinState;
use amber_operators::{OperatorState, Yielded, yield_of};
use amber_ops::{FilterState, ProjectState};
use amber_rows::{Cols, Cond, Row, Rows};
use std::alloc::{AllocError, Global};
use std::marker::Model;

/// Where rows come from.
#[derive(Drop)]
pub enum Source {
    /// A list of rows.
    Rows(Rows),
    /// The file of the scan with this number.
    Scan(u32),
}

/// An operator through which a row passes on its way from its source, with all that it keeps: a filter, a projection, or a
/// join that has all build rows. It is seen as the state of the operator.
pub struct Stage {
    state: OperatorState,
}

impl Drop for Stage {
    fn drop(self) {
        let Stage { state: _ } = self;
    }
}

impl Model for Stage {
    ghost use Rattle.std.specs.Prelude.{false};
    ghost use Rattle.amber_operators.specs.Kept.{IsSealedSo};
    ghost use Rattle.amber_operators.specs.declared.operator_state.OperatorState.{OperatorState as OneState};

    ghost Value = { OneState };

    ghost view = { λ a. a.state };

    ghost invariant = { λ a. IsSealedSo a.state false };
}

impl Stage {
    /// A filter by this condition: the row, where the condition holds of it.
    pub fn filter(cond: &Cond) -> Result<Self, AllocError>
        ensures { IfOk result (λ made. made ≡ operator_state.Filter cond.now) }
    {
        let state = OperatorState::Filter(FilterState::new(cond.clone()?));
        Ok(Stage { state })
    }

    /// A projection to these columns: a row of their cells.
    pub fn project(alloc: Global, from: &Cols) -> Result<Self, AllocError>
        ensures { IfOk result (λ made. made ≡ operator_state.Project from.now) }
    {
        let state = OperatorState::Project(ProjectState::new(alloc, from.clone()?));
        Ok(Stage { state })
    }

    /// A join of these build rows, by a table of their keys: the row before each build row whose keys equal its own, in the
    /// order of the build rows.
    pub fn join(
        alloc: Global,
        build_keys: &Cols,
        probe_keys: &Cols,
        build: Vec<Row>,
    ) -> Result<Self, AllocError>
        ensures { IfOk result (λ made. made ≡ operator_state.Join (record {
          build_keys = build_keys.now;
          probe_keys = probe_keys.now;
          rows = build.items;
          sealed = true;
        })) }
    {
        let build_columns = build_keys.clone()?;
        let probe_columns = probe_keys.clone()?;
        let mut state = JoinState::new(alloc, build_columns, probe_columns);
        add_all(&mut state, build)?;
        state.seal();
        let state = OperatorState::Join(state);
        Ok(Stage { state })
    }

    /// The rows that it makes of a row.
    #[inline(always)]
    pub fn give(&self, alloc: Global, row: &Row) -> Result<Yielded, AllocError>
        ensures { IfOk result (λ yielded. rows_given yielded row.now
            ≡ row_yield self.now false row.now) }
    {
        yield_of(&self.state, alloc, row)
    }
}

// Keeps all build rows.
fn add_all(state: &mut JoinState, build: Vec<Row>) -> Result<(), AllocError>
    requires open { state.old.sealed ≡ false }
    requires empty { state.old.rows ≡ [] }
    ensures { OnOk result (state.new ≡ record state.old { rows = build.items }) }
{
    for row in build {
        if state.build(row).is_err() {
            return Err(AllocError);
        }
    }
    Ok(())
}
