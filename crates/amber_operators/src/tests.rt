//! Operators over small batches of rows of one number: what comes of a row, what is kept, and what is left.

ghost use Rattle.std.specs.Prelude.{◌≡◌, [], false, true, IfOk, None};
ghost use Rattle.amber_link.specs.Links.{has_some};
ghost use Rattle.amber_operators.specs.Handed.{arrivals_in};
ghost use Rattle.amber_operators.specs.Kept.{MayTakeRow};

use crate::{
    Gains, NoMemory, OperatorState, Pending, Rest, UsedRows, Yielded, closing_of, extra_of,
    is_last, keys_into, leave_readied, operator_state_of, ready_next, refused_keys, set_value,
    take_next, yield_of,
};
use amber_meaning::Extra;
use amber_ops::FilterState;
use amber_rows::{Cmp, ColKind, Column, Cond, Row, Schema, Text, Value, What};
use std::alloc::Global;
use std::collections::VecDeque;
use std::test::Fail;

// One column of numbers.
fn numbers(alloc: Global) -> Result<Schema, NoMemory> {
    let mut columns = Vec::new(alloc);
    columns.push(Column {
        name: Text::new(alloc, "n")?,
        kind: ColKind::Int,
    })?;
    Ok(Schema::new(columns))
}

// A batch of one row of this number.
fn batch(alloc: Global, number: i64) -> Result<Rest, NoMemory>
    ensures batch { IfOk result (λ rest. rest.share ≡ None) }
    ensures some { IfOk result (λ rest. has_some (arrivals_in rest) ≡ true) }
{
    let mut cells = Vec::new(alloc);
    cells.push(Value::Int(number))?;
    let mut rows = VecDeque::new(alloc);
    rows.push_back(Row::new(cells))?;
    Ok(Rest {
        share: None,
        from: 0,
        rows,
    })
}

// Nothing was given yet.
fn nothing(alloc: Global) -> Gains
    ensures { result.pending ≡ [] }
{
    Gains {
        pending: Pending::new(alloc),
        refused: Vec::new(alloc),
        kept: Vec::new(alloc),
        done: UsedRows::new(alloc),
        free: UsedRows::new(alloc),
    }
}

// The condition that column 1 is greater than 2.
fn above_two() -> Cond {
    Cond {
        column: 1,
        op: Cmp::Gt,
        constant: Value::Int(2),
    }
}

// How many rows come of a row of this number.
fn passed(alloc: Global, mut state: OperatorState, number: i64) -> Result<u64, NoMemory>
    requires { MayTakeRow state false }
{
    let mut rest = batch(alloc, number)?;
    let mut gains = nothing(alloc);
    let columns = numbers(alloc)?;
    let over = is_last(&state, &rest, &[]);
    take_next(&mut rest, 2, &columns, false, over, &mut state, &mut gains)?;
    Ok(gains.pending.len())
}

#[test]
fn filter_passes_what_meets_it(rt: HostRuntime) -> Result<(), Fail> {
    let alloc = rt.alloc();
    for (number, want) in [(1, 0), (2, 0), (3, 1)] {
        let state = OperatorState::Filter(FilterState::new(above_two()));
        assert_eq!(rt; passed(alloc, state, number)?, want);
    }
    let mut state = OperatorState::Filter(FilterState::new(above_two()));
    let row = Row::new(Vec::new(alloc));
    assert!(rt; matches!(yield_of(&state, alloc, &row)?, Yielded::Nothing));
    set_value(&mut state, Value::Int(0));
    assert!(rt; state.passes_rows() && !state.makes_rows() && !state.is_group());
    Ok(())
}

#[test]
fn sink_keeps_the_row_that_is_not_left(rt: HostRuntime) -> Result<(), Fail> {
    let alloc = rt.alloc();
    let mut state = OperatorState::Sink;
    let mut rest = batch(alloc, 7)?;
    let mut gains = nothing(alloc);
    let columns = numbers(alloc)?;
    let readied = ready_next(&mut rest, &columns, false, false, &mut state, &mut gains)?;
    leave_readied(readied, &mut rest, &mut state, &mut gains);
    assert!(rt; rest.left() == 1 && gains.kept.is_empty());
    Ok(())
}

#[test]
fn new_operators_have_nothing(rt: HostRuntime) -> Result<(), Fail> {
    let alloc = rt.alloc();
    let what = What::Filter {
        input: 1,
        cond: above_two(),
    };
    let state = operator_state_of(alloc, &what)?;
    assert!(rt; matches!(extra_of(&state, &nothing(alloc)), Extra::Nothing));
    assert!(rt; keys_into(&what, 1).is_none());
    assert!(rt; closing_of(alloc, &state, true)?.is_empty());
    assert!(rt; refused_keys(alloc, &state)?.is_empty());
    Ok(())
}
