//! The earlier operators from which an operator reads. Over `Operator` of `amber_rows`.

ghost use Rattle.std.specs.Prelude.{◌≡◌, ◌<◌, ◌≤◌, All, IfOk, IfSome, Some, length, ok_or};
ghost use Rattle.amber_rows.specs.Columns.{HasInput};
ghost use Rattle.amber_flow.specs.Inputs.{IsNarrow, operator_columns, operator_number};
ghost use Rattle.amber_flow.specs.declared.error.FlowWhy.TheVariants.{Forward};

use crate::error::FlowWhy;
use amber_rows::{Operator, Schema};

/// The number of the earlier operator with this id, from 1.
pub fn find_operator(before: &[Operator], id: &str) -> Option<u32>
    requires { length before.now < 32 }
    ensures number { result ≡ operator_number before.now id.now }
    ensures there { IfSome result (λ number. (0 < number) × (number ≤ length before.now)) }
{
    match before.iter().position(|operator| operator.id.get() == id) {
        None => None,
        Some(index) => Some(index as u32 + 1),
    }
}

/// The number of the input that has this id.
pub fn find_input(before: &[Operator], id: &str) -> Result<u32, FlowWhy>
    requires { length before.now < 32 }
    ensures number { result ≡ ok_or (operator_number before.now id.now) Forward }
    ensures there { IfOk result (λ number. (0 < number) × (number ≤ length before.now)) }
{
    find_operator(before, id).ok_or(FlowWhy::Forward)
}

/// The columns of an earlier operator.
pub fn schema_at(before: &[Operator], number: u32) -> &Schema
    requires from_one { 0 < number }
    requires there { number ≤ length before.now }
    requires narrow { All IsNarrow before.now }
    ensures columns { operator_columns before.now number ≡ Some result.now }
    ensures input { HasInput before.now number result.now }
    ensures few { length result.now ≤ 64 }
{
    &before[number as usize - 1].schema
}
