//! Reads what an operator does and the columns that it gives. Rests on the reader of each kind.

ghost use Rattle.std.specs.Prelude.{◌≡◌, ◌<◌, All, IfOk, length, true};
ghost use Rattle.serde_json.specs.View.{view};
ghost use Rattle.amber_rows.specs.Columns.{AreColumns};
ghost use Rattle.amber_rows.specs.Kinds.{is_sink, IsKind};
ghost use Rattle.amber_flow.specs.Inputs.{IsNarrow};
ghost use Rattle.amber_flow.specs.Operators.{check_columns, parts_of};
ghost use Rattle.amber_flow.specs.Names.{is_sink_kind};
ghost use Rattle.amber_flow.specs.PartAnswers.{AnswersPart};

use crate::columns::are_all_apart;
use crate::error::{FlowWhy, ReadErr};
use crate::filter::read_filter;
use crate::group::read_group;
use crate::join::read_join;
use crate::names::Kind;
use crate::project::read_project;
use crate::scan::read_scan;
use crate::sink::read_sink;
use amber_rows::{Operator, Schema, What};
use serde_json::Value;
use std::alloc::Global;

/// What an operator does, and the columns that it gives.
#[derive(Drop)]
pub struct Parts {
    pub what: What,
    pub schema: Schema,
}

/// What an operator of this kind does.
pub fn read_parts(
    alloc: Global,
    kind: Kind,
    before: &[Operator],
    tree: &Value,
) -> Result<Parts, ReadErr>
    requires few { length before.now < 32 }
    requires narrow { All IsNarrow before.now }
    ensures parts { AnswersPart result (parts_of kind before.now (view tree.now)) }
    ensures kind { IfOk result (λ parts. IsKind before.now parts.what parts.schema) }
    ensures sink { IfOk result (λ parts. is_sink parts.what ≡ is_sink_kind kind) }
{
    match kind {
        Kind::Scan => read_scan(alloc, tree),
        Kind::Filter => read_filter(alloc, before, tree),
        Kind::Project => read_project(alloc, before, tree),
        Kind::Join => read_join(alloc, before, tree),
        Kind::Group => read_group(alloc, before, tree),
        Kind::Sink => read_sink(alloc, before, tree),
    }
}

/// Whether an operator gives 1 to 64 columns, none of a name twice.
#[tactic(auto, unfolding(crate::specs::Operators::check_columns))]
pub fn check_schema(schema: &Schema) -> Result<(), FlowWhy>
    ensures checked { result ≡ check_columns schema.now }
    ensures columns { IfOk result (λ _. AreColumns schema.now) }
{
    let columns = schema.get();
    if columns.is_empty() || 64 < columns.len() {
        return Err(FlowWhy::Wide);
    }
    if !are_all_apart(columns) {
        return Err(FlowWhy::Duplicate);
    }
    Ok(())
}
