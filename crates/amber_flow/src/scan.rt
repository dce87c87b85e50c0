//! Reads a scan. Rests on `columns`.

ghost use Rattle.std.specs.Prelude.{◌≡◌, IfOk, List, false};
ghost use Rattle.serde_json.specs.View.{view};
ghost use Rattle.amber_rows.specs.declared.flow.Operator.{Operator as OneOperator};
ghost use Rattle.amber_rows.specs.Kinds.{is_sink, IsKind};
ghost use Rattle.amber_flow.specs.Operators.{scan_of};
ghost use Rattle.amber_flow.specs.PartAnswers.{AnswersPart};

use crate::columns::read_columns;
use crate::error::{FlowWhy, ReadErr};
use crate::fields::{list_field, text_field};
use crate::parts::Parts;
use amber_rows::{Text, What};
use serde_json::Value;
use std::alloc::Global;

/// What a scan does.
#[tactic(auto, unfolding(crate::specs::Operators::scan_of))]
pub fn read_scan(alloc: Global, tree: &Value) -> Result<Parts, ReadErr>
    ensures parts { AnswersPart result (scan_of (view tree.now)) }
    ensures kind { IfOk result (λ parts. (before : List OneOperator)
        → IsKind before parts.what parts.schema) }
    ensures sink { IfOk result (λ parts. is_sink parts.what ≡ false) }
{
    let file = text_field(tree, "file")?;
    let pairs = list_field(tree, "columns")?;
    let schema = read_columns(alloc, pairs)?;
    if file.is_empty() || 255 < file.len() {
        return Err(ReadErr::Bad(FlowWhy::Shape));
    }
    let file = Text::new(alloc, file)?;
    Ok(Parts {
        what: What::Scan { file },
        schema,
    })
}
