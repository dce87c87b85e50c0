//! Counts the workers and the readers of operators. Over `Operator` of `amber_rows`.

ghost use Rattle.std.specs.Prelude.{◌≡◌, ◌==◌, ◌<◌, ◌≤◌, ℕ, length, sum_by, count_by, IfNone};
ghost use Rattle.amber_rows.specs.FlowRules.{reader_count};
ghost use Rattle.amber_rows.specs.Kinds.{inputs_of};
ghost use Rattle.amber_flow.specs.Workflow.{first_unread, workers_in_all};

use amber_rows::{Operator, What};

/// The workers of all operators.
pub fn count_workers(operators: &[Operator]) -> u64
    requires { length operators.now ≤ 32 }
    ensures { result ≡ workers_in_all operators.now }
{
    let mut count: u64 = 0;
    for operator in operators {
        count += u64::from(operator.workers);
    }
    count
}

/// How often an operator names another as an input.
fn count_reads(what: &What, op: u32) -> u32
    ensures reads { result ≡ count_by (λ input. input == op) (inputs_of what.now) }
    ensures few { result ≤ 2 }
{
    match what {
        What::Scan { .. } => 0,
        What::Filter { input, .. } => u32::from(*input == op),
        What::Project { input, .. } => u32::from(*input == op),
        What::Join { build, probe, .. } => u32::from(*build == op) + u32::from(*probe == op),
        What::Group { input, .. } => u32::from(*input == op),
        What::Sink { input } => u32::from(*input == op),
    }
}

/// How often an operator is named as an input.
#[tactic(auto, unfolding(amber_rows::specs::FlowRules::reader_count))]
fn count_readers(operators: &[Operator], op: u32) -> u32
    requires { length operators.now ≤ 32 }
    ensures { result ≡ reader_count operators.now op }
{
    let mut count = 0;
    for operator in operators {
        count += count_reads(&operator.what, op);
    }
    count
}

/// The first operator before the last that is not read exactly once.
#[tactic(auto, unfolding(crate::specs::Workflow::first_unread))]
pub fn find_unread(operators: &[Operator]) -> Option<u32>
    requires some { 0 < length operators.now }
    requires few { length operators.now ≤ 32 }
    ensures unread { result ≡ first_unread operators.now }
    ensures read_once { IfNone result ((op : ℕ) → 0 < op → op < length operators.now
        → reader_count operators.now op ≡ 1) }
{
    for op in 1..operators.len() as u32 {
        let readers = count_readers(operators, op);
        if readers != 1 {
            return Some(op);
        }
    }
    None
}
