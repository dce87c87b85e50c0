//! The answer of workers that have all finished. Over `Worker::given` of `amber_worker`, and `compare` of
//! `amber_rows`.

ghost use Rattle.std.specs.Prelude.{◌≡◌, IfOk, length};
ghost use Rattle.amber_rows.specs.Columns.{columns_at};
ghost use Rattle.amber_dataflow.specs.Answers as answers;
ghost use Rattle.amber_dataflow.specs.Answers.{HaveGiven, IsGathered, refusal_cmp, sort_refusals};

use amber_meaning::{Answer, Refusal, Refusals};
use amber_rows::{Flow, Rows, Schema, compare};
use amber_worker::{Given, Worker};
use std::alloc::{AllocError, Global};
use std::cmp::Ordering;

// The operator that has refused.
fn refuser(refused: &Refusal) -> u32
    ensures { result ≡ answers.refuser refused.now }
{
    match refused {
        Refusal::Record { op, .. } | Refusal::Group { op, .. } => *op,
    }
}

// How two refusals of one operator stand: records by their numbers, before keys in the order of
// rows.
fn compare_refused(a: &Refusal, b: &Refusal) -> Ordering
    ensures { result ≡ answers.refused_cmp a.now b.now }
{
    match a {
        Refusal::Record { number, .. } => match b {
            Refusal::Record { number: other, .. } => number.cmp(other),
            Refusal::Group { .. } => Ordering::Less,
        },
        Refusal::Group { key, .. } => match b {
            Refusal::Record { .. } => Ordering::Greater,
            Refusal::Group { key: other, .. } => compare(key, other),
        },
    }
}

// How two refusals stand: operator by operator.
fn compare_refusals(a: &Refusal, b: &Refusal) -> Ordering
    ensures { result ≡ refusal_cmp a.now b.now }
{
    match refuser(a).cmp(&refuser(b)) {
        Ordering::Less => Ordering::Less,
        Ordering::Equal => compare_refused(a, b),
        Ordering::Greater => Ordering::Greater,
    }
}

// What each of these workers has refused, one after the other, and the rows of the last.
fn collect(alloc: Global, crew: Vec<Worker>) -> Result<Given, AllocError>
    ensures { IfOk result (λ given. HaveGiven crew.items given.refused given.rows) }
{
    let mut refused = Vec::new(alloc);
    let mut rows = Rows::new(Vec::new(alloc));
    for worker in crew {
        let given = worker.into_given()?;
        rows = given.rows;
        refused.append(&mut given.refused.into_vec())?;
    }
    Ok(Given {
        refused: Refusals::new(refused),
        rows,
    })
}

// A copy of the same.
fn copied(alloc: Global, crew: &[Worker]) -> Result<Given, AllocError>
    ensures { IfOk result (λ given. HaveGiven crew.now given.refused given.rows) }
{
    let mut refused = Vec::new(alloc);
    let mut rows = Rows::new(Vec::new(alloc));
    for worker in crew {
        let given = worker.given()?;
        rows = given.rows;
        refused.append(&mut given.refused.into_vec())?;
    }
    Ok(Given {
        refused: Refusals::new(refused),
        rows,
    })
}

// The columns of a workflow's last operator.
fn last_columns(flow: &Flow) -> Result<Schema, AllocError>
    ensures { IfOk result (λ columns. columns ≡ columns_at flow.now (length flow.now)) }
{
    let operators = flow.get();
    operators[operators.len() - 1].schema.clone()
}

// The answer, from what all workers have given. Refusals that tie stay as they stood.
fn answer_of(flow: &Flow, given: Given) -> Result<Answer, AllocError>
    ensures refused { IfOk result (λ answer. answer.refused ≡ sort_refusals given.refused) }
    ensures columns { IfOk result
        (λ answer. answer.columns ≡ columns_at flow.now (length flow.now)) }
    ensures rows { IfOk result (λ answer. answer.rows ≡ given.rows) }
{
    let mut refused = given.refused.into_vec();
    refused.sort_by(|a, b| compare_refusals(a, b))?;
    Ok(Answer {
        refused: Refusals::new(refused),
        columns: last_columns(flow)?,
        rows: given.rows,
    })
}

/// The answer, from workers of whom nothing more is asked.
pub(crate) fn gather_all(
    alloc: Global,
    flow: &Flow,
    crew: Vec<Worker>,
) -> Result<Answer, AllocError>
    ensures { IfOk result (IsGathered flow.now crew.items) }
{
    let given = collect(alloc, crew)?;
    answer_of(flow, given)
}

/// The answer, from workers that stay as they are.
pub(crate) fn gather(alloc: Global, flow: &Flow, crew: &[Worker]) -> Result<Answer, AllocError>
    ensures { IfOk result (IsGathered flow.now crew.now) }
{
    let given = copied(alloc, crew)?;
    answer_of(flow, given)
}
