//! A command that is done at rest: the copies that it wants, and what it changes. Over `InForce` and
//! `Dataflow`.

ghost use Rattle.std.specs.Prelude.{◌≡◌, ◌<◌, ◌≤◌, ◌∷◌, ◌++◌, IfOk, IfSome, None, OnErr, OnOk, Some, [], length, option_map, replicate};
ghost use Rattle.amber_rows.specs.Topology.{crew_of};
ghost use Rattle.amber_rows.specs.declared.value.Value.{Value};
ghost use Rattle.amber_dataflow.specs.Dataflow.{AreAllThere, AreHeldByRows, HaveDoneNothing, rows_emitted};
ghost use Rattle.amber_home.specs.Applied.{HasNamed, HasOperator, arms_after, conditions_wanted, copies_wanted};
ghost use Rattle.amber_home.specs.Applied.{dataflow_after, dropped_row, with_condition, with_constants, without_dropped};
ghost use Rattle.amber_home.specs.HomeState.{lost_in};
ghost use Rattle.amber_log.specs.declared.log.Item.TheVariants as item;
ghost use Rattle.amber_meaning.specs.State.{put, worker_at};

use crate::in_force::InForce;
use amber_dataflow::Dataflow;
use amber_log::{Change, Command, Effect, Item, Items, Lent};
use amber_rows::{Cond, Row, Value};
use std::alloc::{AllocError, Global};

/// The copies that another constant wants, one for each worker and one more; none where there is no other.
pub(crate) fn copies_for(
    alloc: Global,
    constant: &Option<Lent<'_, Value>>,
    dataflow: &Dataflow,
) -> Result<Vec<Value>, AllocError>
    ensures { IfOk result (λ copies. copies.items
        ≡ copies_wanted constant.now (length dataflow.now.workers)) }
{
    let Some(value) = constant else {
        return Ok(Vec::new(alloc));
    };
    let mut copies = dataflow.copies_of(alloc, value.get())?;
    copies.push(value.get().clone()?)?;
    Ok(copies)
}

/// A copy of the condition that is put, if one is.
pub(crate) fn condition_for(when: &Change<Lent<'_, Cond>>) -> Result<Option<Cond>, AllocError>
    ensures { IfOk result (λ copy. copy ≡ put when.now None) }
{
    match when {
        Change::Keep => Ok(None),
        Change::TakeBack => Ok(None),
        Change::Put(cond) => Ok(Some(cond.get().clone()?)),
    }
}

/// The copies of it that the workers want, one for each; none where none is put.
pub(crate) fn conditions_for(
    alloc: Global,
    when: &Change<Lent<'_, Cond>>,
    dataflow: &Dataflow,
) -> Result<Vec<Cond>, AllocError>
    ensures { IfOk result (λ copies. copies.items
        ≡ conditions_wanted when.now (length dataflow.now.workers)) }
{
    match when {
        Change::Keep => Ok(Vec::new(alloc)),
        Change::TakeBack => Ok(Vec::new(alloc)),
        Change::Put(cond) => dataflow.conditions_of(alloc, cond.get()),
    }
}

/// Appends a command to the items.
pub(crate) fn push_command(command: &Command, items: &mut Items) -> Result<(), AllocError>
    ensures ok { OnOk result (items.new ≡ items.old ++ item.Do command.now ∷ []) }
    ensures err { OnErr result (items.new ≡ items.old) }
{
    items.push(Item::Do(command.clone()?))
}

// Another constant at an operator's workers, where there is one.
fn set(effect: &Effect<'_>, copies: Vec<Value>, dataflow: &mut Dataflow)
    requires rest { HaveDoneNothing dataflow.old }
    requires copies { (value : Value) → effect.now.arming.constant ≡ Some value
        → copies.items ≡ replicate (length dataflow.old.workers) value }
    ensures { dataflow.new
        ≡ with_constants effect.now.op effect.now.arming.constant dataflow.old }
{
    if let Some(value) = &effect.arming.constant {
        dataflow.set(effect.op, value.get(), copies);
    }
}

// Another condition at an operator's workers, or none, where one is put or taken back.
fn watch(effect: &Effect<'_>, conditions: Vec<Cond>, dataflow: &mut Dataflow)
    requires rest { HaveDoneNothing dataflow.old }
    requires conditions { conditions.items
        ≡ conditions_wanted effect.now.arming.when (length dataflow.old.workers) }
    ensures { dataflow.new
        ≡ with_condition effect.now.op effect.now.arming.when dataflow.old }
{
    match &effect.arming.when {
        Change::Keep => {}
        Change::TakeBack => dataflow.unwatch(effect.op),
        Change::Put(cond) => dataflow.watch(effect.op, cond.get(), conditions),
    }
}

// The number of one of an operator's workers, among all.
fn worker_at(dataflow: &Dataflow, op: u32, worker: u32) -> u32
    requires operator { HasOperator op (length dataflow.now.flow) }
    requires few { crew_of dataflow.now.flow ≤ 128 }
    requires there { worker_at dataflow.now.flow op worker < crew_of dataflow.now.flow }
    ensures { result ≡ worker_at dataflow.now.flow op worker }
{
    dataflow.flow().first_worker(op) + worker
}

/// The number among all of the worker that a command loses, if it loses one.
pub(crate) fn worker_to_lose(effect: &Effect<'_>, dataflow: &Dataflow) -> Option<u32>
    requires operator { HasOperator effect.now.op (length dataflow.now.flow) }
    requires few { crew_of dataflow.now.flow ≤ 128 }
    requires there { HasNamed dataflow.now effect.now.op effect.now.loses }
    ensures is { result ≡ lost_in dataflow.now.flow effect.now.op effect.now.loses }
    ensures there { IfSome result (λ worker. worker < crew_of dataflow.now.flow) }
{
    let Some(worker) = effect.loses else {
        return None;
    };
    Some(worker_at(dataflow, effect.op, worker))
}

/// The row before which the worker is held that a command names, if it names one.
pub(crate) fn row_to_drop<'a>(effect: &Effect<'_>, dataflow: &'a Dataflow) -> Option<&'a Row>
    requires workers { AreAllThere dataflow.now }
    requires operator { HasOperator effect.now.op (length dataflow.now.flow) }
    requires few { crew_of dataflow.now.flow ≤ 128 }
    requires there { HasNamed dataflow.now effect.now.op effect.now.drops }
    ensures { option_map (λ row. row.now) result
        ≡ dropped_row effect.now.op effect.now.drops dataflow.now }
{
    let Some(worker) = effect.drops else {
        return None;
    };
    dataflow.held_row(worker_at(dataflow, effect.op, worker))
}

// Drops the row before which the worker is held that a command names, if it names one, and hands it out.
fn drop_row(effect: &Effect<'_>, dataflow: &mut Dataflow) -> Option<Row>
    requires workers { AreAllThere dataflow.old }
    requires operator { HasOperator effect.now.op (length dataflow.old.flow) }
    requires few { crew_of dataflow.old.flow ≤ 128 }
    requires there { HasNamed dataflow.old effect.now.op effect.now.drops }
    requires rest { HaveDoneNothing dataflow.old }
    requires rows { AreHeldByRows dataflow.old }
    ensures row { result ≡ dropped_row effect.now.op effect.now.drops dataflow.old }
    ensures dataflow { dataflow.new
        ≡ without_dropped effect.now.op effect.now.drops dataflow.old }
{
    let Some(worker) = effect.drops else {
        return None;
    };
    dataflow.drop_held(worker_at(dataflow, effect.op, worker))
}

/// Applies a command between two runs, and gives the row that it drops. It cannot fail: the copies of a constant
/// and of a condition were made before.
pub(crate) fn put_in_force(
    effect: &Effect<'_>,
    mut copies: Vec<Value>,
    when: Option<Cond>,
    conditions: Vec<Cond>,
    arms: &mut InForce,
    dataflow: &mut Dataflow,
) -> Option<Row>
    requires workers { AreAllThere dataflow.old }
    requires there { HasOperator effect.now.op (length arms.old) }
    requires within { effect.now.op ≤ length dataflow.old.flow }
    requires few { crew_of dataflow.old.flow ≤ 128 }
    requires worker { HasNamed dataflow.old effect.now.op effect.now.drops }
    requires rest { HaveDoneNothing dataflow.old }
    requires rows { AreHeldByRows dataflow.old }
    requires copies { copies.items
        ≡ copies_wanted effect.now.arming.constant (length dataflow.old.workers) }
    requires conditions { conditions.items
        ≡ conditions_wanted effect.now.arming.when (length dataflow.old.workers) }
    requires when { when ≡ put effect.now.arming.when None }
    ensures row { result ≡ dropped_row effect.now.op effect.now.drops dataflow.old }
    ensures arms { arms.new
        ≡ arms_after effect.now (rows_emitted dataflow.old effect.now.op) arms.old }
    ensures dataflow { dataflow.new ≡ dataflow_after effect.now dataflow.old }
{
    let emitted = dataflow.rows_emitted(effect.op);
    arms.change(effect.op, &effect.arming, emitted, when, copies.pop());
    let dropped = drop_row(effect, dataflow);
    set(effect, copies, dataflow);
    watch(effect, conditions, dataflow);
    dropped
}
