//! How many turns each worker may make in a round. Over what `Home` tells of its steps, and over `nearness`.

ghost use Rattle.std.specs.Prelude.{◌≡◌, ◌+◌, ◌*◌, ◌≤◌, true};
ghost use Rattle.amber_rows.specs.Topology.{crew_of};
ghost use Rattle.amber_meaning.specs.State.{steps_in};
ghost use Rattle.amber_home.specs.HomeState.{is_open, state_of};
ghost use Rattle.amber_leg.specs.Driving.{turns_of};
ghost use Rattle.amber_leg.specs.Leg.{AreFar, StaysInTime, most_late, most_turned};

use crate::nearness::is_pause_near;
use amber_home::Home;

// The turns of a slice, and the slices of a round in which each worker can go on by itself.
const FREE: Shape = Shape {
    passes: 64,
    slice: 1024,
};

// The same where a pause may come due.
const PAUSED: Shape = Shape {
    passes: 1,
    slice: 1024,
};

// How often a thread looks again at least whose workers all wait for workers of other threads.
const LOOKS: u32 = 4;

// The turns of a drive, after which it is looked whether the worker still moves, and what it has done is noted; and the turns of
// each worker on the coordinator's thread between two turns of the coordinator. Where a pause may come due they are few, so that
// it is seen soon. On one thread the coordinator sees the workers themselves, and needs to look less often.
const DRIVE: u32 = 64;

const DRIVE_PAUSED: u32 = 16;

const BETWEEN: u32 = 256;

const BETWEEN_ALONE: u32 = 1024;

// The most slices of a round.
const MOST_PASSES: u64 = 65_536;

/// The turns of a round: so many slices of each worker, one of each after the other, with so many turns in a slice; and how
/// often in a row a thread looks again, and longer while others move, where none of its workers moves.
#[derive(Clone, Copy)]
pub(crate) struct Budget {
    pub passes: u32,
    pub slice: u32,
    pub looks: u32,
    /// The turns of a drive.
    pub drive: u32,
    /// The turns of a slice of a thread on which the coordinator has a turn behind each.
    pub between: u32,
    /// Whether a pause may come due in the round.
    pub near: bool,
    /// On how many threads.
    pub threads: u32,
}

// With one thread there is nobody to wait for.
fn looks_of(threads: u32) -> u32
    ensures { result ≤ 4 }
{
    if threads == 1 { 0 } else { LOOKS }
}

// The turns of a drive.
fn drive_of(near: bool) -> u32 {
    if near { DRIVE_PAUSED } else { DRIVE }
}

// The turns of a slice that the coordinator has a turn behind.
fn between_of(near: bool, threads: u32) -> u32
    ensures { 1 ≤ result }
{
    if near {
        DRIVE_PAUSED
    } else if threads == 1 {
        BETWEEN_ALONE
    } else {
        BETWEEN
    }
}

// So many slices, with so many turns in each.
#[derive(Clone, Copy)]
struct Shape {
    passes: u64,
    slice: u64,
}

// How the turns of a round are sliced.
fn shape_of(near: bool) -> Shape
    ensures passes { (1 ≤ result.passes) × (result.passes ≤ 64) }
    ensures slice { (1 ≤ result.slice) × (result.slice ≤ 1024) }
    ensures late { near ≡ true → result.passes * result.slice ≤ most_late }
{
    if near { PAUSED } else { FREE }
}

// The same, or less, where a worker's share of the steps that are left is less.
fn cut_to(share: u64, shape: Shape) -> Shape
    requires some { (1 ≤ shape.passes) × (1 ≤ shape.slice) }
    ensures share { result.passes * result.slice ≤ share }
    ensures passes { result.passes ≤ shape.passes }
    ensures slice { result.slice ≤ shape.slice }
    ensures some { 1 ≤ share → 1 ≤ result.passes * result.slice }
{
    Shape {
        passes: (share / shape.slice).max(1).min(shape.passes),
        slice: share.min(shape.slice),
    }
}

/// As many turns as each worker may make, so that all together make no more steps than are left; at least one where as
/// many steps are left as there are workers.
pub(crate) fn budget_of(home: &Home, threads: u32) -> Budget
    requires within { is_open home.now.phase ≡ true }
    ensures few { steps_in (state_of home.now) + crew_of home.now.flow * turns_of result
        ≤ home.now.most }
    ensures some { steps_in (state_of home.now) + crew_of home.now.flow ≤ home.now.most
        → 1 ≤ turns_of result }
    ensures within { turns_of result ≤ most_turned }
    ensures late { StaysInTime (turns_of result) home.now }
    ensures threads { result.threads ≡ threads }
{
    let near = is_pause_near(home);
    let left = home.most() - home.steps();
    let flow = home.flow();
    let _operators = flow.get();
    let share = left / u64::from(flow.workers());
    let cut = cut_to(share, shape_of(near));
    Budget {
        passes: cut.passes as u32,
        slice: cut.slice as u32,
        looks: looks_of(threads),
        drive: drive_of(near),
        between: between_of(near, threads),
        near,
        threads,
    }
}

/// The same turns, or less, in slices that the coordinator has a turn behind.
pub(crate) fn in_slices(budget: Budget) -> Budget
    ensures few { turns_of result ≤ turns_of budget }
    ensures some { 1 ≤ turns_of budget → 1 ≤ turns_of result }
{
    let turns = u64::from(budget.passes) * u64::from(budget.slice);
    let shape = Shape {
        passes: MOST_PASSES,
        slice: u64::from(budget.between.max(1)),
    };
    let cut = cut_to(turns, shape);
    Budget {
        passes: cut.passes as u32,
        slice: cut.slice as u32,
        ..budget
    }
}
