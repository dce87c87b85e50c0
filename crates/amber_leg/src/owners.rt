//! Which driver each worker goes to in a round, by the steps that each made in the round before.

ghost use Rattle.std.specs.Prelude.{◌≡◌, ◌<◌, All, IfOk, length};

use std::alloc::{AllocError, Global};
use std::cmp::Reverse;

// What was dealt to a driver so far: the steps of its workers in the round before, and how many
// workers it has.
#[derive(Clone, Copy)]
struct Load {
    steps: u64,
    workers: usize,
}

// The steps of a worker in the round before. A worker of which nothing is known has made none.
fn steps_of(done: &[u64], number: usize) -> u64 {
    done.get(number).copied().unwrap_or(0)
}

// The numbers of so many workers, by falling steps; equal ones stay by rising number.
fn by_steps(alloc: Global, done: &[u64], count: usize) -> Result<Vec<usize>, AllocError>
    ensures long { IfOk result (λ order. length order.items ≡ count) }
    ensures within { IfOk result (λ order. All (λ number. number < count) order.items) }
{
    let mut order = Vec::with_capacity(alloc, count)?;
    'workers: for number in 0..count {
        order.push_reserved(number);
    }
    order.sort_by_key(|number| Reverse(steps_of(done, *number)))?;
    Ok(order)
}

// Whether the first has less than the second: fewer steps, or as many and fewer workers.
fn is_less(first: Load, second: Load) -> bool {
    first.steps < second.steps || first.steps == second.steps && first.workers < second.workers
}

// The first of the drivers that have the least.
fn least_of(loads: &[Load]) -> usize
    requires some { 0 < length loads.now }
    ensures within { result < length loads.now }
{
    let mut least = 0;
    'drivers: for driver in 1..loads.len() {
        if is_less(loads[driver], loads[least]) {
            least = driver;
        }
    }
    least
}

/// The driver that each worker goes to, by the worker's number. Those who did most in the round
/// before come first, each to the driver that has the least so far. Where nobody has done anything
/// each driver has its turn.
pub(crate) fn owners_of(
    alloc: Global,
    done: &[u64],
    count: usize,
    drivers: usize,
) -> Result<Vec<usize>, AllocError>
    requires some { 0 < drivers }
    ensures long { IfOk result (λ owners. length owners.items ≡ count) }
    ensures within { IfOk result (λ owners. All (λ owner. owner < drivers) owners.items) }
{
    let order = by_steps(alloc, done, count)?;
    let none = Load {
        steps: 0,
        workers: 0,
    };
    let mut loads = vec![in alloc; none; drivers]?;
    let mut owners = vec![in alloc; 0; count]?;
    'workers: for place in 0..count {
        let number = order[place];
        let owner = least_of(loads.as_slice());
        let load = loads[owner];
        loads[owner] = Load {
            steps: load.steps.saturating_add(steps_of(done, number)),
            workers: load.workers.saturating_add(1),
        };
        owners[number] = owner;
    }
    Ok(owners)
}
