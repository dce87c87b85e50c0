//! What is watched for beside the workers of a round. Over what `Home` tells of what is in force.

ghost use Rattle.std.specs.Prelude.{◌≡◌, true};
ghost use Rattle.amber_home.specs.HomeState.{is_open};

use amber_home::Home;
use std::alloc::{AllocError, Global};

/// What a round goes by that somebody watches: the rows that the operators' pauses ask for, by the operators' numbers, from 1
/// on.
#[derive(Drop)]
pub(crate) struct Watch {
    pub pauses: Vec<Option<u64>>,
}

// Whether a count or a condition is in force.
fn has_count_or_condition(home: &Home) -> bool
    requires within { is_open home.now.phase ≡ true }
{
    home.has_count() || home.has_condition()
}

// The rows that all operators' pauses ask for.
fn pauses_of(alloc: Global, home: &Home) -> Result<Vec<Option<u64>>, AllocError>
    requires within { is_open home.now.phase ≡ true }
{
    let operators = home.flow().get().len();
    let mut pauses = Vec::with_capacity(alloc, operators)?;
    'operators: for place in 0..operators {
        let op = u32::try_from(place).unwrap_or(u32::MAX).saturating_add(1);
        pauses.push(home.pause_at(op))?;
    }
    Ok(pauses)
}

/// What is watched for: nothing where neither a count nor a condition is in force, and no pause is near.
pub(crate) fn watch_of(alloc: Global, home: &Home, near: bool) -> Result<Option<Watch>, AllocError>
    requires within { is_open home.now.phase ≡ true }
{
    if !near && !has_count_or_condition(home) {
        return Ok(None);
    }
    let pauses = pauses_of(alloc, home)?;
    Ok(Some(Watch { pauses }))
}
