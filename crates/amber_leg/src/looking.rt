//! Whether the leg that is open may be closed. Over what `Home` tells of its stops and steps.

ghost use Rattle.std.specs.Prelude.{◌≡◌, ◌<◌, IfNone, IfOk, IfSome, OnErr, OnOk, [], true};
ghost use Rattle.amber_meaning.specs.State.{steps_in};
ghost use Rattle.amber_home.specs.HomeState.{IsEarly, MayClose, is_open, runs_to_end, spent_at, state_of, stops_of_home};

use amber_home::Home;
use amber_log::Close;
use std::alloc::{AllocError, Global};

// How the leg may be closed, if it may.
fn find_close(alloc: Global, home: &Home) -> Result<Option<Close>, AllocError>
    requires within { is_open home.now.phase ≡ true }
    ensures may { IfOk result
        (λ found. IfSome found (MayClose (runs_to_end home.now.phase) home.now)) }
    ensures none { IfOk result (λ found. IfNone found (stops_of_home home.now ≡ [])) }
    ensures early { IfOk result (λ found. IfNone found (IsEarly home.now)) }
    ensures few { IfOk result
        (λ found. IfNone found (steps_in (state_of home.now) < home.now.most)) }
{
    let stops = home.stops(alloc)?;
    if !stops.get().is_empty() {
        return Ok(Some(Close::Cut));
    }
    if home.steps() == home.most() {
        return Ok(Some(Close::Long));
    }
    Ok(None)
}

/// The same. After running out of memory the log is as before, and the run cannot go on.
pub(crate) fn look(alloc: Global, home: &mut Home) -> Result<Option<Close>, AllocError>
    requires within { is_open home.old.phase ≡ true }
    ensures same { OnOk result (home.new ≡ home.old) }
    ensures may { IfOk result
        (λ found. IfSome found (MayClose (runs_to_end home.old.phase) home.old)) }
    ensures none { IfOk result (λ found. IfNone found (stops_of_home home.old ≡ [])) }
    ensures early { IfOk result (λ found. IfNone found (IsEarly home.old)) }
    ensures few { IfOk result
        (λ found. IfNone found (steps_in (state_of home.old) < home.old.most)) }
    ensures err { OnErr result (home.new ≡ spent_at home.old) }
{
    match find_close(alloc, home) {
        Ok(found) => Ok(found),
        Err(error) => {
            home.give_up();
            Err(error)
        }
    }
}
