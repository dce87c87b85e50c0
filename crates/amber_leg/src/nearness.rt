//! Whether a pause may come due in a round. Over what `Home` tells of its pauses and of the rows that operators have emitted.

ghost use Rattle.std.specs.Prelude.{◌≡◌, ◌+◌, ◌*◌, ◌<◌, ◌≤◌, ℕ, Some, false, length, true};
ghost use Rattle.amber_rows.specs.Topology.{workers_of};
ghost use Rattle.amber_meaning.specs.State.{arms_at, emitted_by};
ghost use Rattle.amber_home.specs.HomeState.{is_open, state_of};
ghost use Rattle.amber_leg.specs.Leg.{AreFar, IsFarAt, most_turned};

use amber_home::Home;

// How many turns a worker makes in a round at most.
const MOST_TURNED: u64 = 65_536;

// Whether so many rows may be reached by so many that were emitted, with so many more at most.
fn may_come_to(rows: u64, emitted: u64, more: u64) -> bool
    ensures { result ≡ false → emitted + more ≤ rows }
{
    rows < emitted || rows - emitted < more
}

// Whether an operator's pause may come due in a round.
fn is_near_at(home: &Home, place: usize) -> bool
    requires within { is_open home.now.phase ≡ true }
    requires there { place < length home.now.flow }
    ensures far { result ≡ false → IsFarAt home.now (place + 1) }
{
    let flow = home.flow();
    let operators = flow.get();
    let op = place as u32 + 1;
    let Some(rows) = home.pause_at(op) else {
        return false;
    };
    let most = u64::from(operators[place].workers) * MOST_TURNED;
    may_come_to(rows, home.rows_emitted(op), most)
}

/// Whether an operator's pause may come due in a round. Where none may, no operator emits as many rows in the round as are left up
/// to its pause.
pub(crate) fn is_pause_near(home: &Home) -> bool
    requires within { is_open home.now.phase ≡ true }
    ensures far { result ≡ false → AreFar home.now }
{
    let flow = home.flow();
    let operators = flow.get().len();
    'operators: for place in 0..operators {
        if is_near_at(home, place) {
            return true;
        }
    }
    false
}
