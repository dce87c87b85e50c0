//! To which of its receivers a worker gives a row. Rests on `route_row` of `amber_rows`.

ghost use Rattle.std.specs.Prelude.{◌≡◌, ◌+◌, ◌^◌, ◌<◌, ◌≤◌};
ghost use Rattle.amber_worker.specs.Links.{IsSoundRoute, number_to};

use amber_rows::{Cols, Row, route_row};

/// To whom the rows of a worker go: all to one worker, or by their keys to `workers` workers from
/// the first one on.
pub enum Route {
    One(u32),
    ByKeys {
        keys: Cols,
        first: u32,
        workers: u32,
    },
}

impl Drop for Route {
    fn drop(self) {
        match self {
            Route::One(_) => {}
            Route::ByKeys {
                keys: _,
                first: _,
                workers: _,
            } => {}
        }
    }
}

impl Route {
    /// The running number of the worker to which a row goes.
    pub(crate) fn number_to(&self, row: &Row) -> u32
        requires { IsSoundRoute self.now }
        ensures { result ≡ number_to self.now row.now }
    {
        match self {
            Route::One(number) => *number,
            Route::ByKeys {
                keys,
                first,
                workers,
            } => *first + route_row(row, keys, *workers),
        }
    }
}
