//! How units are divided among those who need some.

ghost use Rattle.std.specs.Prelude.{◌≡◌, ◌<◌, ◌^◌, ◌+◌, count_by};
ghost use Rattle.amber_principal.specs.Shares.{is_able, is_in_need, shares_of};
ghost use Rattle.amber_principal.specs.Turns.{after_share, next_share};

use crate::PLACES;

/// What the worker at a place needs.
#[derive(Clone, Copy)]
pub enum Need {
    /// There is no such worker.
    Absent,
    /// The worker has finished, and needs no unit any more.
    Finished,
    /// The worker has work and no unit to do it with.
    Starved,
    /// The worker has a unit, or nothing to do.
    Able,
}

impl Need {
    /// Whether the worker has work and no unit to do it with.
    pub fn is_starved(self) -> bool
        ensures { result ≡ is_in_need self }
    {
        matches!(self, Need::Starved)
    }

    /// Whether the worker has a unit, or nothing to do.
    pub fn is_able(self) -> bool
        ensures { result ≡ is_able self }
    {
        matches!(self, Need::Able)
    }
}

// How many are starved.
fn starved_count(needs: &[Need; PLACES]) -> u64
    ensures { result ≡ count_by is_in_need needs.now }
{
    needs.iter().filter(|need| need.is_starved()).count() as u64
}

// How many are able.
fn able_count(needs: &[Need; PLACES]) -> u64
    ensures { result ≡ count_by is_able needs.now }
{
    needs.iter().filter(|need| need.is_able()).count() as u64
}

// How an even division goes on: what each gets, how many units are left over, and how many come before the next starved
// and the next able one.
#[derive(Clone, Copy)]
struct Turns {
    each: u64,
    left: u64,
    starved: u64,
    able: u64,
}

impl Turns {
    // The share of the next worker.
    fn next_share(&mut self, need: Need) -> u64
        requires each { 0 < self.old.left → self.old.each + 1 < 2 ^ 64 }
        requires few { (self.old.starved + 1 < 2 ^ 64) × (self.old.able + 1 < 2 ^ 64) }
        ensures share { result ≡ next_share self.old need }
        ensures turns { self.new ≡ after_share self.old need }
    {
        match need {
            Need::Absent | Need::Finished => 0,
            Need::Starved => {
                let share = self.each + u64::from(self.starved < self.left);
                self.starved += 1;
                share
            }
            Need::Able => {
                let share = self.each + u64::from(self.able < self.left);
                self.able += 1;
                share
            }
        }
    }
}

// The shares, where these many are starved and able, and somebody is.
fn shares_among(rest: u64, needs: &[Need; PLACES], starved: u64, able: u64) -> [u64; PLACES]
    requires starved { starved ≡ count_by is_in_need needs.now }
    requires able { able ≡ count_by is_able needs.now }
    requires some { 0 < starved + able }
    ensures { result ≡ shares_of rest needs.now }
{
    let mut turns = Turns {
        each: rest / (starved + able),
        left: rest % (starved + able),
        starved: 0,
        able: starved,
    };
    let mut shares = [0; PLACES];
    for (place, &need) in needs.iter().enumerate() {
        shares[place] = turns.next_share(need);
    }
    shares
}

/// Divides `rest` units among the workers that are starved or able, evenly. What is left over goes one each
/// to the starved ones in order, then to the able ones in order. The others get none, and where nobody is
/// starved or able no unit is given.
pub fn divide(rest: u64, needs: &[Need; PLACES]) -> [u64; PLACES]
    ensures { result ≡ shares_of rest needs.now }
{
    let starved = starved_count(needs);
    let able = able_count(needs);
    if starved + able == 0 {
        return [0; PLACES];
    }
    shares_among(rest, needs, starved, able)
}
