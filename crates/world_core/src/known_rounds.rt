//! What a log knows of rounds.
ghost use Rattle.std.specs.Prelude.{◌≡◌, ◌&&◌, nat_lt, length};
ghost use Rattle.world_core.specs.Log.{letters_taken};
ghost use Rattle.world_core.specs.Rounds.{agree, barrier_start};
ghost use Rattle.world_core.specs.Trial.{sums_of};

use crate::Entry;
use crate::control_letters::total_taken;

/// How many letters were sent, and how many ran.
#[derive(Clone, Copy)]
pub struct Sums {
    pub sent: u128,
    pub run: u128,
}

/// Whether two rounds have the same sums, and all that was sent in each ran.
fn agree(a: Sums, b: Sums) -> bool
    ensures { result ≡ agree (sums_of a) (sums_of b) }
{
    a.sent == a.run && b.sent == b.run && a.sent == b.sent
}

/// Whether round `q` ends the barrier that began with round `first`, by the sums of the round before and its own.
pub fn ends_from(first: u128, q: u128, before: Sums, sums: Sums) -> bool
    ensures { result ≡ (nat_lt first q && agree (sums_of before) (sums_of sums)) }
{
    first < q && agree(before, sums)
}

/// The first round of the barrier that a rank is in, or that comes next. The rank learns it from the Totals that it
/// took.
pub fn barrier_start(log: &[Entry], here: u32) -> u128
    ensures { result ≡ barrier_start here log.now }
{
    let mut first: u128 = 0;
    let mut before = Sums { sent: 0, run: 0 };
    for q in 0..taken_len(log) {
        match total_taken(log, here, q) {
            None => return first,
            Some(told) => {
                let sums = Sums {
                    sent: u128::from(told.sent),
                    run: u128::from(told.run),
                };
                if ends_from(first, q, before, sums) {
                    first = q + 1;
                }
                before = sums;
            }
        }
    }
    first
}

/// The number of letters that a log took.
fn taken_len(log: &[Entry]) -> u128
    ensures { result ≡ length (letters_taken log.now) }
{
    let mut count: u128 = 0;
    for entry in log {
        if let Entry::Took { letters, .. } = entry {
            count += u128::from(letters.count());
        }
    }
    count
}
