// The interface of a pick: a key for each point, and which points are still outside.
ghost use Rattle.std.specs.Prelude.{◌≡◌, ◌+◌, ◌<◌, ◌≤◌, MatchResult, SomeIff};
ghost use Rattle.scheme.specs.Bounds.{most_points};
ghost use Rattle.scheme.specs.Refusals.{pick_refusal, refusal_of};
ghost use Rattle.pick.specs.Keys.{Keys, size};
ghost use Rattle.pick.specs.Calls.{ask_start, after_start, ask_raise, after_raise, greatest_key, Takes};

use scheme::PickFault;
use scheme::questions::MOST_POINTS;

// the greatest key that a point may have
pub const GREATEST_KEY: u64 = 1 << 40;

// the size of each pick of this crate: as many points as a register may have
pub(crate) const SIZE: usize = MOST_POINTS as usize;

// A priority queue over points whose keys only grow. `held` is all that it means: its size, and the key of
// each point that is outside. A refused call changes nothing, and the size stays; that is said of each call, since it ties
// two values and is no fact of one.
pub trait Pick {
    ghost held: { Self → Keys };

    // Puts exactly the first `points` points outside, with key 0.
    fn start(&mut self, points: u16) -> Result<(), PickFault>
        ensures answer { refusal_of pick_refusal result ≡ ask_start (held self.old) points }
        ensures after { held self.new ≡ after_start (held self.old) points }
        ensures size { size (held self.new) ≡ size (held self.old) };

    // Adds to the key of a point that is outside.
    fn raise(&mut self, point: u16, by: u64) -> Result<(), PickFault>
        ensures answer { refusal_of pick_refusal result ≡ ask_raise (held self.old) point by }
        ensures after { held self.new ≡ after_raise (held self.old) point by }
        ensures size { size (held self.new) ≡ size (held self.old) };

    // Takes an outside point with the greatest key, if any is outside, and tells the key too. Which of several
    // equal points it takes is free.
    fn take(&mut self) -> Option<(u16, u64)>
        ensures takes { Takes (held self.old) result (held self.new) }
        ensures size { size (held self.new) ≡ size (held self.old) };
}

// The number of points that start, if there is room for them.
pub(crate) fn fitting(points: u16) -> Result<usize, PickFault>
    ensures { MatchResult result (λ n. (n ≡ points) × (n ≤ most_points)) (λ fault. (fault ≡ PickFault.TooSmall) × (most_points < points)) }
{
    let points = usize::from(points);
    if points > SIZE {
        return Err(PickFault::TooSmall);
    }
    Ok(points)
}

// The raised key, if it stays within the greatest.
pub(crate) fn raised(key: u64, by: u64) -> Option<u64>
    ensures { SomeIff result (key + by ≤ greatest_key) (key + by) }
{
    key.checked_add(by).filter(|raised| *raised <= GREATEST_KEY)
}
