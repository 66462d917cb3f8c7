// A register with few enough reaches for sums over them, and what its reaches come to.
ghost use Rattle.std.specs.Prelude.{◌≡◌, ◌<◌, ◌≤◌, length, IfSome};
ghost use Rattle.std.specs.List.{slice_get};
ghost use Rattle.std.specs.Option.{MatchOption, option_map};
ghost use Rattle.scheme.specs.Bounds.{most_reaches};
ghost use Rattle.scheme.specs.Flow.{value};
ghost use Rattle.scheme.specs.Sums.{Adds, gain, gain_between, IsSmall, IsWithin};

use crate::questions::MOST_REACHES;
use crate::registers::Register;

// A register that has no more reaches than a well-formed one, so that sums over them fit.
#[derive(Drop)]
pub struct Few<'a, R: Register> {
    pub register: &'a R,
    ghost few: { length (R.scheme register.now).reaches ≤ most_reaches },
}

impl<'a, R: Register> Few<'a, R> {
    // Nothing where there are more reaches.
    pub fn of(register: &'a R) -> Option<Few<'a, R>>
        ensures { MatchOption result
            (most_reaches < length (R.scheme register.now).reaches)
            (λ few. few.register ≡ register.entry) }
    {
        if register.reaches() > MOST_REACHES {
            return None;
        }
        Some(Few { register })
    }

    // The value of the flow, signed: what leaves the inlet less what enters it.
    pub fn value(&self) -> i64
        ensures { result ≡ value (R.scheme self.now.register.now) }
    {
        let register = self.register;
        let inlet = register.inlet();
        self.sum(|reach| gain_of(register, reach, inlet))
    }

    // The amounts of all reaches together.
    pub(crate) fn sum<F: Fn(usize) -> Option<i64>>(&self, amount: F) -> i64
        requires callable { F.IsAlwaysCallable amount }
        requires small { (reach : _) (x : _) → F.post amount reach x → IfSome x IsSmall }
        ensures { Adds (F.post amount) (length (R.scheme self.now.register.now).reaches) result }
    {
        let mut sum = 0;
        // a loop, whose invariant bounds the sum: an iterator's `sum` of signed numbers gets no bound
        for reach in 0..self.register.reaches() {
            // every reach below their count is in the list
            sum += amount(reach).unwrap_or(0);
        }
        sum
    }
}

// What the reach takes out of the point less what it brings in.
pub(crate) fn gain_of<R: Register>(register: &R, reach: usize, point: u16) -> Option<i64>
    ensures gain { result ≡ option_map (gain point) (slice_get (R.scheme register.now).reaches reach) }
    ensures small { IfSome result IsSmall }
{
    let tail = register.tail(reach)?;
    let head = register.head(reach)?;
    Some(gain(point, tail, head, register.flow(reach)?))
}

// What a reach with these ends and this flow takes out of the point less what it brings in.
pub(crate) fn gain(point: u16, tail: u16, head: u16, flow: u32) -> i64
    ensures gain { result ≡ gain_between point tail head flow }
    ensures small { IsWithin u32.MAX result }
{
    let out = if tail == point { i64::from(flow) } else { 0 };
    let into = if head == point { i64::from(flow) } else { 0 };
    out - into
}
