// How taking a point raises the keys of the points outside.
ghost use Rattle.std.specs.Prelude.{◌≡◌, None};
ghost use Rattle.scheme.specs.Questions.{WellFormed};
ghost use Rattle.pick.specs.Keys.{size, key_of, NoneOutside};
ghost use Rattle.pick.specs.Calls.{Taken};
ghost use Rattle.solver.specs.Raises.{other_end, left_from_point, GrownFrom, RoomToGrow};

use crate::joining::{next_touching, read_reach};
use pick::Pick;
use scheme::{Reach, Register};

// Raises each outside point by what is left along every reach from the point, which is inside.
pub(crate) fn raise_neighbours<R: Register, P: Pick>(register: &R, pick: &mut P, point: u16)
    requires formed { WellFormed (R.scheme register.now) }
    requires inside { key_of (P.held pick.old) point ≡ None }
    requires room { RoomToGrow point (R.scheme register.now).reaches (P.held pick.old) }
    ensures grown { GrownFrom point (R.scheme register.now).reaches
        (P.held pick.old) (P.held pick.new) }
    ensures size { size (P.held pick.new) ≡ size (P.held pick.old) }
{
    let mut from = 0;
    while let Some(reach) = next_touching(register, point, from) {
        let (other, left) = left_from(read_reach(register, reach), point);
        // a point that is inside refuses the raise, which then changes nothing
        let _ = pick.raise(other, left);
        from = reach + 1;
    }
}

// The other end of a reach at the point, and what is left along the reach from the point to it.
fn left_from(row: Reach, point: u16) -> (u16, u64)
    ensures end { result.0 ≡ other_end point row }
    ensures left { result.1 ≡ left_from_point point row }
{
    if row.tail == point {
        // under a lawful flow this is the plain difference
        (row.head, u64::from(row.limit.saturating_sub(row.flow)))
    } else {
        (row.tail, u64::from(row.flow))
    }
}

// Takes an outside point with the greatest key, and tells the key too. The caller knows that some point is outside.
pub(crate) fn take_greatest<P: Pick>(pick: &mut P) -> (u16, u64)
    requires { NoneOutside (P.held pick.old) → ⊥ }
    ensures taken { Taken (P.held pick.old) result.0 result.1 (P.held pick.new) }
    ensures size { size (P.held pick.new) ≡ size (P.held pick.old) }
{
    pick.take().unwrap()
}
