// The reaches that join a point with another, found one after another. Whatever goes over them knows no more than
// this one function says, so that an index can take the place of the search. The ordering and the push both go over them
// by `while let`: an iterator would borrow the book that the push writes, and for the ordering alone it is no plainer.
ghost use Rattle.std.specs.Prelude.{◌≡◌, slice_index_or};
ghost use Rattle.std.specs.List.{slice_get};
ghost use Rattle.std.specs.Option.{option_map};
ghost use Rattle.scheme.specs.Scheme.{no_reach};
ghost use Rattle.solver.specs.Joins.{touches, next_that_touches};

use scheme::{Reach, Register, reach_of};

// Stands where the list has no reach. (The callers ask only of reaches that are in it; with an Option each of them would have
// to say what it does where there is none.)
const NO_REACH: Reach = Reach {
    tail: 0,
    head: 0,
    limit: 0,
    flow: 0,
};

// The least reach from `from` on that begins or ends at the point, if there is one.
pub(crate) fn next_touching<R: Register>(register: &R, point: u16, from: usize) -> Option<usize>
    ensures { result ≡ next_that_touches (R.scheme register.now).reaches point from }
{
    (from..register.reaches()).find(|reach| reach_touches(register, point, *reach) == Some(true))
}

// Does the reach begin or end at the point, if it is in the list?
fn reach_touches<R: Register>(register: &R, point: u16, reach: usize) -> Option<bool>
    ensures { result ≡ option_map (touches point) (slice_get (R.scheme register.now).reaches reach) }
{
    Some(register.tail(reach)? == point || register.head(reach)? == point)
}

// All four fields of a reach.
pub(crate) fn read_reach<R: Register>(register: &R, reach: usize) -> Reach
    ensures { result ≡ slice_index_or (R.scheme register.now).reaches reach no_reach }
{
    reach_of(register, reach).unwrap_or(NO_REACH)
}
