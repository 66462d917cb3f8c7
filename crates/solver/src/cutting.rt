// The pinch: the least side whose capacity is the value of a greatest flow.
ghost use Rattle.std.specs.Prelude.{◌≡◌, ◌≤◌, map, length, IfOk, if◌then◌else◌, Err, nat_eq, slice_index};
ghost use Rattle.std.specs.List.{range_with_len};
ghost use Rattle.scheme.specs.declared.faults.CallFault.TheVariants.{Gains};
ghost use Rattle.scheme.specs.Bounds.{no_point};
ghost use Rattle.scheme.specs.Marks.{marked};
ghost use Rattle.solver.specs.Calls.{CutDoes};
ghost use Rattle.solver.specs.Laws.{LeastCut, StillAGap};
ghost use Rattle.solver.specs.Work.{work_of, written};

use crate::asking::ask_ordering;
use crate::ordering::make_ordering;
use crate::placing::NO_PLACE;
use crate::pushing::clear_needs;
use pick::Pick;
use scheme::{CallFault, Few, Register};

// Makes an ordering. If it gains nothing, marks its points with 1 and the others with 0, and answers that side's
// capacity; it refuses while there is a gain. It only reads, so any register will do.
pub fn cut<R: Register, P: Pick>(
    register: &R,
    pick: &mut P,
    order: &mut [u16],
    place: &mut [u16],
    need: &mut [u64],
    marks: &mut [u8],
) -> Result<u64, CallFault>
    ensures does { CutDoes (R.scheme register.now)
        (work_of order.old place.old need.old) (P.held pick.old)
        marks.old result
        (work_of order.new place.new need.new) (P.held pick.new)
        marks.new }
    ensures law { IfOk result (LeastCut (R.scheme register.now) (marked marks.new)) }
    ensures gap { result ≡ Err Gains → StillAGap (R.scheme register.now) }
{
    let lengths = [marks.len(), order.len(), place.len(), need.len()];
    ask_ordering(register, pick, &lengths)?;
    let points = register.points();
    let told = make_ordering(register, pick, order, place);
    clear_needs(need, points);
    if told.gain > 0 {
        return Err(CallFault::Gains);
    }
    mark_placed(marks, place, points);
    Ok(Few { register }.capacity(marks))
}

// Marks each of the first `points` points with 1 if it has a place in the order, and with 0 if it has none.
fn mark_placed(marks: &mut [u8], place: &[u16], points: u16)
    requires room { points ≤ length marks.old }
    requires placed { points ≤ length place.now }
    ensures { marks.new
        ≡ written (map (λ v. (if nat_eq (slice_index place.now v) no_point then 0 else 1)) (range_with_len 0 points))
        marks.old }
{
    // by their index: after a loop over `marks.iter_mut().zip(..)` nothing is known of the marks
    for (point, place) in place[..usize::from(points)].iter().enumerate() {
        marks[point] = u8::from(*place != NO_PLACE);
    }
}
