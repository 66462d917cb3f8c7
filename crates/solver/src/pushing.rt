// The push of one round: back through the order, every point asks the earlier ones for the water that it needs.
ghost use Rattle.std.specs.Prelude.{◌≡◌, ℕ, ◌+◌, ◌^◌, ◌<◌, ◌≤◌, cond, ◌&&◌, ◌≢◌, length, replicate, take, if◌then◌else◌, ◌==◌, nat_eq, slice_set};
ghost use Rattle.scheme.specs.Scheme.{over};
ghost use Rattle.flows.specs.Push.{moved, push};
ghost use Rattle.solver.specs.PushSteps.{needs_of, earlier, pushed_at, ReachAsks, pushed_point, PointAsks, OrderAsks, GainAsks};
ghost use Rattle.solver.specs.Work.{supply, written};

use crate::answers::Rounded;
use crate::joining::{next_touching, read_reach};
use scheme::Book;

// Pushes the gain along the order, if there is one: afterwards no point needs anything but the inlet, which has to
// supply the gain. Without one nobody needs anything.
pub(crate) fn push_gain<B: Book>(
    book: &mut B,
    order: &[u16],
    place: &[u16],
    need: &mut [u64],
    told: Rounded,
)
    requires { GainAsks (B.scheme book.old) order.now place.now need.old
        told.gain told.length }
    ensures flows { B.scheme book.new ≡ cond (told.gain == 0)
        (B.scheme book.old)
        (push (B.scheme book.old) (take told.length order.now) told.gain) }
    ensures need { need.new
        ≡ written (supply (B.scheme book.old) told.gain) need.old }
    ensures kept { B.kept book.new ≡ B.kept book.old }
{
    let Rounded { gain, length } = told;
    if gain == 0 {
        clear_needs(need, book.points());
    } else {
        let points = usize::from(book.points());
        let order = &order[..length];
        push_order(book, order, &place[..points], &mut need[..points], gain);
    }
}

// Back through the order, from the outlet to the point after the inlet. The tables are as long as there are points.
fn push_order<B: Book>(book: &mut B, order: &[u16], place: &[u16], need: &mut [u64], gain: u64)
    requires { OrderAsks (B.scheme book.old) order.now place.now need.old gain }
    ensures flows { B.scheme book.new
        ≡ push (B.scheme book.old) order.now gain }
    ensures needs { need.new ≡ supply (B.scheme book.old) gain }
    ensures kept { B.kept book.new ≡ B.kept book.old }
{
    first_needs(need, book.outlet(), gain);
    for point in order[1..].iter().rev() {
        push_point(book, place, need, *point);
    }
}

// The outlet needs the gain, and every other point 0.
fn first_needs(need: &mut [u64], outlet: u16, gain: u64)
    requires { outlet < length need.old }
    ensures { (w : ℕ) → needs_of need.new w ≡ (if nat_eq outlet w then gain else 0) }
{
    need.fill(0);
    need[usize::from(outlet)] = gain;
}

// Nobody needs anything: 0 at each of the first `points` points. It is not one function with the clearing of places: of
// a clone at a type parameter it is not known that it is the same number.
pub(crate) fn clear_needs(need: &mut [u64], points: u16)
    requires { points ≤ length need.old }
    ensures { need.new ≡ written (replicate points 0) need.old }
{
    need[..usize::from(points)].fill(0);
}

// The point asks along all its reaches, in number order.
fn push_point<B: Book>(book: &mut B, place: &[u16], need: &mut [u64], point: u16)
    requires { PointAsks (B.scheme book.old) place.now need.old point }
    ensures flows { B.scheme book.new ≡ over (B.scheme book.old)
        (pushed_point (B.scheme book.old) place.now need.old point).0 }
    ensures needs { needs_of need.new
        ≡ (pushed_point (B.scheme book.old) place.now need.old point).1 }
    ensures kept { B.kept book.new ≡ B.kept book.old }
{
    let mut from = 0;
    while let Some(reach) = next_touching(&*book, point, from) {
        push_reach(book, place, need, point, reach);
        from = reach + 1;
    }
}

// The point asks along one reach, if that joins it with an earlier point: it gets the smaller of what it still needs
// and what is left along the reach towards it. (Two arms, since the flow rises in the one and falls in the other.)
fn push_reach<B: Book>(book: &mut B, place: &[u16], need: &mut [u64], point: u16, reach: usize)
    requires { ReachAsks (B.scheme book.old) place.now need.old point reach }
    ensures flows { B.scheme book.new ≡ over (B.scheme book.old)
        (slice_set (B.scheme book.old).reaches reach
        (pushed_at (B.scheme book.old) place.now need.old point reach).0) }
    ensures needs { needs_of need.new
        ≡ (pushed_at (B.scheme book.old) place.now need.old point reach).1 }
    ensures kept { B.kept book.new ≡ B.kept book.old }
{
    let row = read_reach(&*book, reach);
    if comes_from_earlier(place, point, row.head, row.tail) {
        let taken = need[usize::from(point)].min(u64::from(row.limit - row.flow)) as u32;
        move_need(need, point, row.tail, taken);
        // the reach is in the list, so no write is refused
        let _ = book.set_flow(reach, row.flow + taken);
    } else if comes_from_earlier(place, point, row.tail, row.head) {
        let taken = need[usize::from(point)].min(u64::from(row.flow)) as u32;
        move_need(need, point, row.head, taken);
        let _ = book.set_flow(reach, row.flow - taken);
    }
}

// Is this end the point, and the other end an earlier one?
fn comes_from_earlier(place: &[u16], point: u16, end: u16, other: u16) -> bool
    requires { (point < length place.now) × (other < length place.now) }
    ensures { result ≡ (end == point && earlier place.now point other) }
{
    end == point && place[usize::from(other)] < place[usize::from(point)]
}

// An amount that the point needed is now needed at another.
fn move_need(need: &mut [u64], point: u16, other: u16, amount: u32)
    requires inside { (point < length need.old) × (other < length need.old) }
    requires apart { point ≢ other }
    requires enough { amount ≤ needs_of need.old point }
    requires fits { needs_of need.old other + amount < 2 ^ 64 }
    ensures { needs_of need.new ≡ moved amount point other (needs_of need.old) }
{
    need[usize::from(point)] -= u64::from(amount);
    need[usize::from(other)] += u64::from(amount);
}
