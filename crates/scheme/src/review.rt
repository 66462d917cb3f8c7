// The review of a published side: is the flow lawful, and does the side prove it greatest?
ghost use Rattle.std.specs.Prelude.{◌≡◌, ◌<◌, true, cond, ◌&&◌, length, is_ok, IfOk, IfSome, Some, None, Decides, nat_le};
ghost use Rattle.std.specs.List.{slice_get};
ghost use Rattle.std.specs.Option.{option_map};
ghost use Rattle.scheme.specs.Bounds.{most_reaches};
ghost use Rattle.scheme.specs.Flow.{value, capacity};
ghost use Rattle.scheme.specs.Marks.{marked, sided, tight, Pinch, ReviewDecides, check_questions};
ghost use Rattle.scheme.specs.Questions.{first_no, book_questions, shaped};
ghost use Rattle.scheme.specs.SideLaws.{Meet};
ghost use Rattle.scheme.specs.Refusals.{call_refusal, refusal_of};
ghost use Rattle.scheme.specs.Sums.{leaving, short, IsSmall, IsWithin};

use crate::faults::CallFault;
use crate::few::{Few, gain};
use crate::questions::{ask_book, is_shaped};
use crate::registers::Register;
use crate::rows::reach_of;

// The value of the flow, signed.
pub fn value_of<R: Register>(register: &R) -> Result<i64, CallFault>
    ensures answer { refusal_of call_refusal result ≡ first_no (book_questions (R.scheme register.now)) }
    ensures value { IfOk result (λ z. z ≡ value (R.scheme register.now)) }
{
    ask_book(register)?;
    Ok(Few { register }.value())
}

// The value of the flow with no question put first; nothing where there are more reaches than a well-formed register
// has, since their sum might not fit.
pub fn value_unasked<R: Register>(register: &R) -> Option<i64>
    ensures { result ≡ cond (nat_le (length (R.scheme register.now).reaches) most_reaches)
        (Some (value (R.scheme register.now))) None }
{
    Some(Few::of(register)?.value())
}

// The capacity of the points that are marked with 1, whatever the marks; nothing where there are more reaches than a
// well-formed register has.
pub fn capacity_unasked<R: Register>(register: &R, marks: &[u8]) -> Option<u64>
    ensures { result ≡ cond (nat_le (length (R.scheme register.now).reaches) most_reaches)
        (Some (capacity (R.scheme register.now) (marked marks.now))) None }
{
    Some(Few::of(register)?.capacity(marks))
}

// Reviews a list of marks, one for each point: 1 for a point of the side, 0 for any other.
pub fn check<R: Register>(register: &R, marks: &[u8]) -> Result<(), CallFault>
    ensures answer { refusal_of call_refusal result
        ≡ first_no (check_questions (R.scheme register.now) marks.now) }
    ensures law { ReviewDecides (R.scheme register.now) marks.now (is_ok result) }
    ensures accepts { Decides (is_ok result) (Pinch (R.scheme register.now) marks.now) }
    ensures greatest { is_ok result ≡ true → Meet (R.scheme register.now) (marked marks.now) }
{
    ask_book(register)?;
    if !is_side(register, marks) {
        return Err(CallFault::NoSide);
    }
    if !(Few { register }).is_tight(marks) {
        return Err(CallFault::NotTight);
    }
    Ok(())
}

// Has the register a shape that is allowed, and are the marks a side of it? Nothing is asked of its reaches.
pub fn is_side_of_shaped<R: Register>(register: &R, marks: &[u8]) -> bool
    ensures { result ≡ (shaped (R.scheme register.now)
        && sided (R.scheme register.now) marks.now) }
{
    is_shaped(register) && is_side(register, marks)
}

// Is there a mark for each point, and does each fit? The loop goes over the marks with their index and stops at the first that
// does not, as docs/DECISIONS.md has it.
fn is_side<R: Register>(register: &R, marks: &[u8]) -> bool
    requires inlet_is_point { (R.scheme register.now).inlet < (R.scheme register.now).points }
    requires outlet_is_point { (R.scheme register.now).outlet < (R.scheme register.now).points }
    ensures { result ≡ sided (R.scheme register.now) marks.now }
{
    let inlet = usize::from(register.inlet());
    let outlet = usize::from(register.outlet());
    if marks.len() != usize::from(register.points()) {
        return false;
    }
    for (point, mark) in marks.iter().enumerate() {
        if *mark > 1 || (point == inlet && *mark == 0) || (point == outlet && *mark == 1) {
            return false;
        }
    }
    true
}

impl<R: Register> Few<'_, R> {
    // The limits of the reaches that leave the points that are marked with 1, together.
    pub fn capacity(&self, marks: &[u8]) -> u64
        ensures { result ≡ capacity (R.scheme self.now.register.now) (marked marks.now) }
    {
        let register = self.register;
        self.sum(|reach| leaving_of(register, reach, marks)) as u64
    }

    // Is the value of the flow the capacity of the marked points?
    fn is_tight(&self, marks: &[u8]) -> bool
        ensures { result ≡ tight (R.scheme self.now.register.now) marks.now }
    {
        let register = self.register;
        let inlet = register.inlet();
        self.sum(|reach| short_of(register, reach, inlet, marks)) == 0
    }
}

// What a reach adds to the capacity of the marked points. This and what a reach takes out of a point read just the fields that
// they need, so they are two.
fn leaving_of<R: Register>(register: &R, reach: usize, marks: &[u8]) -> Option<i64>
    ensures leaving { result
        ≡ option_map (leaving (marked marks.now)) (slice_get (R.scheme register.now).reaches reach) }
    ensures small { IfSome result IsSmall }
{
    let tail = register.tail(reach)?;
    let head = register.head(reach)?;
    Some(leaving(marks, tail, head, register.limit(reach)?))
}

// What a reach adds to the value of the flow less what it adds to the capacity.
fn short_of<R: Register>(register: &R, reach: usize, inlet: u16, marks: &[u8]) -> Option<i64>
    ensures short { result
        ≡ option_map (short inlet (marked marks.now)) (slice_get (R.scheme register.now).reaches reach) }
    ensures small { IfSome result IsSmall }
{
    let row = reach_of(register, reach)?;
    Some(gain(inlet, row.tail, row.head, row.flow) - leaving(marks, row.tail, row.head, row.limit))
}

// The limit of a reach between these points, if it leaves the marked ones.
fn leaving(marks: &[u8], tail: u16, head: u16, limit: u32) -> i64
    ensures leaving { result
        ≡ leaving (marked marks.now) (record { tail = tail; head = head; limit = limit; flow = 0 }) }
    ensures small { IsWithin u32.MAX result }
{
    if is_marked(marks, tail) && !is_marked(marks, head) {
        i64::from(limit)
    } else {
        0
    }
}

fn is_marked(marks: &[u8], point: u16) -> bool
    ensures { result ≡ marked marks.now point }
{
    marks.get(usize::from(point)) == Some(&1)
}
