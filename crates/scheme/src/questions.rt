// The questions put to a register. The first answered no is the refusal.
ghost use Rattle.std.specs.Prelude.{◌≡◌, ◌⊎◌, pos, is_ok, Decides};
ghost use Rattle.std.specs.List.{slice_get};
ghost use Rattle.std.specs.Option.{option_map};
ghost use Rattle.scheme.specs.Flow.{Lawful};
ghost use Rattle.scheme.specs.Refusals.{book_refusal, refusal_of};
ghost use Rattle.scheme.specs.Questions.{first_no, form_questions, book_questions, shaped, joins, carries, steady, first_fail, first_point, WellFormed};

use crate::faults::BookFault;
use crate::few::{Few, gain_of};
use crate::registers::Register;

pub const MOST_POINTS: u16 = 512;

pub const MOST_REACHES: usize = 8_192;

pub const GREATEST_LIMIT: u32 = 1_000_000;

// What is asked before a book is opened: is it well formed?
pub fn ask_form<R: Register>(register: &R) -> Result<(), BookFault>
    ensures answer { refusal_of book_refusal result ≡ first_no (form_questions (R.scheme register.now)) }
    ensures law { Decides (is_ok result) (WellFormed (R.scheme register.now)) }
{
    if !is_shaped(register) {
        return Err(BookFault::Shape);
    }
    if let Some(reach) = first_loose(register) {
        return Err(BookFault::Ends(reach));
    }
    Ok(())
}

// What is asked of a book that has a flow: is it well formed, and is the flow lawful?
pub fn ask_book<R: Register>(register: &R) -> Result<(), BookFault>
    ensures answer { refusal_of book_refusal result ≡ first_no (book_questions (R.scheme register.now)) }
    ensures law { Decides (is_ok result) (WellFormed (R.scheme register.now) × Lawful (R.scheme register.now)) }
{
    ask_form(register)?;
    if let Some(reach) = first_over(register) {
        return Err(BookFault::Over(reach));
    }
    if let Some(point) = first_unbalanced(&Few { register }) {
        return Err(BookFault::Unbalanced(point));
    }
    Ok(())
}

// Are there from 2 to 512 points and at most 8,192 reaches, and are inlet and outlet two different points?
pub fn is_shaped<R: Register>(register: &R) -> bool
    ensures { result ≡ shaped (R.scheme register.now) }
{
    let points = register.points();
    let inlet = register.inlet();
    let outlet = register.outlet();
    points >= 2
        && points <= MOST_POINTS
        && register.reaches() <= MOST_REACHES
        && inlet < points
        && outlet < points
        && inlet != outlet
}

// The first reach that does not join two points as it should.
fn first_loose<R: Register>(register: &R) -> Option<usize>
    ensures { result ≡ first_fail (joins (R.scheme register.now)) 0 (R.scheme register.now).reaches }
{
    (0..register.reaches()).find(|reach| reach_joins(register, *reach) == Some(false))
}

// Are the ends of a reach two different points, and is its limit one that is allowed?
fn reach_joins<R: Register>(register: &R, reach: usize) -> Option<bool>
    ensures { result ≡ option_map (joins (R.scheme register.now)) (slice_get (R.scheme register.now).reaches reach) }
{
    let points = register.points();
    let tail = register.tail(reach)?;
    let head = register.head(reach)?;
    let limit = register.limit(reach)?;
    Some(tail < points && head < points && tail != head && limit <= GREATEST_LIMIT)
}

// The first reach that carries more than its limit.
fn first_over<R: Register>(register: &R) -> Option<usize>
    ensures { result ≡ first_fail carries 0 (R.scheme register.now).reaches }
{
    (0..register.reaches()).find(|reach| reach_carries(register, *reach) == Some(false))
}

fn reach_carries<R: Register>(register: &R, reach: usize) -> Option<bool>
    ensures { result ≡ option_map carries (slice_get (R.scheme register.now).reaches reach) }
{
    Some(register.flow(reach)? <= register.limit(reach)?)
}

// May this point stand: is it inlet or outlet, or does it balance?
fn point_stands(point: u16, inlet: u16, outlet: u16, gain: i64) -> bool
    ensures { Decides result ((point ≡ inlet) ⊎ ((point ≡ outlet) ⊎ (gain ≡ pos 0))) }
{
    point == inlet || point == outlet || gain == 0
}

// The first inner point whose inflow is not its outflow: nested loops, left by the label at that point, as docs/DECISIONS.md has
// it.
fn first_unbalanced<R: Register>(few: &Few<'_, R>) -> Option<u16>
    ensures { result ≡ first_point (steady (R.scheme few.now.register.now)) 0 (R.scheme few.now.register.now).points }
{
    let register = few.register;
    let points = register.points();
    let count = register.reaches();
    let inlet = register.inlet();
    let outlet = register.outlet();
    let mut found = None;
    // both loops stand here, so that their label leaves them at the first such point
    'points: for point in 0..points {
        let mut gain = 0;
        for reach in 0..count {
            // every reach below `count` is in the list
            gain += gain_of(register, reach, point).unwrap_or(0);
        }
        if !point_stands(point, inlet, outlet, gain) {
            found = Some(point);
            break 'points;
        }
    }
    found
}
