// What is asked before an ordering is made: of the book, of the tables, and of the pick.
ghost use Rattle.std.specs.Prelude.{◌≡◌, MatchResult};
ghost use Rattle.scheme.specs.Questions.{first_no};
ghost use Rattle.scheme.specs.Refusals.{call_refusal, refusal_of};
ghost use Rattle.pick.specs.Keys.{size};
ghost use Rattle.pick.specs.Calls.{started};
ghost use Rattle.solver.specs.Calls.{hold_all, ordering_questions};

use pick::Pick;
use scheme::{CallFault, Register, ask_book};

// Asks all that is asked before an ordering, with tables of these lengths. Whether the pick holds the points is asked
// by starting it for them.
pub(crate) fn ask_ordering<R: Register, P: Pick>(
    register: &R,
    pick: &mut P,
    lengths: &[usize],
) -> Result<(), CallFault>
    ensures answer { refusal_of call_refusal result
        ≡ first_no (ordering_questions (R.scheme register.now)
        (hold_all (R.scheme register.now).points lengths.now) (P.held pick.old)) }
    ensures pick { MatchResult result
        (λ _. P.held pick.new ≡ started (size (P.held pick.old)) (R.scheme register.now).points)
        (λ _. P.held pick.new ≡ P.held pick.old) }
    ensures size { size (P.held pick.new) ≡ size (P.held pick.old) }
{
    ask_book(register)?;
    let points = register.points();
    if !tables_hold(points, lengths) {
        return Err(CallFault::ShortTable);
    }
    pick.start(points)?;
    Ok(())
}

// Does each table, of these lengths, hold an entry for each point?
fn tables_hold(points: u16, lengths: &[usize]) -> bool
    ensures { result ≡ hold_all points lengths.now }
{
    lengths.iter().all(|length| usize::from(points) <= *length)
}
