// One round: an ordering, and its gain pushed along it.
ghost use Rattle.std.specs.Prelude.{◌≡◌, IfOk};
ghost use Rattle.pick.specs.Keys.{size};
ghost use Rattle.solver.specs.Calls.{RoundDoes, RoundWorks};
ghost use Rattle.solver.specs.Laws.{RoundKeeps};
ghost use Rattle.solver.specs.Ready.{Ready};
ghost use Rattle.solver.specs.Work.{work_of};

use crate::answers::Rounded;
use crate::asking::ask_ordering;
use crate::ordering::make_ordering;
use crate::pushing::push_gain;
use pick::Pick;
use scheme::{Book, CallFault};

// Makes one round, and answers its gain and the length of its order.
// The three tables stay three slices, in every call: lent as one struct they would be unknown afterwards to a caller that
// owns them as `Vec`s (tried with `&mut`, by value and through a constructor). A `Desk` owns them all.
pub fn round<B: Book, P: Pick>(
    book: &mut B,
    pick: &mut P,
    order: &mut [u16],
    place: &mut [u16],
    need: &mut [u64],
) -> Result<Rounded, CallFault>
    ensures does { RoundDoes (B.scheme book.old)
        (work_of order.old place.old need.old) (P.held pick.old)
        result (B.scheme book.new)
        (work_of order.new place.new need.new) (P.held pick.new) }
    ensures law { IfOk result (λ told. RoundKeeps
        (B.scheme book.old) (B.scheme book.new) told.gain) }
    ensures kept { B.kept book.new ≡ B.kept book.old }
{
    ask_ordering(book, pick, &[order.len(), place.len(), need.len()])?;
    Ok(make_round(book, pick, order, place, need))
}

// A round on a book and with tables and a pick that were asked for it. `Ready` stands as a clause and in no type: in a
// struct that held the book, the pick and the tables with that fact, what the slices held at the end was lost.
pub(crate) fn make_round<B: Book, P: Pick>(
    book: &mut B,
    pick: &mut P,
    order: &mut [u16],
    place: &mut [u16],
    need: &mut [u64],
) -> Rounded
    requires { Ready (B.scheme book.old)
        (work_of order.old place.old need.old) (P.held pick.old) }
    ensures works { RoundWorks (B.scheme book.old)
        (work_of order.old place.old need.old) result.gain result.length
        (B.scheme book.new)
        (work_of order.new place.new need.new) }
    ensures size { size (P.held pick.new) ≡ size (P.held pick.old) }
    ensures kept { B.kept book.new ≡ B.kept book.old }
{
    // the pick holds the points, so it is not refused
    let _ = pick.start(book.points());
    let told = make_ordering(book, pick, order, place);
    push_gain(book, order, place, need, told);
    told
}
