// Rounds until one gains nothing.
ghost use Rattle.std.specs.Prelude.{◌≡◌, List, length, IfOk};
ghost use Rattle.pick.specs.Keys.{size};
ghost use Rattle.flows.specs.RoundsTold.{Gainful};
ghost use Rattle.solver.specs.Calls.{SettleDoes, SettleWorks};
ghost use Rattle.solver.specs.Laws.{SettleKeeps};
ghost use Rattle.solver.specs.Ready.{Ready};
ghost use Rattle.solver.specs.Work.{work_of};

use crate::answers::Settled;
use crate::asking::ask_ordering;
use crate::rounds::make_round;
use pick::Pick;
use scheme::{Book, CallFault, Few};

// Repeats rounds, each on the flows that the one before it left, until one gains 0. Answers the value of the flow that
// it leaves, and how many rounds gained.
pub fn settle<B: Book, P: Pick>(
    book: &mut B,
    pick: &mut P,
    order: &mut [u16],
    place: &mut [u16],
    need: &mut [u64],
) -> Result<Settled, CallFault>
    ensures does { (rounds : List Gainful) × SettleDoes (B.scheme book.old)
        (work_of order.old place.old need.old) (P.held pick.old)
        rounds result (B.scheme book.new)
        (work_of order.new place.new need.new) (P.held pick.new) }
    ensures law { IfOk result (λ told. SettleKeeps
        (B.scheme book.old) (B.scheme book.new) told.value) }
    ensures kept { B.kept book.new ≡ B.kept book.old }
{
    ask_ordering(book, pick, &[order.len(), place.len(), need.len()])?;
    let rounds = settle_rounds(book, pick, order, place, need);
    let value = Few { register: &*book }.value();
    Ok(Settled { value, rounds })
}

// The rounds of a settle on a book and with tables and a pick that were asked for it; answers how many gained.
fn settle_rounds<B: Book, P: Pick>(
    book: &mut B,
    pick: &mut P,
    order: &mut [u16],
    place: &mut [u16],
    need: &mut [u64],
) -> u64
    requires { Ready (B.scheme book.old)
        (work_of order.old place.old need.old) (P.held pick.old) }
    ensures works { (rounds : List Gainful) × (result ≡ length rounds)
        × SettleWorks (B.scheme book.old)
        (work_of order.old place.old need.old) rounds
        (B.scheme book.new)
        (work_of order.new place.new need.new) }
    ensures size { size (P.held pick.new) ≡ size (P.held pick.old) }
    ensures kept { B.kept book.new ≡ B.kept book.old }
{
    let mut rounds = 0;
    while make_round(book, pick, order, place, need).gain > 0 {
        rounds += 1;
    }
    rounds
}
