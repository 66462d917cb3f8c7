// The tables and the pick that come with calls, owned in one place.
ghost use Rattle.std.specs.Prelude.{◌≡◌, IfOk, List, Err, vec_items};
ghost use Rattle.scheme.specs.declared.faults.CallFault.TheVariants.{Gains};
ghost use Rattle.scheme.specs.Marks.{marked};
ghost use Rattle.flows.specs.RoundsTold.{Gainful};
ghost use Rattle.solver.specs.Calls.{RoundDoes, SettleDoes, CutDoes};
ghost use Rattle.solver.specs.Desks.{tables_of};
ghost use Rattle.solver.specs.Laws.{RoundKeeps, SettleKeeps, LeastCut, StillAGap};

use crate::answers::{Rounded, Settled};
use crate::cutting::cut;
use crate::rounds::round;
use crate::settling::settle;
use pick::Pick;
use scheme::{Book, CallFault, Register};

#[derive(Drop)]
pub struct Desk<P> {
    pub order: Vec<u16>,
    pub place: Vec<u16>,
    pub need: Vec<u64>,
    pub marks: Vec<u8>,
    pub pick: P,
}

// The tables are handed over as slices, since the calls take them so (see `round`).
impl<P: Pick> Desk<P> {
    // One round with these tables and this pick. The marks are no part of it.
    pub fn round<B: Book>(&mut self, book: &mut B) -> Result<Rounded, CallFault>
        ensures does { RoundDoes (B.scheme book.old) (tables_of self.old) (P.held self.old.pick)
            result (B.scheme book.new) (tables_of self.new) (P.held self.new.pick) }
        ensures law { IfOk result (λ told. RoundKeeps
            (B.scheme book.old) (B.scheme book.new) told.gain) }
        ensures kept { B.kept book.new ≡ B.kept book.old }
        ensures marks { self.new.marks ≡ self.old.marks }
    {
        round(
            book,
            &mut self.pick,
            self.order.as_mut_slice(),
            self.place.as_mut_slice(),
            self.need.as_mut_slice(),
        )
    }

    // Rounds until one gains nothing, likewise.
    pub fn settle<B: Book>(&mut self, book: &mut B) -> Result<Settled, CallFault>
        ensures does { (rounds : List Gainful) × SettleDoes (B.scheme book.old)
            (tables_of self.old) (P.held self.old.pick)
            rounds result (B.scheme book.new) (tables_of self.new) (P.held self.new.pick) }
        ensures law { IfOk result (λ told. SettleKeeps
            (B.scheme book.old) (B.scheme book.new) told.value) }
        ensures kept { B.kept book.new ≡ B.kept book.old }
        ensures marks { self.new.marks ≡ self.old.marks }
    {
        settle(
            book,
            &mut self.pick,
            self.order.as_mut_slice(),
            self.place.as_mut_slice(),
            self.need.as_mut_slice(),
        )
    }

    // The pinch, marked in these marks.
    pub fn cut<R: Register>(&mut self, register: &R) -> Result<u64, CallFault>
        ensures does { CutDoes (R.scheme register.now)
            (tables_of self.old) (P.held self.old.pick) (vec_items self.old.marks) result
            (tables_of self.new) (P.held self.new.pick) (vec_items self.new.marks) }
        ensures law { IfOk result (LeastCut (R.scheme register.now) (marked (vec_items self.new.marks))) }
        ensures gap { result ≡ Err Gains → StillAGap (R.scheme register.now) }
    {
        cut(
            register,
            &mut self.pick,
            self.order.as_mut_slice(),
            self.place.as_mut_slice(),
            self.need.as_mut_slice(),
            self.marks.as_mut_slice(),
        )
    }
}
