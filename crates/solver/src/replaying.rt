// The run of a list of calls.
ghost use Rattle.std.specs.Prelude.{◌≡◌, map, OnErr};
ghost use Rattle.solver.specs.Answered.{Answered, Stepped};
ghost use Rattle.solver.specs.History.{Replayed, view_of};
ghost use Rattle.solver.specs.declared.asks.Call.TheVariants.{Open, Limit, Round, Settle, Value, Cut};

use crate::answers::Opened;
use crate::asks::{Answer, Ask, Call};
use crate::opening::{limit, open, value};
use pick::Pick;
use scheme::{Book, CallFault};

// Opens the book and makes the calls one after another, whatever each answers; an answer that stood beside a call gives way
// to the new one.
pub fn replay<B: Book, P: Pick>(book: &mut B, asks: &mut [Ask<P>]) -> Result<Opened, CallFault>
    ensures does { Replayed (B.scheme book.old)
        (map (view_of P.held) asks.old) result
        (B.scheme book.new) (map (view_of P.held) asks.new) }
    ensures unopened { OnErr result (asks.new ≡ asks.old) }
    ensures kept { B.kept book.new ≡ B.kept book.old }
{
    let told = open(book)?;
    for ask in asks.iter_mut() {
        make_call(book, ask);
    }
    Ok(told)
}

// Makes one call, and puts its answer beside it.
fn make_call<B: Book, P: Pick>(book: &mut B, ask: &mut Ask<P>)
    ensures does { Stepped (B.scheme book.old) (view_of P.held ask.old)
        (B.scheme book.new) (view_of P.held ask.new) }
    ensures kept { B.kept book.new ≡ B.kept book.old }
{
    let answer = answer_call(book, ask);
    ask.answer = Some(answer);
}

// Makes one call. A list of calls is data, so which call it is is asked here; the match is the last step, so that what
// was done in an arm is not lost where the arms meet.
fn answer_call<B: Book, P: Pick>(book: &mut B, ask: &mut Ask<P>) -> Result<Answer, CallFault>
    ensures does { Answered ask.old.call
        (B.scheme book.old) (view_of P.held ask.old) result
        (B.scheme book.new) (view_of P.held ask.new) }
    ensures kept { B.kept book.new ≡ B.kept book.old }
{
    match ask.call {
        Call::Open => call_open(book, ask),
        Call::Limit { reach, limit } => call_limit(book, ask, reach, limit),
        Call::Round => call_round(book, ask),
        Call::Settle => call_settle(book, ask),
        Call::Value => call_value(book, ask),
        Call::Cut => call_cut(book, ask),
    }
}

// Each call is a function, whose clause is the case of `Answered` that it makes true.
fn call_open<B: Book, P: Pick>(book: &mut B, ask: &Ask<P>) -> Result<Answer, CallFault>
    ensures does { Answered Open
        (B.scheme book.old) (view_of P.held ask.now) result
        (B.scheme book.new) (view_of P.held ask.now) }
    ensures kept { B.kept book.new ≡ B.kept book.old }
{
    open(book).map(Answer::OfOpen)
}

fn call_limit<B: Book, P: Pick>(
    book: &mut B,
    ask: &Ask<P>,
    reach: usize,
    most: u32,
) -> Result<Answer, CallFault>
    ensures does { Answered (Limit reach most)
        (B.scheme book.old) (view_of P.held ask.now) result
        (B.scheme book.new) (view_of P.held ask.now) }
    ensures kept { B.kept book.new ≡ B.kept book.old }
{
    limit(book, reach, most).map(Answer::OfLimit)
}

fn call_round<B: Book, P: Pick>(book: &mut B, ask: &mut Ask<P>) -> Result<Answer, CallFault>
    ensures does { Answered Round
        (B.scheme book.old) (view_of P.held ask.old) result
        (B.scheme book.new) (view_of P.held ask.new) }
    ensures kept { B.kept book.new ≡ B.kept book.old }
{
    ask.desk.round(book).map(Answer::OfRound)
}

fn call_settle<B: Book, P: Pick>(book: &mut B, ask: &mut Ask<P>) -> Result<Answer, CallFault>
    ensures does { Answered Settle
        (B.scheme book.old) (view_of P.held ask.old) result
        (B.scheme book.new) (view_of P.held ask.new) }
    ensures kept { B.kept book.new ≡ B.kept book.old }
{
    ask.desk.settle(book).map(Answer::OfSettle)
}

fn call_value<B: Book, P: Pick>(book: &B, ask: &Ask<P>) -> Result<Answer, CallFault>
    ensures { Answered Value
        (B.scheme book.now) (view_of P.held ask.now) result
        (B.scheme book.now) (view_of P.held ask.now) }
{
    value(book).map(Answer::OfValue)
}

fn call_cut<B: Book, P: Pick>(book: &B, ask: &mut Ask<P>) -> Result<Answer, CallFault>
    ensures { Answered Cut
        (B.scheme book.now) (view_of P.held ask.old) result
        (B.scheme book.now) (view_of P.held ask.new) }
{
    ask.desk.cut(book).map(Answer::OfCut)
}
