// The calls that need no ordering: open, limit and value.
ghost use Rattle.std.specs.Prelude.{◌≡◌, IfOk, slice_index_or};
ghost use Rattle.std.specs.List.{slice_get};
ghost use Rattle.std.specs.Option.{option_map};
ghost use Rattle.scheme.specs.Questions.{first_no};
ghost use Rattle.scheme.specs.Refusals.{call_refusal, refusal_of};
ghost use Rattle.scheme.specs.Scheme.{no_reach};
ghost use Rattle.solver.specs.Calls.{OpenDoes, LimitDoes, ValueDoes, limit_questions};

use crate::answers::Opened;
use scheme::questions::GREATEST_LIMIT;
use scheme::{Book, CallFault, Register, ask_book, ask_form, clear_flows, value_of};

// Writes flow 0 into every reach of a well-formed book, and answers how many points and reaches it has.
pub fn open<B: Book>(book: &mut B) -> Result<Opened, CallFault>
    ensures does { OpenDoes (B.scheme book.old) result (B.scheme book.new) }
    ensures kept { B.kept book.new ≡ B.kept book.old }
{
    ask_form(book)?;
    clear_flows(book);
    Ok(Opened {
        points: book.points(),
        reaches: book.reaches(),
    })
}

// Writes a new limit into one reach, and answers the old one.
pub fn limit<B: Book>(book: &mut B, reach: usize, limit: u32) -> Result<u32, CallFault>
    ensures does { LimitDoes (B.scheme book.old) reach limit
        result (B.scheme book.new) }
    ensures kept { B.kept book.new ≡ B.kept book.old }
{
    let old = ask_limit(book, reach, limit)?;
    book.set_limit(reach, limit)?;
    Ok(old)
}

// What is asked before a limit is changed; the answer is the old limit.
fn ask_limit<R: Register>(register: &R, reach: usize, limit: u32) -> Result<u32, CallFault>
    ensures answer { refusal_of call_refusal result
        ≡ first_no (limit_questions (R.scheme register.now) reach limit) }
    ensures old { IfOk result (λ x. x ≡ (slice_index_or (R.scheme register.now).reaches reach no_reach).limit) }
{
    ask_book(register)?;
    let Some((old, flow)) = limit_and_flow(register, reach) else {
        return Err(CallFault::NoSuchReach);
    };
    if limit > GREATEST_LIMIT {
        return Err(CallFault::LimitTooGreat);
    }
    if limit < flow {
        return Err(CallFault::LimitUnderFlow);
    }
    Ok(old)
}

fn limit_and_flow<R: Register>(register: &R, reach: usize) -> Option<(u32, u32)>
    ensures { result ≡ option_map (λ r. (r.limit, r.flow)) (slice_get (R.scheme register.now).reaches reach) }
{
    Some((register.limit(reach)?, register.flow(reach)?))
}

// Answers the value of the flow, signed.
pub fn value<R: Register>(register: &R) -> Result<i64, CallFault>
    ensures { ValueDoes (R.scheme register.now) result }
{
    value_of(register)
}
