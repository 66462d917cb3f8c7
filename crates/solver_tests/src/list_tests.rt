// A list of calls, each with its own tables and pick, run as one.
use pick::Scan;
use scheme::CallFault;
use solver::answers::{Opened, Rounded, Settled};
use solver::asks::{Answer, Ask, Call};
use solver::desks::Desk;
use solver::replay;
use std::alloc::{AllocError, Global};
use std::test::*;
use worked_examples::example;

fn ask(heap: Global, call: Call) -> Result<Ask<Scan>, AllocError> {
    Ok(Ask {
        call,
        desk: Desk {
            order: vec![in heap; 0; 4]?,
            place: vec![in heap; 0; 4]?,
            need: vec![in heap; 0; 4]?,
            marks: vec![in heap; 0; 4]?,
            pick: Scan::new(),
        },
        answer: None,
    })
}

const OPENED: Opened = Opened {
    points: 4,
    reaches: 5,
};

fn settled(value: i64, rounds: u64) -> Result<Answer, CallFault> {
    Ok(Answer::OfSettle(Settled { value, rounds }))
}

fn rounded(gain: u64, length: usize) -> Result<Answer, CallFault> {
    Ok(Answer::OfRound(Rounded { gain, length }))
}

// Accepted and refused calls in one list; each keeps its answer.
#[test]
fn a_list_of_calls(rt: HostRuntime) -> Result<(), Fail> {
    let heap = rt.alloc();
    let widen = Call::Limit { reach: 4, limit: 7 };
    let nowhere = Call::Limit { reach: 9, limit: 1 };
    let list = [
        (nowhere, Err(CallFault::NoSuchReach)),
        (Call::Round, rounded(5, 4)),
        (Call::Cut, Err(CallFault::Gains)),
        (Call::Settle, settled(8, 1)),
        (Call::Cut, Ok(Answer::OfCut(8))),
        (widen, Ok(Answer::OfLimit(6))),
        (Call::Settle, settled(9, 1)),
        (Call::Cut, Ok(Answer::OfCut(9))),
        (Call::Value, Ok(Answer::OfValue(9))),
        (Call::Open, Ok(Answer::OfOpen(OPENED))),
        (Call::Value, Ok(Answer::OfValue(0))),
    ];
    let mut asks = Vec::new(heap);
    for (call, _) in list {
        asks.push(ask(heap, call)?)?;
    }
    assert_eq!(rt;
        replay(&mut example(heap)?, asks.as_mut_slice()),
        Ok(OPENED)
    );
    for (ask, (_, want)) in asks.iter().zip(list.iter()) {
        assert_eq!(rt; ask.answer, Some(*want));
    }
    Ok(())
}
