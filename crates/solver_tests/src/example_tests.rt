// The example of four points, call by call, over a table and over a file in place, with either pick.
use crate::desks::{begins_with, cuts, flows_are, make_desk};
use crate::examples::noted_file;
use pick::{Pick, Scan};
use scheme::{Book, CallFault};
use scheme_file::{SchemeFile, read};
use solver::answers::{Opened, Rounded, Settled};
use solver::desks::Desk;
use solver::{limit, open, value};
use std::process::Abort;
use std::test::*;
use worked_examples::example;

// Two rounds gain 5 and 3; cut refuses before the second.
fn rounds<B: Book, P: Pick>(rt: &impl Abort, book: &mut B, desk: &mut Desk<P>) -> Result<(), Fail> {
    assert_eq!(rt;
        open(book),
        Ok(Opened {
            points: 4,
            reaches: 5,
        })
    );
    assert_eq!(rt; desk.round(book), Ok(Rounded { gain: 5, length: 4 }));
    flows_are(rt, book, &[2, 3, 0, 2, 3])?;
    begins_with(rt, desk.order.as_slice(), &[0, 1, 2, 3])?;
    begins_with(rt, desk.place.as_slice(), &[0, 1, 2, 3])?;
    begins_with(rt, desk.need.as_slice(), &[5, 0, 0, 0])?;
    assert_eq!(rt; desk.cut(book), Err(CallFault::Gains));
    begins_with(rt, desk.need.as_slice(), &[0, 0, 0, 0])?;
    assert_eq!(rt; desk.round(book), Ok(Rounded { gain: 3, length: 4 }));
    flows_are(rt, book, &[4, 4, 2, 2, 6])?;
    assert_eq!(rt; value(book), Ok(8));
    Ok(())
}

// The last round made the order 0 1 2; the 3 behind it comes from an earlier one.
fn settled<B: Book, P: Pick>(
    rt: &impl Abort,
    book: &mut B,
    desk: &mut Desk<P>,
) -> Result<(), Fail> {
    open(book)?;
    assert_eq!(rt;
        desk.settle(book),
        Ok(Settled {
            value: 8,
            rounds: 2,
        })
    );
    flows_are(rt, book, &[4, 4, 2, 2, 6])?;
    begins_with(rt, desk.order.as_slice(), &[0, 1, 2, 3])?;
    begins_with(rt, desk.place.as_slice(), &[0, 1, 2, 65_535])?;
    begins_with(rt, desk.need.as_slice(), &[0, 0, 0, 0])?;
    cuts(rt, desk, book, 8, &[1, 1, 1, 0])
}

// On the settled example: limit 5 on the last reach is under its flow, 6 is taken, and 7 makes room for one round.
fn widened<B: Book, P: Pick>(
    rt: &impl Abort,
    book: &mut B,
    desk: &mut Desk<P>,
) -> Result<(), Fail> {
    assert_eq!(rt; limit(book, 4, 5), Err(CallFault::LimitUnderFlow));
    assert_eq!(rt; limit(book, 4, 6), Ok(6));
    assert_eq!(rt; limit(book, 4, 7), Ok(6));
    assert_eq!(rt;
        desk.settle(book),
        Ok(Settled {
            value: 9,
            rounds: 1,
        })
    );
    flows_are(rt, book, &[5, 4, 3, 2, 7])?;
    cuts(rt, desk, book, 9, &[1, 0, 0, 0])
}

fn all<B: Book, P: Pick>(rt: &impl Abort, book: &mut B, desk: &mut Desk<P>) -> Result<(), Fail> {
    rounds(rt, book, desk)?;
    settled(rt, book, desk)?;
    widened(rt, book, desk)
}

#[test]
fn over_a_table(rt: HostRuntime) -> Result<(), Fail> {
    let heap = rt.alloc();
    all(
        &rt,
        &mut example(heap)?,
        &mut make_desk(heap, Scan::new(), 6)?,
    )
}

// Afterwards the note and the head are as they were, and the flows and the one limit are the file's.
#[test]
fn over_a_file(rt: HostRuntime) -> Result<(), Fail> {
    let heap = rt.alloc();
    let mut bytes = noted_file();
    let found = read(&bytes)?;
    let mut file = SchemeFile::lend(&mut bytes, found);
    all(&rt, &mut file, &mut make_desk(heap, Scan::new(), 6)?)?;
    let mut want = noted_file();
    want[70] = 7;
    for (at, flow) in [(26, 5), (38, 4), (50, 3), (62, 2), (74, 7)] {
        want[at] = flow;
    }
    assert_eq!(rt; bytes.as_slice(), want.as_slice());
    Ok(())
}
