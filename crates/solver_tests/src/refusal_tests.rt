// Each refusal at its bound and in its turn, with book, tables and pick as they were.
use crate::desks::{begins_with, flows_are, make_desk};
use pick::{Pick, Scan};
use scheme::{CallFault, Layer, Reach, Refusal, Table};
use solver::desks::Desk;
use solver::{limit, open};
use std::process::Abort;
use std::test::*;
use worked_examples::{example, table};

// A reach with more flow than its limit.
const OVER: Reach = Reach {
    tail: 0,
    head: 1,
    limit: 1,
    flow: 2,
};

// As in the tests of `scheme`, which lie below any crate that could share it.
fn told<X: Drop>(answer: Result<X, CallFault>) -> Option<Refusal> {
    answer.err().map(Refusal::from)
}

fn refused(layer: Layer, number: u16, place: usize) -> Option<Refusal> {
    Some(Refusal {
        layer,
        number,
        place,
    })
}

// Nothing was written into a table, and the pick still holds the one point that it was given.
fn untouched(rt: &impl Abort, desk: &mut Desk<Scan>) -> Result<(), Fail> {
    begins_with(rt, desk.order.as_slice(), &[])?;
    begins_with(rt, desk.place.as_slice(), &[])?;
    begins_with(rt, desk.need.as_slice(), &[])?;
    begins_with(rt, desk.marks.as_slice(), &[])?;
    assert_eq!(rt; desk.pick.take(), Some((1, 3)));
    given_a_point(desk)
}

fn given_a_point(desk: &mut Desk<Scan>) -> Result<(), Fail> {
    desk.pick.start(2)?;
    desk.pick.raise(1, 3)?;
    Ok(())
}

// Round, settle and cut refuse alike.
fn refuse(
    rt: &impl Abort,
    book: &mut Table,
    desk: &mut Desk<Scan>,
    want: Option<Refusal>,
) -> Result<(), Fail> {
    assert_eq!(rt; told(desk.round(book)), want);
    untouched(rt, desk)?;
    assert_eq!(rt; told(desk.settle(book)), want);
    untouched(rt, desk)?;
    assert_eq!(rt; told(desk.cut(book)), want);
    untouched(rt, desk)
}

// The book is asked first, then the tables.
#[test]
fn books_and_tables(rt: HostRuntime) -> Result<(), Fail> {
    let heap = rt.alloc();
    let mut short = make_desk(heap, Scan::new(), 1)?;
    given_a_point(&mut short)?;
    let mut bad = Table::new(1, 0, 1, Vec::new(heap));
    refuse(&rt, &mut bad, &mut short, refused(Layer::Book, 6, 0))?;
    let mut loose = table(heap, 2, 0, 1, &[(0, 1, 1), (0, 0, 1)])?;
    refuse(&rt, &mut loose, &mut short, refused(Layer::Book, 7, 1))?;
    let mut full = Table::new(2, 0, 1, vec![in heap; OVER]?);
    refuse(&rt, &mut full, &mut short, refused(Layer::Book, 8, 0))?;
    let mut good = example(heap)?;
    refuse(&rt, &mut good, &mut short, refused(Layer::Call, 10, 0))?;
    flows_are(&rt, &good, &[0, 0, 0, 0, 0])
}

// Each table alone one entry short; the marks are cut's alone.
#[test]
fn one_entry_short(rt: HostRuntime) -> Result<(), Fail> {
    let heap = rt.alloc();
    let mut book = example(heap)?;
    let mut desk = make_desk(heap, Scan::new(), 4)?;
    given_a_point(&mut desk)?;
    let _ = desk.marks.pop();
    assert_eq!(rt; told(desk.cut(&book)), refused(Layer::Call, 10, 0));
    untouched(&rt, &mut desk)?;
    let _ = desk.need.pop();
    assert_eq!(rt; told(desk.round(&mut book)), refused(Layer::Call, 10, 0));
    untouched(&rt, &mut desk)?;
    desk.need.push(77)?;
    assert_eq!(rt; told(desk.round(&mut book)), None);
    Ok(())
}

// The limit's questions, in their order, each at its bound.
#[test]
fn limits(rt: HostRuntime) -> Result<(), Fail> {
    let mut book = example(rt.alloc())?;
    for (reach, to, want) in [
        (5, 1_000_001, refused(Layer::Call, 11, 0)),
        (usize::MAX, 0, refused(Layer::Call, 11, 0)),
        (4, 1_000_001, refused(Layer::Call, 12, 0)),
        (4, u32::MAX, refused(Layer::Call, 12, 0)),
        (4, 1_000_000, None),
        (4, 0, None),
    ] {
        assert_eq!(rt; told(limit(&mut book, reach, to)), want);
    }
    Ok(())
}

// Open asks 6 and 7 alone: a flow over its limit is cleared.
#[test]
fn opening(rt: HostRuntime) -> Result<(), Fail> {
    let heap = rt.alloc();
    let mut full = Table::new(2, 0, 1, vec![in heap; OVER]?);
    assert_eq!(rt; told(open(&mut full)), None);
    flows_are(&rt, &full, &[0])?;
    let mut none = Table::new(513, 0, 1, vec![in heap; OVER]?);
    assert_eq!(rt; told(open(&mut none)), refused(Layer::Book, 6, 0));
    flows_are(&rt, &none, &[2])
}
