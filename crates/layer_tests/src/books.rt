// What every register and every book must do, whatever it is made of.
use scheme::{Book, BookFault, Register};
use std::process::Abort;
use std::test::Fail;
use worked_examples::Dry;

// What a register is to read as, while nothing flows.
#[derive(Drop)]
pub struct Want<'a> {
    pub points: u16,
    pub inlet: u16,
    pub outlet: u16,
    pub reaches: &'a [Dry],
}

pub fn reads_as<R: Register>(rt: &impl Abort, register: &R, want: &Want) {
    assert_eq!(rt; register.points(), want.points);
    assert_eq!(rt; register.inlet(), want.inlet);
    assert_eq!(rt; register.outlet(), want.outlet);
    assert_eq!(rt; register.reaches(), want.reaches.len());
    for (k, reach) in want.reaches.iter().enumerate() {
        reach_is(rt, register, k, *reach, 0);
    }
    nothing_at(rt, register, want.reaches.len());
}

fn reach_is<R: Register>(rt: &impl Abort, register: &R, k: usize, reach: Dry, flow: u32) {
    let (tail, head, limit) = reach;
    assert_eq!(rt; register.tail(k), Some(tail));
    assert_eq!(rt; register.head(k), Some(head));
    assert_eq!(rt; register.limit(k), Some(limit));
    assert_eq!(rt; register.flow(k), Some(flow));
}

fn nothing_at<R: Register>(rt: &impl Abort, register: &R, k: usize) {
    assert_eq!(rt; register.tail(k), None);
    assert_eq!(rt; register.head(k), None);
    assert_eq!(rt; register.limit(k), None);
    assert_eq!(rt; register.flow(k), None);
}

// Writes every reach of a book that reads as wanted, and nothing but the field written changes.
pub fn takes_writes<B: Book>(rt: &impl Abort, book: &mut B, want: &Want) -> Result<(), Fail> {
    reads_as(rt, book, want);
    for (k, reach) in want.reaches.iter().enumerate() {
        let (tail, head, limit) = *reach;
        book.set_flow(k, 7)?;
        reach_is(rt, book, k, *reach, 7);
        book.set_limit(k, 8)?;
        reach_is(rt, book, k, (tail, head, 8), 7);
        book.set_flow(k, 0)?;
        book.set_limit(k, limit)?;
        reads_as(rt, book, want);
    }
    refuses(rt, book, want.reaches.len());
    refuses(rt, book, usize::MAX);
    reads_as(rt, book, want);
    Ok(())
}

pub fn refuses<B: Book>(rt: &impl Abort, book: &mut B, k: usize) {
    assert_eq!(rt; book.set_flow(k, 1), Err(BookFault::NoReach(k)));
    assert_eq!(rt; book.set_limit(k, 1), Err(BookFault::NoReach(k)));
}
