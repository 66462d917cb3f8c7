// The calls over piles of layers.
use crate::desks::{cuts, flows_are, make_desk};
use crate::examples::noted_file;
use layers::{Junction, Turned};
use pick::Scan;
use scheme::Book;
use scheme_file::{SchemeFile, read};
use solver::{limit, open};
use std::alloc::Global;
use std::process::Abort;
use std::test::*;
use worked_examples::{GATE_LIMITS, example};

// The widened example turned round: the pinch is at its inlet, which is point 3.
fn turned<B: Book + Drop>(rt: &impl Abort, heap: Global, below: B) -> Result<(), Fail> {
    let mut book = Turned::new(below);
    let mut desk = make_desk(heap, Scan::new(), 4)?;
    open(&mut book)?;
    limit(&mut book, 4, 7)?;
    let told = desk.settle(&mut book)?;
    assert_eq!(rt; told.value, 9);
    flows_are(rt, book.below(), &[5, 4, 3, 2, 7])?;
    cuts(rt, &mut desk, &book, 9, &[0, 0, 0, 1])
}

// Point 2 passes only 5, so that 7 is the most; the pinch is reaches 3 and the gate of point 2.
fn junction<B: Book + Drop>(rt: &impl Abort, heap: Global, below: B) -> Result<(), Fail> {
    let mut book = Junction::new(below, &GATE_LIMITS);
    let mut desk = make_desk(heap, Scan::new(), 9)?;
    open(&mut book)?;
    let told = desk.settle(&mut book)?;
    assert_eq!(rt; told.value, 7);
    cuts(rt, &mut desk, &book, 7, &[1, 1, 1, 0, 1, 1, 0, 0])
}

// Both, one over the other, and turned again.
fn pile<B: Book + Drop>(rt: &impl Abort, heap: Global, below: B) -> Result<(), Fail> {
    let mut book = Turned::new(Junction::new(Turned::new(below), &GATE_LIMITS));
    let mut desk = make_desk(heap, Scan::new(), 9)?;
    open(&mut book)?;
    let told = desk.settle(&mut book)?;
    assert_eq!(rt; told.value, 7);
    assert_eq!(rt; desk.cut(&book), Ok(7));
    Ok(())
}

#[test]
fn over_a_table(rt: HostRuntime) -> Result<(), Fail> {
    let heap = rt.alloc();
    turned(&rt, heap, example(heap)?)?;
    junction(&rt, heap, example(heap)?)?;
    pile(&rt, heap, example(heap)?)
}

#[test]
fn over_a_file(rt: HostRuntime) -> Result<(), Fail> {
    let heap = rt.alloc();
    let mut bytes = noted_file();
    let found = read(&bytes)?;
    junction(&rt, heap, SchemeFile::lend(&mut bytes, found))?;
    pile(&rt, heap, SchemeFile::lend(&mut bytes, found))?;
    turned(&rt, heap, SchemeFile::lend(&mut bytes, found))
}
