// Small schemes with one thing each.
use crate::desks::{cuts, flows_are, make_desk};
use crate::examples::DIAMOND;
use pick::Scan;
use scheme::{Reach, Register, Table};
use solver::answers::{Rounded, Settled};
use solver::{open, value};
use std::test::*;
use worked_examples::table;

#[test]
fn no_reach(rt: HostRuntime) -> Result<(), Fail> {
    let heap = rt.alloc();
    let mut book = table(heap, 2, 0, 1, &[])?;
    let mut desk = make_desk(heap, Scan::new(), 2)?;
    assert_eq!(rt;
        desk.settle(&mut book),
        Ok(Settled {
            value: 0,
            rounds: 0,
        })
    );
    cuts(&rt, &mut desk, &book, 0, &[1, 0])
}

// Two reaches side by side count for one key.
#[test]
fn twins(rt: HostRuntime) -> Result<(), Fail> {
    let heap = rt.alloc();
    let mut book = table(heap, 2, 0, 1, &[(0, 1, 3), (0, 1, 4)])?;
    let mut desk = make_desk(heap, Scan::new(), 2)?;
    assert_eq!(rt; desk.round(&mut book), Ok(Rounded { gain: 7, length: 2 }));
    flows_are(&rt, &book, &[3, 4])
}

// Flow that runs back into the inlet is taken back.
#[test]
fn water_back_into_the_inlet(rt: HostRuntime) -> Result<(), Fail> {
    let heap = rt.alloc();
    let row = Reach {
        tail: 1,
        head: 0,
        limit: 5,
        flow: 5,
    };
    let mut book = Table::new(2, 0, 1, vec![in heap; row]?);
    let mut desk = make_desk(heap, Scan::new(), 2)?;
    assert_eq!(rt; value(&book), Ok(-5));
    assert_eq!(rt; desk.round(&mut book), Ok(Rounded { gain: 5, length: 2 }));
    assert_eq!(rt; value(&book), Ok(0));
    Ok(())
}

// Which of the two equal points is taken is free.
#[test]
fn diamond(rt: HostRuntime) -> Result<(), Fail> {
    let heap = rt.alloc();
    let mut book = table(heap, 4, 0, 3, &DIAMOND)?;
    let mut desk = make_desk(heap, Scan::new(), 4)?;
    open(&mut book)?;
    let told = desk.round(&mut book)?;
    assert_eq!(rt; told.gain, 1);
    if book.flow(0) == Some(1) {
        flows_are(&rt, &book, &[1, 0, 1, 0])
    } else {
        flows_are(&rt, &book, &[0, 1, 0, 1])
    }
}
