// The junction at its edges.
use crate::books::{Want, reads_as, refuses};
use layers::Junction;
use scheme::{Book, CallFault, Register, value_of};
use std::process::Abort;
use std::test::Fail;
use worked_examples::{GATE_LIMITS, example, table, twins};

// What a junction stands for over a register that it cannot stand on.
const NOTHING: Want<'static> = Want {
    points: 0,
    inlet: 65_535,
    outlet: 65_535,
    reaches: &[],
};

fn is_nothing<B: Book>(rt: &impl Abort, book: &mut B) {
    reads_as(rt, book, &NOTHING);
    refuses(rt, book, 0);
}

#[test]
fn a_short_list_leaves_points_open(rt: HostRuntime) -> Result<(), Fail> {
    let j = Junction::new(example(rt.alloc())?, &[9, 8]);
    assert_eq!(rt; j.limit(5), Some(9));
    assert_eq!(rt; j.limit(6), Some(8));
    assert_eq!(rt; j.limit(7), Some(1_000_000));
    assert_eq!(rt; j.limit(8), Some(1_000_000));
    Ok(())
}

#[test]
fn a_long_list_is_cut(rt: HostRuntime) -> Result<(), Fail> {
    let j = Junction::new(example(rt.alloc())?, &[1, 2, 3, 4, 5]);
    assert_eq!(rt; j.reaches(), 9);
    assert_eq!(rt; j.limit(8), Some(4));
    assert_eq!(rt; j.limit(9), None);
    Ok(())
}

#[test]
fn at_most_256_points_are_split(rt: HostRuntime) -> Result<(), Fail> {
    let most = Junction::new(table(rt.alloc(), 256, 0, 1, &[])?, &[]);
    assert_eq!(rt; most.points(), 512);
    assert_eq!(rt; most.outlet(), 257);
    assert_eq!(rt; most.reaches(), 256);
    assert_eq!(rt; most.tail(255), Some(255));
    assert_eq!(rt; most.head(255), Some(511));
    is_nothing(
        &rt,
        &mut Junction::new(table(rt.alloc(), 257, 0, 1, &[])?, &[]),
    );
    Ok(())
}

#[test]
fn at_most_8192_reaches_are_carried(rt: HostRuntime) -> Result<(), Fail> {
    let most = Junction::new(twins(rt.alloc(), 8_192)?, &[]);
    assert_eq!(rt; most.points(), 4);
    assert_eq!(rt; most.reaches(), 8_194);
    assert_eq!(rt; most.head(8_193), Some(3));
    is_nothing(&rt, &mut Junction::new(twins(rt.alloc(), 8_193)?, &[]));
    Ok(())
}

#[test]
fn ends_that_are_no_points_read_65535(rt: HostRuntime) -> Result<(), Fail> {
    let below = table(rt.alloc(), 2, 2, 9, &[(2, 1, 5), (0, 7, 4)])?;
    let rows = [
        (65_535, 1, 5),
        (2, 65_535, 4),
        (0, 2, 1_000_000),
        (1, 3, 1_000_000),
    ];
    reads_as(
        &rt,
        &Junction::new(below, &[]),
        &Want {
            points: 4,
            inlet: 65_535,
            outlet: 65_535,
            reaches: &rows,
        },
    );
    Ok(())
}

#[test]
fn writes_go_where_the_reads_come_from(rt: HostRuntime) -> Result<(), Fail> {
    let mut j = Junction::new(example(rt.alloc())?, &GATE_LIMITS);
    // the gate of point 2
    j.set_flow(7, 3)?;
    assert_eq!(rt; j.flow(7), Some(3));
    assert_eq!(rt; j.below().flow(2), Some(0));
    // the last reach below
    j.set_flow(4, 6)?;
    assert_eq!(rt; j.flow(4), Some(6));
    assert_eq!(rt; j.below().flow(4), Some(6));
    // one past the last gate
    refuses(&rt, &mut j, 9);
    assert_eq!(rt; j.reaches(), 9);
    Ok(())
}

// The junction list 9 9 5 9 over the example: point 2 passes only 5, so that 7 is the most.
#[test]
fn a_junction_is_reviewed(rt: HostRuntime) -> Result<(), Fail> {
    let mut j = Junction::new(example(rt.alloc())?, &GATE_LIMITS);
    let flows = [3, 4, 1, 2, 5, 7, 3, 5, 7];
    for (reach, flow) in flows.iter().enumerate() {
        j.set_flow(reach, *flow)?;
    }
    assert_eq!(rt; value_of(&j), Ok(7));
    assert_eq!(rt; scheme::check(&j, &[1, 1, 1, 0, 1, 1, 0, 0]), Ok(()));
    // a side of capacity 9, which the value does not reach
    assert_eq!(rt;
        scheme::check(&j, &[1, 0, 0, 0, 0, 0, 0, 0]),
        Err(CallFault::NotTight)
    );
    Ok(())
}
