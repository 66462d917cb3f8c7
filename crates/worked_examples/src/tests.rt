// That the tables are made, and are what they are called.
use crate::*;
use scheme::Register;
use std::test::Fail;

#[test]
fn the_example_is_made(rt: HostRuntime) -> Result<(), Fail> {
    let book = example(rt.alloc())?;
    assert_eq!(rt; book.points(), 4);
    assert_eq!(rt; book.reaches(), 5);
    assert_eq!(rt; book.tail(4), Some(2));
    assert_eq!(rt; book.head(4), Some(3));
    assert_eq!(rt; book.limit(4), Some(6));
    assert_eq!(rt; book.flow(4), Some(0));
    Ok(())
}

#[test]
fn twins_are_made(rt: HostRuntime) -> Result<(), Fail> {
    let book = twins(rt.alloc(), 3)?;
    assert_eq!(rt; book.reaches(), 3);
    assert_eq!(rt; book.limit(2), Some(1));
    assert_eq!(rt; book.limit(3), None);
    Ok(())
}
