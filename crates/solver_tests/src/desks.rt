// Desks for tests, and what is asked of their tables afterwards.
use pick::Pick;
use scheme::Register;
use solver::desks::Desk;
use std::alloc::{AllocError, Global};
use std::fmt::Debug;
use std::process::Abort;
use std::test::*;

// What stands in a table before a call, so that what is untouched shows.
pub const OLD: u8 = 77;

// Tables of this many entries each.
pub(crate) fn make_desk<P: Drop>(
    heap: Global,
    pick: P,
    size: usize,
) -> Result<Desk<P>, AllocError> {
    Ok(Desk {
        order: vec![in heap; u16::from(OLD); size]?,
        place: vec![in heap; u16::from(OLD); size]?,
        need: vec![in heap; u64::from(OLD); size]?,
        marks: vec![in heap; OLD; size]?,
        pick,
    })
}

// A cut that answers this capacity and these marks, with the byte behind them untouched.
pub(crate) fn cuts<R: Register, P: Pick>(
    rt: &impl Abort,
    desk: &mut Desk<P>,
    register: &R,
    capacity: u64,
    marks: &[u8],
) -> Result<(), Fail> {
    assert_eq!(rt; desk.cut(register), Ok(capacity));
    begins_with(rt, desk.marks.as_slice(), marks)
}

// The table begins so, and is as it was from there on.
pub(crate) fn begins_with<T: Copy + Drop + PartialEq + Debug + From<u8>>(
    rt: &impl Abort,
    table: &[T],
    begin: &[T],
) -> Result<(), Fail> {
    assert!(rt; begin.len() <= table.len());
    let (first, rest) = table.split_at(begin.len());
    assert_eq!(rt; first, begin);
    for entry in rest {
        assert_eq!(rt; *entry, T::from(OLD));
    }
    Ok(())
}

pub(crate) fn flows_are<R: Register>(
    rt: &impl Abort,
    register: &R,
    flows: &[u32],
) -> Result<(), Fail> {
    assert_eq!(rt; register.reaches(), flows.len());
    for (reach, flow) in flows.iter().enumerate() {
        assert_eq!(rt; register.flow(reach), Some(*flow));
    }
    Ok(())
}
