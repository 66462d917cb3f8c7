// What holds of every file of the example's bytes.
use scheme::{Book, BookFault, Register};
use scheme_file::SchemeFile;
use std::alloc::{AllocError, Global};
use std::process::Abort;
use worked_examples::{EXAMPLE_FILE, example};

fn same_fields(rt: &impl Abort, a: &impl Register, b: &impl Register, reach: usize) {
    assert_eq!(rt; a.tail(reach), b.tail(reach));
    assert_eq!(rt; a.head(reach), b.head(reach));
    assert_eq!(rt; a.limit(reach), b.limit(reach));
    assert_eq!(rt; a.flow(reach), b.flow(reach));
}

// Every read of the one answers as the other's, past the list too.
fn same_reads(rt: &impl Abort, a: &impl Register, b: &impl Register) {
    assert_eq!(rt; a.points(), b.points());
    assert_eq!(rt; a.inlet(), b.inlet());
    assert_eq!(rt; a.outlet(), b.outlet());
    assert_eq!(rt; a.reaches(), b.reaches());
    for reach in 0..a.reaches() {
        same_fields(rt, a, b, reach);
    }
    same_fields(rt, a, b, a.reaches());
    same_fields(rt, a, b, usize::MAX);
}

fn same_writes(rt: &impl Abort, a: &mut impl Book, b: &mut impl Book, reach: usize) {
    assert_eq!(rt;
        a.set_flow(reach, 4294967295),
        b.set_flow(reach, 4294967295)
    );
    assert_eq!(rt; a.set_limit(reach, 65537), b.set_limit(reach, 65537));
}

// A file of the example, its view and a table of the same rows agree through every write.
pub(crate) fn agrees_with_table(
    rt: &impl Abort,
    heap: Global,
    file: &mut SchemeFile<'_>,
) -> Result<(), AllocError> {
    let mut table = example(heap)?;
    assert_eq!(rt; file.reaches(), 5);
    assert_eq!(rt; file.limit(4), Some(6));
    same_reads(rt, &table, file);
    for reach in [4, 0, 5, 2, 65536] {
        same_writes(rt, &mut table, file, reach);
        same_reads(rt, &table, file);
        same_reads(rt, &table, &file.view());
    }
    assert_eq!(rt; file.set_flow(5, 1), Err(BookFault::NoReach(5)));
    Ok(())
}

// Two writes to a file of the example, each of which leaves every other byte.
pub(crate) fn writes_just_its_fields(rt: &impl Abort, file: &mut SchemeFile<'_>) {
    let mut want = *EXAMPLE_FILE;
    assert_eq!(rt; file.set_flow(1, 16909060), Ok(()));
    want[38..42].copy_from_slice(&[4, 3, 2, 1]);
    assert_eq!(rt; file.bytes(), want.as_slice());
    assert_eq!(rt; file.set_limit(4, 0), Ok(()));
    want[70] = 0;
    assert_eq!(rt; file.bytes(), want.as_slice());
}
