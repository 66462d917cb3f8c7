// The example as a book: its reads, its writes into the bytes, and a table of the same rows beside it.
use crate::examples::{agrees_with_table, writes_just_its_fields};
use scheme::{CallFault, FileFault, Refusal, Register};
use scheme_file::SchemeFile;
use std::test::Fail;
use worked_examples::EXAMPLE_FILE;

#[test]
fn table_and_file_agree(rt: HostRuntime) -> Result<(), Fail> {
    let mut bytes = *EXAMPLE_FILE;
    let mut file = SchemeFile::open(&mut bytes)?;
    agrees_with_table(&rt, rt.alloc(), &mut file)?;
    Ok(())
}

#[test]
fn a_write_leaves_every_other_byte(rt: HostRuntime) -> Result<(), Fail> {
    let mut bytes = *EXAMPLE_FILE;
    let mut file = SchemeFile::open(&mut bytes)?;
    writes_just_its_fields(&rt, &mut file);
    let again = SchemeFile::open(file.into_bytes())?;
    assert_eq!(rt; again.flow(1), Some(16909060));
    Ok(())
}

// A file's fault inside a book's inside a call's.
fn points_of(bytes: &mut [u8]) -> Result<u16, CallFault> {
    let file = SchemeFile::open_book(bytes)?;
    Ok(file.points())
}

#[test]
fn a_fault_is_carried_up_whole(rt: HostRuntime) -> Result<(), Fail> {
    let mut bytes = *EXAMPLE_FILE;
    assert_eq!(rt; points_of(&mut bytes).ok(), Some(4));
    assert_eq!(rt;
        points_of(&mut bytes[0..77]).err().map(Refusal::from),
        Some(Refusal::from(FileFault::CutShort(12)))
    );
    Ok(())
}
