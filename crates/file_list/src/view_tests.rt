// The example read apart from lending: as a view, and as a file that is lent by what was found.
use crate::examples::{agrees_with_table, writes_just_its_fields};
use scheme::{BookFault, CallFault, FileFault, Refusal, Register};
use scheme_file::{SchemeFile, SchemeView, part_at, read};
use std::test::Fail;
use worked_examples::EXAMPLE_FILE;

#[test]
fn table_and_lent_file_agree(rt: HostRuntime) -> Result<(), Fail> {
    let mut bytes = *EXAMPLE_FILE;
    let found = read(&bytes)?;
    let mut file = SchemeFile::lend(&mut bytes, found);
    agrees_with_table(&rt, rt.alloc(), &mut file)?;
    Ok(())
}

#[test]
fn a_write_to_a_lent_file_leaves_every_other_byte(rt: HostRuntime) -> Result<(), Fail> {
    let mut bytes = *EXAMPLE_FILE;
    let found = read(&bytes)?;
    let mut file = SchemeFile::lend(&mut bytes, found);
    writes_just_its_fields(&rt, &mut file);
    let again = file.into_bytes();
    assert_eq!(rt;
        SchemeView::new(again, read(again)?).flow(1),
        Some(16909060)
    );
    Ok(())
}

// A head has the three numbers, and no other part has them.
#[test]
fn a_head_tells_its_numbers(rt: HostRuntime) -> Result<(), Fail> {
    let bytes = *EXAMPLE_FILE;
    let Ok(Some(head)) = part_at(&bytes, 0, false) else {
        return Err(Fail::new("no head"));
    };
    assert_eq!(rt; head.points(), Some(4));
    assert_eq!(rt; head.inlet(), Some(0));
    assert_eq!(rt; head.outlet(), Some(3));
    let Ok(Some(rows)) = part_at(&bytes, head.end(), false) else {
        return Err(Fail::new("no rows"));
    };
    assert_eq!(rt; rows.points(), None);
    Ok(())
}

// Rows that were found in other bytes and do not lie in these count as none.
#[test]
fn rows_of_another_file_are_none(rt: HostRuntime) -> Result<(), Fail> {
    let bytes = *EXAMPLE_FILE;
    let found = read(&bytes)?;
    let file = SchemeView::new(&bytes[0..77], found);
    assert_eq!(rt; file.reaches(), 0);
    assert_eq!(rt; file.limit(0), None);
    Ok(())
}

// A file's fault inside a book's inside a call's.
fn points_of_file(bytes: &[u8]) -> Result<u16, BookFault> {
    let found = read(bytes)?;
    Ok(SchemeView::new(bytes, found).points())
}

fn points_of(bytes: &[u8]) -> Result<u16, CallFault> {
    let points = points_of_file(bytes)?;
    Ok(points)
}

#[test]
fn a_fault_of_reading_is_carried_up_whole(rt: HostRuntime) -> Result<(), Fail> {
    let bytes = *EXAMPLE_FILE;
    assert_eq!(rt; points_of(&bytes).ok(), Some(4));
    assert_eq!(rt;
        points_of(&bytes[0..77]).err().map(Refusal::from),
        Some(Refusal::from(FileFault::CutShort(12)))
    );
    Ok(())
}
