// The records of the example, one after another, and the numbers of their kinds.
use scheme::FileFault;
use scheme_file::{Kind, Parts, UnknownKind};
use std::test::Fail;
use worked_examples::EXAMPLE_FILE;

#[test]
fn walks_to_the_end(rt: HostRuntime) -> Result<(), Fail> {
    let bytes = *EXAMPLE_FILE;
    let mut parts = Parts::new(&bytes);
    let head = parts.next().ok_or("no head")??;
    assert_eq!(rt; head.kind(), Kind::Head);
    assert_eq!(rt; head.place(), 0);
    let rows = parts.next().ok_or("no rows")??;
    assert_eq!(rt; rows.kind(), Kind::Rows);
    assert_eq!(rt; rows.place(), 12);
    assert_eq!(rt; rows.size(), 60);
    assert!(rt; parts.next().is_none());
    Ok(())
}

#[test]
fn ends_after_a_fault(rt: HostRuntime) -> Result<(), Fail> {
    let bytes = *EXAMPLE_FILE;
    let mut parts = Parts::new(&bytes[0..77]);
    let head = parts.next().ok_or("no head")??;
    assert_eq!(rt; head.kind(), Kind::Head);
    let cut = parts.next().ok_or("no rows")?;
    assert_eq!(rt; cut.err(), Some(FileFault::CutShort(12)));
    assert!(rt; parts.next().is_none());
    Ok(())
}

#[test]
fn kinds_and_numbers_agree(rt: HostRuntime) {
    for kind in [Kind::Head, Kind::Rows, Kind::Note] {
        assert_eq!(rt; Kind::try_from(u16::from(kind)), Ok(kind));
    }
    assert_eq!(rt; u16::from(Kind::Note), 3);
    for number in [0, 4, 65535] {
        assert_eq!(rt; Kind::try_from(number), Err(UnknownKind(number)));
    }
}
