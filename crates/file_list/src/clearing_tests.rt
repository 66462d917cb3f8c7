// A file without its flows: every other byte stays, and bytes that are no file stay whole.
use scheme::FileFault;
use scheme_file::{clear_file, read};
use std::test::Fail;

// A head, a note, two rows with flow, and a note.
const NOTED: &[u8; 60] = b"\
    \x06\0\0\0\x01\0\
    \x02\0\0\0\x01\0\
    \x03\0\0\0\x03\0old\
    \x18\0\0\0\x02\0\
    \0\0\x01\0\x05\0\0\0\x04\x03\x02\x01\
    \0\0\x01\0\x07\0\0\0\x07\0\0\0\
    \x03\0\0\0\x03\0new\
";

#[test]
fn clears_just_the_flows(rt: HostRuntime) -> Result<(), Fail> {
    let mut bytes = *NOTED;
    assert_eq!(rt; clear_file(&mut bytes), Ok(()));
    let mut want = *NOTED;
    want[35..39].fill(0);
    want[47..51].fill(0);
    assert_eq!(rt; bytes.as_slice(), want.as_slice());
    read(&bytes)?;
    Ok(())
}

#[test]
fn leaves_what_is_no_file(rt: HostRuntime) {
    let mut bytes = *NOTED;
    assert_eq!(rt; clear_file(&mut bytes[0..59]), Err(FileFault::CutShort(51)));
    assert_eq!(rt; bytes.as_slice(), NOTED.as_slice());
}
