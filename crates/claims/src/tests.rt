// Claims about one scheme file, and what the review tells of each.
use crate::reviewing::{Stop, review};
use scheme::Refusal;
use std::alloc::Global;
use std::test::Fail;

// Four points, inlet 0, outlet 3; reaches 0→1, 0→2, 1→2, 1→3 and 2→3 of limits 5 4 3 2 7, all full. A line each for
// the header and the body of the head, for the header of the rows, and for each row.
const PUBLISHED: &[u8; 78] = b"\
    \x06\0\0\0\x01\0\
    \x04\0\0\0\x03\0\
    \x3c\0\0\0\x02\0\
    \0\0\x01\0\x05\0\0\0\x05\0\0\0\
    \0\0\x02\0\x04\0\0\0\x04\0\0\0\
    \x01\0\x02\0\x03\0\0\0\x03\0\0\0\
    \x01\0\x03\0\x02\0\0\0\x02\0\0\0\
    \x02\0\x03\0\x07\0\0\0\x07\0\0\0\
";

// What is printed of a claim about the first bytes of the file.
fn told(heap: Global, length: usize, side: &[u16]) -> Result<String, Fail> {
    let mut file = PUBLISHED.to_vec(heap)?;
    file.truncate(length);
    match review(heap, file.as_mut_slice(), side) {
        Ok(claim) => Ok(claim.lines(heap)?),
        Err(Stop::Refused(fault)) => Ok(Refusal::from(fault).line(heap)?),
        Err(Stop::Memory) => Err(Fail::new("no memory")),
    }
}

#[test]
fn a_true_claim(rt: HostRuntime) -> Result<(), Fail> {
    let text = told(rt.alloc(), 78, &[1, 0, 2])?;
    assert_eq!(rt;
        text.as_str(),
        "points 4\nreaches 5\nvalue 9\nside 0 1 2\naccepted"
    );
    Ok(())
}

#[test]
fn claims_that_are_refused(rt: HostRuntime) -> Result<(), Fail> {
    let false_pinch: &[u16] = &[0, 2];
    for (length, side, line) in [
        (78, false_pinch, "refused call 16 0"),
        (78, &[], "refused call 15 0"),
        (78, &[0, 4], "refused call 15 0"),
        (78, &[0, 65_535], "refused call 15 0"),
        (78, &[0, 3], "refused call 15 0"),
        (77, &[0], "refused file 2 12"),
        (12, &[0], "refused file 5 12"),
        (0, &[0], "refused file 4 0"),
    ] {
        assert_eq!(rt; told(rt.alloc(), length, side)?.as_str(), line);
    }
    Ok(())
}
