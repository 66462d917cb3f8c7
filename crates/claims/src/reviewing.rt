// The review of a claim: the file is read, and its flow and the side are put to the check.
ghost use Rattle.std.specs.Prelude.{◌≡◌};
ghost use Rattle.scheme.specs.declared.faults.CallFault.TheVariants.{InBook};
ghost use Rattle.claims.specs.Reviews.{Reviewed};
ghost use Rattle.claims.specs.declared.reviewing.Stop.TheVariants.{Refused, Memory};

use crate::marks::marks_of;
use scheme::{BookFault, CallFault, Register, check, value_of};
use scheme_file::SchemeFile;
use std::alloc::{AllocError, Global};

// A claim that the review accepted.
#[derive(Drop)]
pub struct Claim {
    pub points: u16,
    pub reaches: usize,
    pub value: i64,
    // 1 for each point of the side
    pub marks: Vec<u8>,
}

// Why a review does not accept: a question was answered no, or there was no memory.
#[derive(Clone, Copy, PartialEq, Eq, Debug)]
pub enum Stop {
    Refused(CallFault),
    Memory,
}

// Written out, since a derived `From` has no contract.
impl From<BookFault> for Stop {
    ghost from_gives = { λ fault r. r ≡ Refused (InBook fault) };

    fn from(fault: BookFault) -> Stop {
        Stop::Refused(CallFault::from(fault))
    }
}

impl From<CallFault> for Stop {
    ghost from_gives = { λ fault r. r ≡ Refused fault };

    fn from(fault: CallFault) -> Stop {
        Stop::Refused(fault)
    }
}

impl From<AllocError> for Stop {
    ghost from_gives = { λ _ r. r ≡ Memory };

    fn from(_error: AllocError) -> Stop {
        Stop::Memory
    }
}

// Reviews the claim that these points are a side which holds down the flow in this file.
pub fn review(heap: Global, bytes: &mut [u8], side: &[u16]) -> Result<Claim, Stop>
    ensures { Reviewed bytes.old side.now result }
{
    let file = SchemeFile::open_book(bytes)?;
    let points = file.points();
    let marks = marks_of(heap, points, side)?;
    check(&file, marks.as_slice())?;
    let value = value_of(&file)?;
    let reaches = file.reaches();
    Ok(Claim {
        points,
        reaches,
        value,
        marks,
    })
}
