// What is printed of a claim.
ghost use Rattle.std.specs.Prelude.{◌≡◌, IfOk, Some, string_bytes};
ghost use Rattle.scheme.specs.Words.{side_from};
ghost use Rattle.claims.specs.Lines.{claim_lines};

use crate::reviewing::Claim;
use std::alloc::{AllocError, Global};
use std::fmt;

// The marked points in number order, each after a space.
#[derive(Clone, Copy)]
struct Side<'a>(&'a [u8]);

impl fmt::Display for Side<'_> {
    ghost output = { λ side. Some (side_from 0 side.0.now) };

    fn fmt<W: fmt::Write>(&self, f: &mut fmt::Formatter<W>) -> fmt::Result {
        for (point, mark) in self.0.iter().enumerate() {
            if *mark == 1 {
                write!(f, " {point}")?;
            }
        }
        Ok(())
    }
}

pub fn side_text(heap: Global, marks: &[u8]) -> Result<String, AllocError>
    ensures { IfOk result (λ text. string_bytes text ≡ side_from 0 marks.now) }
{
    Side(marks).to_string(heap)
}

// The lines of a claim that was accepted, without the last newline.
impl fmt::Display for Claim {
    ghost output = { λ claim. Some (claim_lines claim) };

    fn fmt<W: fmt::Write>(&self, f: &mut fmt::Formatter<W>) -> fmt::Result {
        let points = self.points;
        let reaches = self.reaches;
        let value = self.value;
        let side = Side(self.marks.as_slice());
        write!(
            f,
            "points {points}\nreaches {reaches}\nvalue {value}\nside{side}\naccepted"
        )
    }
}

impl Claim {
    pub fn lines(&self, heap: Global) -> Result<String, AllocError>
        ensures { IfOk result (λ text. string_bytes text ≡ claim_lines self.now) }
    {
        self.to_string(heap)
    }
}
