// The records of a file, one after another.
ghost use Rattle.std.specs.Prelude.{◌≡◌, ◌-◌, false, length};

use crate::kinds::Kind;
use crate::parts::{Part, part_at};
use scheme::FileFault;

// They come up to the file's end, or up to the first that is refused, whose fault comes last.
#[derive(Clone, Drop)]
pub struct Parts<'a> {
    bytes: &'a [u8],
    // where the next record begins
    at: usize,
    // whether a row block came before
    rows_seen: bool,
}

impl<'a> Parts<'a> {
    pub fn new(bytes: &'a [u8]) -> Parts<'a>
        ensures same { result.bytes.now ≡ bytes.now }
        ensures start { result.at ≡ 0 }
        ensures fresh { result.rows_seen ≡ false }
    {
        Parts {
            bytes,
            at: 0,
            rows_seen: false,
        }
    }
}

impl<'a> Iterator for Parts<'a> {
    ghost use Rattle.std.specs.Iterator.{at_most};
    ghost use Rattle.scheme_file.specs.Walking.{Steps};

    type Item = Result<Part<'a>, FileFault>;

    ghost next_gives = { Steps };

    ghost remaining = { λ s. at_most (length s.bytes.now - s.at) };

    fn next(&mut self) -> Option<Result<Part<'a>, FileFault>> {
        let part = part_at(self.bytes, self.at, self.rows_seen).transpose()?;
        match &part {
            Ok(found) => {
                self.at = found.end();
                self.rows_seen |= found.kind() == Kind::Rows;
            }
            Err(_) => self.at = self.bytes.len(),
        }
        Some(part)
    }
}
