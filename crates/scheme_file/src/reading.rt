// A whole file read: refused, or where its rows lie.
ghost use Rattle.std.specs.Prelude.{◌≡◌, IfOk, MatchResult};
ghost use Rattle.scheme.specs.Refusals.{file_refusal, refusal_of};
ghost use Rattle.scheme_file.specs.Asked.{block_of_rows, file_fault};
ghost use Rattle.scheme_file.specs.Files.{FoundIn, found_scheme};
ghost use Rattle.scheme_file.specs.Layout.{Means, NoFile};
ghost use Rattle.scheme_file.specs.Reading.{told, Bytes, RowsLie};

use crate::numbers::get_u32;
use crate::parts::{HEADER, Part, ROW_SIZE};
use crate::walking::Parts;
use scheme::FileFault;

// The most bytes that a scheme file may have.
pub const MOST_BYTES: usize = 65_536;

// What reading found.
#[derive(Clone, Copy)]
pub struct Found {
    // the place of the first row
    pub(crate) rows: u32,
    // how many rows there are
    pub(crate) count: u32,
}

// Reads a byte string as a scheme file. It takes every byte string, of every length.
pub fn read(bytes: &[u8]) -> Result<Found, FileFault>
    ensures fault { refusal_of file_refusal result ≡ file_fault bytes.now }
    ensures accepted { IfOk result (FoundIn bytes.now) }
    ensures means { MatchResult result (λ found. Means bytes.now (found_scheme bytes.now found)) (λ _. NoFile bytes.now) }
{
    let block = row_block(bytes)?;
    let count = get_u32(bytes, block) / ROW_SIZE as u32;
    let rows = (block + HEADER) as u32;
    Ok(Found { rows, count })
}

// The place of the file's row block.
fn row_block(bytes: &[u8]) -> Result<usize, FileFault>
    ensures answer { told result ≡ block_of_rows bytes.now }
    ensures lies { IfOk result (RowsLie bytes.now) }
    ensures bytes { Bytes bytes.now }
{
    if bytes.len() > MOST_BYTES {
        return Err(FileFault::TooLong);
    }
    let mut rows = None;
    for part in Parts::new(bytes) {
        if let Part::Rows { at, .. } = part? {
            rows = Some(at);
        }
    }
    // by a match, since having none is refused in two ways
    match rows {
        Some(at) => Ok(at),
        None if bytes.is_empty() => Err(FileFault::BadHead(0)),
        None => Err(FileFault::BadRows(bytes.len())),
    }
}
