// A scheme file that is read and never written: each read decodes its own bytes.
ghost use Rattle.std.specs.Prelude.{◌≡◌, ◌+◌, ◌<◌, ◌≤◌, length, option_map, slice_get, MatchOption};
ghost use Rattle.scheme_file.specs.Files.{FoundIn, view_bytes, view_rows, view_scheme};
ghost use Rattle.scheme_file.specs.Layout.{Means};
ghost use Rattle.scheme_file.specs.Rows.{row_at, row_place};

use crate::numbers::{get_u16, get_u32};
use crate::parts::{HEAD_SIZE, HEADER, INLET, OUTLET, ROW_SIZE};
use crate::reading::Found;
use scheme::Register;

// Where the head ends.
const HEAD_END: usize = HEADER + HEAD_SIZE;

// Where the fields of a row begin, after the tail.
const HEAD: usize = 2;

pub(crate) const LIMIT: usize = 4;

pub(crate) const FLOW: usize = 8;

#[derive(Clone, Copy)]
pub struct SchemeView<'a> {
    bytes: &'a [u8],
    found: Found,
}

impl<'a> SchemeView<'a> {
    // The register in these bytes, by what reading them found. Rows found in other bytes do no harm: those that do
    // not lie in these count as none.
    pub fn new(bytes: &'a [u8], found: Found) -> SchemeView<'a>
        ensures same { view_bytes result ≡ bytes.now }
        ensures rows { result.found ≡ found }
        ensures means { FoundIn bytes.now found → Means bytes.now (view_scheme result) }
    {
        SchemeView { bytes, found }
    }

    // How many rows there are: all that reading found. (They lie behind the head and inside the bytes wherever
    // reading found them in these bytes; the type alone does not say so.)
    fn held(&self) -> usize
        ensures { result ≡ view_rows self.now }
    {
        let count = self.found.count as usize;
        let rows = self.found.rows as usize;
        if HEAD_END <= rows && rows + ROW_SIZE * count <= self.bytes.len() {
            count
        } else {
            0
        }
    }

    // The place of a reach's row.
    pub(crate) fn row(&self, reach: usize) -> Option<usize>
        ensures place { MatchOption result (view_rows self.now ≤ reach)
            (λ at. (reach < view_rows self.now) × (at ≡ row_place self.now.found.rows reach)
            × (at + 12 ≤ length (view_bytes self.now))) }
        ensures row { slice_get (view_scheme self.now).reaches reach ≡ option_map (row_at (view_bytes self.now)) result }
    {
        if reach >= self.held() {
            return None;
        }
        Some(self.found.rows as usize + ROW_SIZE * reach)
    }
}

impl Register for SchemeView<'_> {
    ghost scheme = { view_scheme };

    fn points(&self) -> u16 {
        get_u16(self.bytes, HEADER)
    }

    fn inlet(&self) -> u16 {
        get_u16(self.bytes, HEADER + INLET)
    }

    fn outlet(&self) -> u16 {
        get_u16(self.bytes, HEADER + OUTLET)
    }

    fn reaches(&self) -> usize {
        self.held()
    }

    fn tail(&self, reach: usize) -> Option<u16> {
        Some(get_u16(self.bytes, self.row(reach)?))
    }

    fn head(&self, reach: usize) -> Option<u16> {
        Some(get_u16(self.bytes, self.row(reach)? + HEAD))
    }

    fn limit(&self, reach: usize) -> Option<u32> {
        Some(get_u32(self.bytes, self.row(reach)? + LIMIT))
    }

    fn flow(&self, reach: usize) -> Option<u32> {
        Some(get_u32(self.bytes, self.row(reach)? + FLOW))
    }
}
