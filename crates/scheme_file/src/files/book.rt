// The file as a book: a read decodes its own bytes, and a write goes into its own four.
ghost use Rattle.std.specs.Prelude.{◌≡◌, ◌≤◌};
ghost use Rattle.scheme.specs.Scheme.{with_flow, with_limit};
ghost use Rattle.scheme.specs.Refusals.{book_refusal, refusal_of, unlisted};
ghost use Rattle.scheme_file.specs.Files.{Accepted, file_bytes, file_kept, file_scheme, row_patched};

use crate::files::SchemeFile;
use crate::numbers::put_u32;
use crate::views::{FLOW, LIMIT};
use scheme::{Book, BookFault, Register};

impl SchemeFile<'_> {
    // Puts a number into the four bytes at an offset of a reach's row.
    fn put(&mut self, reach: usize, offset: usize, x: u32) -> Result<(), BookFault>
        requires { offset ≤ 8 }
        ensures answer { refusal_of book_refusal result ≡ unlisted (file_scheme self.old) reach }
        ensures bytes { file_bytes self.new ≡ row_patched self.old reach offset x }
        ensures found { self.new.found ≡ self.old.found }
        ensures loan { self.new.bytes.ghost_name ≡ self.old.bytes.ghost_name }
    {
        let Some(row) = self.view().row(reach) else {
            return Err(BookFault::NoReach(reach));
        };
        let at = row + offset;
        put_u32(&mut self.bytes[at..at + 4], x);
        Ok(())
    }
}

// Each read is the view's; Rust has no shorter form to pass on a trait's methods.
impl Register for SchemeFile<'_> {
    ghost scheme = { file_scheme };

    fn points(&self) -> u16 {
        self.view().points()
    }

    fn inlet(&self) -> u16 {
        self.view().inlet()
    }

    fn outlet(&self) -> u16 {
        self.view().outlet()
    }

    fn reaches(&self) -> usize {
        self.view().reaches()
    }

    fn tail(&self, reach: usize) -> Option<u16> {
        self.view().tail(reach)
    }

    fn head(&self, reach: usize) -> Option<u16> {
        self.view().head(reach)
    }

    fn limit(&self, reach: usize) -> Option<u32> {
        self.view().limit(reach)
    }

    fn flow(&self, reach: usize) -> Option<u32> {
        self.view().flow(reach)
    }
}

// A write leaves every byte but its own four, and an accepted file accepted.
impl Book for SchemeFile<'_> {
    ghost kept = { file_kept };

    fn set_limit(&mut self, reach: usize, limit: u32) -> Result<(), BookFault>
        ensures answer { refusal_of book_refusal result ≡ unlisted (file_scheme self.old) reach }
        ensures after { file_scheme self.new ≡ with_limit (file_scheme self.old) reach limit }
        ensures kept { file_kept self.new ≡ file_kept self.old }
        ensures bytes { file_bytes self.new ≡ row_patched self.old reach 4 limit }
        ensures stays { Accepted self.old → Accepted self.new }
    {
        self.put(reach, LIMIT, limit)
    }

    fn set_flow(&mut self, reach: usize, flow: u32) -> Result<(), BookFault>
        ensures answer { refusal_of book_refusal result ≡ unlisted (file_scheme self.old) reach }
        ensures after { file_scheme self.new ≡ with_flow (file_scheme self.old) reach flow }
        ensures kept { file_kept self.new ≡ file_kept self.old }
        ensures bytes { file_bytes self.new ≡ row_patched self.old reach 8 flow }
        ensures stays { Accepted self.old → Accepted self.new }
    {
        self.put(reach, FLOW, flow)
    }
}
