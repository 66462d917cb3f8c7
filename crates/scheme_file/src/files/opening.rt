// A file opened, and its bytes given back.
ghost use Rattle.std.specs.Prelude.{◌≡◌, IfOk, MatchResult};
ghost use Rattle.scheme.specs.Refusals.{book_refusal, file_refusal, refusal_of};
ghost use Rattle.scheme_file.specs.Asked.{file_fault};
ghost use Rattle.scheme_file.specs.Layout.{Means, NoFile};
ghost use Rattle.scheme_file.specs.Files.{Accepted, file_bytes, file_scheme};

use crate::files::SchemeFile;
use crate::reading::read;
use scheme::{BookFault, FileFault};

impl<'a> SchemeFile<'a> {
    pub fn open(bytes: &'a mut [u8]) -> Result<SchemeFile<'a>, FileFault>
        ensures fault { refusal_of file_refusal result ≡ file_fault bytes.old }
        ensures same { IfOk result (λ f. file_bytes f ≡ bytes.old) }
        ensures accepted { IfOk result Accepted }
        ensures means { MatchResult result (λ f. Means bytes.old (file_scheme f)) (λ _. NoFile bytes.old) }
    {
        let found = read(bytes)?;
        Ok(SchemeFile::lend(bytes, found))
    }

    // The same for a caller whose faults are a book's, and so no twin to do without: here the one fault becomes the other, by
    // `From` under `?`.
    pub fn open_book(bytes: &'a mut [u8]) -> Result<SchemeFile<'a>, BookFault>
        ensures fault { refusal_of book_refusal result ≡ file_fault bytes.old }
        ensures same { IfOk result (λ f. file_bytes f ≡ bytes.old) }
        ensures accepted { IfOk result Accepted }
        ensures means { MatchResult result (λ f. Means bytes.old (file_scheme f)) (λ _. NoFile bytes.old) }
    {
        let file = SchemeFile::open(bytes)?;
        Ok(file)
    }

    pub fn bytes(&self) -> &[u8]
        ensures value { result.now ≡ file_bytes self.now }
        ensures means { Accepted self.now → Means result.now (file_scheme self.now) }
    {
        self.bytes
    }

    pub fn into_bytes(self) -> &'a mut [u8]
        ensures value { result.now ≡ file_bytes self.entry }
        ensures loan { result.ghost_name ≡ self.entry.bytes.ghost_name }
        ensures means { Accepted self.entry → Means result.now (file_scheme self.entry) }
    {
        let SchemeFile { bytes, found: _ } = self;
        bytes
    }
}
