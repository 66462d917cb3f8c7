// Bytes lent to a file by what reading them found, and the file as a view.
ghost use Rattle.std.specs.Prelude.{◌≡◌};
ghost use Rattle.scheme_file.specs.Files.{Accepted, FoundIn, file_bytes, file_scheme, view_bytes};
ghost use Rattle.scheme_file.specs.Layout.{Means};

use crate::files::SchemeFile;
use crate::reading::Found;
use crate::views::SchemeView;

impl<'a> SchemeFile<'a> {
    // The file that these bytes are, by what reading them found. Rows found in other bytes do no harm: those that do
    // not lie in these count as none.
    pub fn lend(bytes: &'a mut [u8], found: Found) -> SchemeFile<'a>
        ensures same { file_bytes result ≡ bytes.old }
        ensures loan { result.bytes.ghost_name ≡ bytes.entry.ghost_name }
        ensures rows { result.found ≡ found }
        ensures accepted { FoundIn bytes.old found → Accepted result }
        ensures means { FoundIn bytes.old found → Means bytes.old (file_scheme result) }
    {
        SchemeFile { bytes, found }
    }

    // The file as it is now, to be read.
    pub fn view(&self) -> SchemeView<'_>
        ensures same { view_bytes result ≡ file_bytes self.now }
        ensures rows { result.found ≡ self.now.found }
    {
        SchemeView::new(self.bytes, self.found)
    }
}
