// A file without flow: the bytes are lent to a file for as long as it takes, and the lender knows what they are after.
ghost use Rattle.std.specs.Prelude.{◌≡◌, MatchResult};
ghost use Rattle.scheme.specs.Refusals.{file_refusal, refusal_of};
ghost use Rattle.scheme_file.specs.Asked.{file_fault};
ghost use Rattle.scheme_file.specs.Clearing.{Cleared};

use crate::files::SchemeFile;
use crate::reading::read;
use scheme::{FileFault, clear_flows};

// Writes flow 0 into every row of a file. Bytes that are no file stay as they are.
pub fn clear_file(bytes: &mut [u8]) -> Result<(), FileFault>
    ensures fault { refusal_of file_refusal result ≡ file_fault bytes.old }
    ensures after { MatchResult result (λ _. Cleared bytes.old bytes.new) (λ _. bytes.new ≡ bytes.old) }
{
    let found = read(bytes)?;
    let mut file = SchemeFile::lend(bytes, found);
    clear_flows(&mut file);
    Ok(())
}
