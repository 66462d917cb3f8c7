// Worked schemes that only these tests go by.
use worked_examples::{Dry, EXAMPLE_FILE};

// The example as a scheme file with a note behind the rows.
pub(crate) fn noted_file() -> [u8; 88] {
    let mut bytes = [0; 88];
    bytes[..78].copy_from_slice(EXAMPLE_FILE);
    bytes[78..].copy_from_slice(b"\x04\0\0\0\x03\0note");
    bytes
}

// Two ways of equal width.
pub const DIAMOND: [Dry; 4] = [(0, 1, 1), (0, 2, 1), (1, 3, 1), (2, 3, 1)];
