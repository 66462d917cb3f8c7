// Scheme files: a run of records, read, refused with a place, and used where they lie as a register or a book.
#![tactic(auto)]

pub mod clearing;
pub mod files;
pub mod kinds;
mod numbers;
pub mod parts;
pub mod reading;
pub mod views;
pub mod walking;

pub use clearing::clear_file;
pub use files::SchemeFile;
pub use kinds::{Kind, UnknownKind};
pub use parts::{Part, part_at};
pub use reading::{Found, MOST_BYTES, read};
pub use views::SchemeView;
pub use walking::Parts;
