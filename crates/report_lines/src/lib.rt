// The lines of a report as bytes, one at a time, with no memory asked for.
#![tactic(auto)]

mod lines;
mod page;

pub use lines::LINE_BYTES;
pub use page::report_line;
