// A published claim: a scheme file, and the points of a side that is said to hold its flow down.
#![tactic(auto)]

pub mod lines;
pub mod marks;
pub mod reviewing;

pub use lines::side_text;
pub use marks::marks_of;
pub use reviewing::{Claim, Stop, review};

#[cfg(test)]
mod tests;
