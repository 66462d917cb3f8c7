// Registers and books of channels, the questions put to them, and the review of a published side.
#![tactic(auto)]

pub mod clearing;
pub mod faults;
pub mod few;
pub mod questions;
pub mod registers;
pub mod review;
pub mod rows;
pub mod tables;
#[cfg(test)]
mod tests;
pub mod words;

pub use clearing::clear_flows;
pub use faults::{BookFault, CallFault, FileFault, Layer, PickFault, Refusal};
pub use few::Few;
pub use questions::{ask_book, ask_form, is_shaped};
pub use registers::{Book, Register};
pub use review::{capacity_unasked, check, is_side_of_shaped, value_of, value_unasked};
pub use rows::{Reach, reach_of};
pub use tables::Table;
