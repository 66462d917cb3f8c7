// The priority queue over points that the ordering asks, and the kinds of it.
#![tactic(auto)]

pub mod heaps;
mod kinds;
pub mod picks;
pub mod scans;
mod trees;

pub use either::Either;
pub use heaps::Heap;
pub use picks::{GREATEST_KEY, Pick};
pub use scans::Scan;

#[cfg(test)]
mod tests;
