// The solver: six calls on any book, with any pick, and the run of a list of them.
#![tactic(auto)]

pub mod answers;
mod asking;
pub mod asks;
mod cutting;
pub mod desks;
mod joining;
pub mod laws;
mod opening;
mod ordering;
mod placing;
mod pushing;
mod raising;
mod replaying;
mod rounds;
mod settling;

pub use cutting::cut;
pub use opening::{limit, open, value};
pub use replaying::replay;
pub use rounds::round;
pub use settling::settle;
