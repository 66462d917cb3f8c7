// The laws of flows, orderings and pushes. Each function stands for the theorem that its contract states;
// its code has nothing to do.
#![tactic(auto)]

pub mod orderings;
pub mod pushes;
pub mod rounds;
pub mod sides;
pub mod worked;
