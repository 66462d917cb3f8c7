// Layers: registers that stand on any register, and books that stand on any book.
#![tactic(auto)]

mod gates;
pub mod junction_laws;
pub mod junctions;
pub mod turn_laws;
pub mod turns;

pub use junctions::Junction;
pub use turns::Turned;
