// Heuristics, and layers over heuristics.
#![tactic(auto)]

pub mod blind;
pub mod check;
pub mod maximum;
pub mod strided;
pub mod table;
