// The interfaces of the planner and the plain types that its parts share.
#![tactic(auto)]

pub mod cost;
pub mod heuristic;
pub mod label;
pub mod open_list;
pub mod refusal;
pub mod status;
pub mod task;
pub mod theorem;
