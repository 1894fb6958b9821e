// The library for readers, to be linked from C: check a sheet, mark one question about it, explain a refusal.
#![tactic(auto)]

pub mod exports;
pub mod verdict;
