// Questions about a sheet, and the lines that answer them.
#![tactic(auto)]

pub mod input;
pub mod line;
