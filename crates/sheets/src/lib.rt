// Sheets: reading puzzles from their bytes, and the tasks that they describe.
#![tactic(auto)]

mod bytes;
pub mod finite_domain;
pub mod finite_domain_task;
mod frame;
pub mod head;
pub mod kind;
pub mod reading;
pub mod record;
pub mod sheet;
pub mod strips;
pub mod strips_task;
pub mod task;
