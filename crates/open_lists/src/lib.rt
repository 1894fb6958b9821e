// Two open lists over memory that the caller lends: a heap, and the flat list that it is tested against.
#![tactic(auto)]

pub mod flat;
pub mod heap;
pub mod order;
