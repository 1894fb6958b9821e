// The marker: whether a cheapest solution from a state begins with an action, by a search in turns.
#![tactic(auto)]

pub mod calls;
mod checks;
pub mod mark;
pub mod marking;
mod search;
