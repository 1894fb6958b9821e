#![tactic(auto)]

// The format of sheets: layouts and checks in specs/, and what they have to do with each other in proofs/.
