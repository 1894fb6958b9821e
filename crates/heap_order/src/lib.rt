#![tactic(auto)]

// What a heap of labelled entries is, and what writes and exchanges do to it: definitions and lemmas alone.
