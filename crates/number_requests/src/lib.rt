// Requests of the number leaves. A kind has one function from a line to its reply; to a line of
// another kind it has none.
#![tactic(auto)]

pub mod leaves; // leaves.rt: the number leaves
