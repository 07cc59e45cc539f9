// Requests of bet sizes. A kind has one function from a line to its reply; to a line of another kind
// it has none.
#![tactic(auto)]

pub mod spans; // spans.rt: the counts and the budget over spans
