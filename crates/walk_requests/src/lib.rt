// Requests of a walk of the fit. A kind has one function from a line to its reply; to a line of
// another kind it has none.
#![tactic(auto)]

pub mod walks; // walks.rt: a walk
