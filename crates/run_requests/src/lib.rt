// Requests of several runs of the fit. A kind has one function from a line to its reply; to a line of
// another kind it has none.
#![tactic(auto)]

pub mod runs; // runs.rt: several runs
