// Requests of one step of the fit. A kind has one function from a line to its reply; to a line of
// another kind it has none.
#![tactic(auto)]

pub mod steps; // steps.rt: iter_4 and iter_5
