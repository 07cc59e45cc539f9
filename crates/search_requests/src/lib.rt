// Requests of one search over the grid. A kind has one function from a line to its reply; to a line
// of another kind it has none.
#![tactic(auto)]

pub mod searches; // searches.rt: one search
