// Requests of moments. A kind has one function from a line to its reply; to a line of another kind
// it has none.
#![tactic(auto)]

pub mod orders; // orders.rt: moments and their orders
