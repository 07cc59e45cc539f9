// Requests of prices on the sigmoid curve. A kind has one function from a line to its reply; to a
// line of another kind it has none.
#![tactic(auto)]

pub mod curves; // curves.rt: the width, the price of a size, the limit price
