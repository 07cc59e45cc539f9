// How many bets of each side are live at the start of each, from their sides and lifespans.
#![tactic(auto)]

pub mod counts; // counts.rt: the counts
pub mod refusals; // refusals.rt: what is turned away
pub mod sorting; // sorting.rt: the rank of a key in a sorted list

pub use counts::get_concurrent_sides;
