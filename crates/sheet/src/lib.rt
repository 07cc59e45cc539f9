// The count sheet: a text of open orders in; out, for each order, what is live at its start and the
// budget size.
#![tactic(auto)]

mod rows; // rows.rt: the rows of the spans
mod whole; // whole.rt: all of it, bytes in to bytes out

pub use whole::count_sheet;
