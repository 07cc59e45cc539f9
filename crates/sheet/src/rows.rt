// The rows of spans: for each, in order, the counts live at its start and the budget size.
ghost use Rattle.sheet.specs.Meaning.{Countable, Written};
ghost use Rattle.sheet.specs.Rows.{row_lines};

use sheet_rows::Row;
use text_write::Text;

// Counts and sizes the spans, which are three lists as the counts and the sizes take them, and puts their
// rows.
pub(crate) fn put(text: &mut Text, starts: &[i64], ends: &[i64], sides: &[f64])
    requires { Countable starts.now ends.now sides.now text.old }
    ensures { Written text.new (row_lines starts.now ends.now sides.now) }
{
    // arrays for the most lines that a sheet may have: a Vec may run out of memory
    let mut long = [0.0f64; 1024];
    let mut short = [0.0f64; 1024];
    let mut size = [0.0f64; 1024];
    bet_sizing::get_concurrent_sides(starts, ends, sides, &mut long, &mut short).unwrap();
    budget::bet_size_budget(starts, ends, sides, &mut size).unwrap();
    // by index, which is plainer than four lists zipped
    for i in 0..starts.len() {
        let row = Row {
            at: starts[i],
            long: number::as_usize(long[i]) as u64,
            short: number::as_usize(short[i]) as u64,
            size: std::num::f64_to_bits_with_nan(size[i]),
        };
        sheet_rows::put_row(text, row);
    }
}
