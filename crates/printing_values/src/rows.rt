// A row for each span. The starts of rows are read from the request again.
ghost use Rattle.std.specs.Prelude.{◌≡◌, ◌++◌, get_or};
ghost use Rattle.std.specs.Float.{nan};
ghost use Rattle.printing_values.specs.Rows.{entries, rows, rows_from, starts};
ghost use Rattle.text_write.specs.Appending.{Puts};
ghost use Rattle.printing_values.specs.Texts.{fractions, natural};

use crate::numbers;
use replies::{Columns, SpanRows};
use text_write::Text;

// How many, then the rows.
pub(crate) fn put(text: &mut Text, r: SpanRows, s: &[u8], xs: &[f64])
    ensures { Puts text.old text.new (natural r.count ++ rows r s.now xs.now) }
{
    numbers::put_natural(text, r.count as u64);
    let starts = &s[r.starts.min(s.len())..];
    put_rows(text, r.columns, starts, xs);
}

// The rows, whose starts are the list at the front of s.
fn put_rows(text: &mut Text, columns: Columns, s: &[u8], xs: &[f64])
    ensures { Puts text.old text.new (rows_from columns xs.now 0 (starts s.now)) }
{
    let Some((n, starts)) = protocol::read_next::<usize>(s) else {
        return;
    };
    let mut rest = starts;
    for i in 0..n {
        let Some((t, after)) = protocol::read_next::<i64>(rest) else {
            return;
        };
        numbers::put_instant(text, t);
        put_entries(text, columns, xs, i);
        rest = after;
    }
}

// The fractions of row i, of no column none. The first column begins where the list does, the second in its middle.
#[tactic(auto, unfolding(crate::specs::Texts::fractions))]
fn put_entries(text: &mut Text, columns: Columns, xs: &[f64], i: usize)
    ensures { Puts text.old text.new (fractions (entries columns xs.now i)) }
{
    let first = entry(xs, i);
    match columns {
        Columns::Zero => {}
        Columns::One => numbers::put_fractions(text, &[first]),
        Columns::Two => numbers::put_fractions(text, &[first, entry(&xs[xs.len() / 2..], i)]),
    }
}

fn entry(xs: &[f64], i: usize) -> f64
    ensures { result ≡ get_or xs.now i nan }
{
    xs.get(i).copied().unwrap_or(f64::NAN)
}
