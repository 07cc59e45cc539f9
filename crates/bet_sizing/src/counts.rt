// How many spans of each side are live at each span's start: starts up to then less ends up to
// then, each found by its rank in a sorted list.
ghost use Rattle.std.specs.Prelude.{◌≡◌, ◌≤◌, ◌<◌, ◌&&◌, length, slice_index};
ghost use Rattle.std.specs.Int.Signed.{lt_z};
ghost use Rattle.bet_sizing.specs.Counting.{Collected, Counted, Nettable, Netted};
ghost use Rattle.bet_sizing.specs.Counts.{on_side};
ghost use Rattle.bet_sizing.specs.Refusals.{ConcurrentSides};

use crate::{refusals, sorting};
use refusal::Refusal;

// A span is long where its number is above 0, and short otherwise.
#[derive(Clone, Copy, Debug, PartialEq, Eq)]
pub enum Side {
    Long,
    Short,
}

// Whether a span's number puts it on the side.
fn on_side(side: Side, number: f64) -> bool
    ensures { result ≡ on_side side number }
{
    let up = number > 0.0;
    match side {
        Side::Long => up,
        Side::Short => !up,
    }
}

// Whether a span is of the side that is asked for and ends after it starts.
fn ever_live(side: Side, start: i64, end: i64, number: f64) -> bool
    ensures { result ≡ (lt_z start end && on_side side number) }
{
    start < end && on_side(side, number)
}

// Writes for each instant the number of starts up to then less the number of ends up to then.
fn net_counts(starts: &[i64], s: &[u64], e: &[u64], out: &mut [f64])
    requires { Nettable starts.now s.now e.now out.old }
    ensures { Netted starts.now s.now e.now out.old out.new }
{
    for (i, start) in starts.iter().enumerate() {
        let k = number::key(*start);
        let count = sorting::rank_of(s, k).saturating_sub(sorting::rank_of(e, k));
        // by index, since after a zip of iter_mut a proof knows nothing of the elements. The u32 spares a
        // proof that nothing is rounded: f64 holds each u32
        out[i] = count as u32 as f64;
    }
}

// As many ends and sides as starts, and few enough.
#[derive(Clone, Copy)]
struct Spans<'a> {
    starts: &'a [i64],
    ends: &'a [i64],
    sides: &'a [f64],
    ghost ends_as_many: { length starts.now ≡ length ends.now },
    ghost sides_as_many: { length starts.now ≡ length sides.now },
    ghost few: { length starts.now ≤ 16384 },
}

impl Spans<'_> {
    // Writes the keys of the starts and of the ends of a side's spans that are ever live, and answers
    // how many.
    fn collect(&self, side: Side, s: &mut [u64], e: &mut [u64]) -> usize
        requires { (length self.now.starts.now ≤ length s.old) × (length self.now.starts.now ≤ length e.old) }
        ensures { Collected side self.now.starts.now self.now.ends.now self.now.sides.now s.new e.new result }
    {
        let mut m = 0;
        for ((start, end), number) in self.starts.iter().zip(self.ends).zip(self.sides) {
            // each is written, and the test only moves the next place: by an `if` round all three, random
            // sides took the same loop in Rust four times as long. By index, since a proof knows nothing of
            // the elements after a zip of iter_mut
            s[m] = number::key(*start);
            e[m] = number::key(*end);
            m += usize::from(ever_live(side, *start, *end, *number));
        }
        m
    }

    // Writes for each span the number of a side live at its start.
    fn count(&self, side: Side, out: &mut [f64])
        requires { length self.now.starts.now ≤ length out.old }
        ensures { Counted side self.now.starts.now self.now.ends.now self.now.sides.now out.old out.new }
    {
        // arrays for the most spans that there may be: a Vec may run out of memory
        let mut s = [0u64; 16384];
        let mut e = [0u64; 16384];
        let m = self.collect(side, &mut s, &mut e);
        let s = &mut s[..m];
        let e = &mut e[..m];
        s.sort_unstable();
        e.sort_unstable();
        net_counts(self.starts, s, e, out);
    }
}

// Writes for each span how many are live at its start, the long and the short.
pub fn get_concurrent_sides(
    starts: &[i64],
    ends: &[i64],
    sides: &[f64],
    long: &mut [f64],
    short: &mut [f64],
) -> Result<usize, Refusal>
    ensures { ConcurrentSides starts.now ends.now sides.now long.old long.new short.old short.new result }
{
    let room = long.len().min(short.len());
    refusals::check_spans(starts.len(), ends.len(), sides.len(), room)?;
    let spans = Spans {
        starts,
        ends,
        sides,
    };
    spans.count(Side::Long, long);
    spans.count(Side::Short, short);
    Ok(starts.len())
}
