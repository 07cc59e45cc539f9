// Requests of the counts and the budget over spans. A side has 17 bytes of a line of at most 65,535, so a
// line has fewer than 4,096 of them. More starts or ends are unequal to them in number, also when cut to
// their 4,096 places. Arrays hold them, as in all kinds of requests: a Vec may find no memory.
ghost use Rattle.std.specs.Prelude.{◌≤◌, ◌≡◌, length};
ghost use Rattle.bet_requests.specs.Spans.{asked_in, left_by, reply_of, sides_in, sides_rows, sizes_in, sizes_rows, spans, spans_in, words};
ghost use Rattle.protocol.specs.Words.{only};
ghost use Rattle.replies.specs.Requests.{only_or};

use protocol_lists::kept;
use refusal::Refusal;
use replies::{Columns, Reply, SpanRows};

// The fractions of an answer are left in xs.
pub fn answer(s: &[u8], xs: &mut [f64]) -> Option<Reply>
    ensures { (result ≡ spans (length xs.old) s.now)
        × (xs.new ≡ spans_in xs.old s.now) }
{
    if let Some(words) = protocol::words_after(s, b"concurrent_sides") {
        return request(Kind::ConcurrentSides, s.len(), words, xs);
    }
    if let Some(words) = protocol::words_after(s, b"budget") {
        return request(Kind::Budget, s.len(), words, xs);
    }
    None
}

// What is asked for. An enum, since the contracts say by it which definition answers.
#[derive(Clone, Copy)]
enum Kind {
    ConcurrentSides,
    Budget,
}

// What is asked: the room for the answer, the place in the line before the starts, and the spans. A place
// and no slice, as in SpanRows: with a slice `Reply` has a lifetime, and so has each kind's `answer`; and
// since a contract says of a slice what it holds, the definitions need a second `Reply`, as they have a
// second `Asked`.
#[derive(Clone, Copy)]
struct Asked<'a> {
    room: usize,
    from: usize,
    starts: &'a [i64],
    ends: &'a [i64],
    sides: &'a [f64],
}

// The reply by the words s of a line of `size` bytes.
#[tactic(auto, unfolding(crate::specs::Spans::asked))]
fn request(kind: Kind, size: usize, s: &[u8], xs: &mut [f64]) -> Option<Reply>
    ensures { (result ≡ only (words (reply_of kind (length xs.old)) size s.now))
        × (xs.new ≡ only_or xs.old (words (left_by kind xs.old) size s.now)) }
{
    let (room, s) = protocol::read_next(s)?;
    // What is left is part of the line, so this is its place. Saturating, it asks for no proof of that.
    let from = size.saturating_sub(s.len());
    let mut starts = [0i64; 4096];
    let (n_starts, s) = protocol_lists::read_next_list(s, &mut starts)?;
    let mut ends = [0i64; 4096];
    let (n_ends, s) = protocol_lists::read_next_list(s, &mut ends)?;
    let mut sides = [0.0f64; 4096];
    let n_sides = protocol::only(protocol_lists::read_next_list(s, &mut sides))?;
    let asked = Asked {
        room,
        from,
        starts: kept(&starts, n_starts),
        ends: kept(&ends, n_ends),
        sides: kept(&sides, n_sides),
    };
    let rows = match kind {
        Kind::ConcurrentSides => concurrent_sides(asked, xs),
        Kind::Budget => bet_size_budget(asked, xs),
    };
    Some(rows.map_or_else(Reply::from, Reply::Spanned))
}

// The counts of longs go into the first half of xs, those of shorts into the second.
fn concurrent_sides(a: Asked<'_>, xs: &mut [f64]) -> Result<SpanRows, Refusal>
    requires { length a.starts.now ≤ 4096 }
    ensures { (result ≡ sides_rows (length xs.old) (asked_in a.entry))
        × (xs.new ≡ sides_in xs.old (asked_in a.entry)) }
{
    let half = xs.len() / 2;
    let places = a.room.min(half);
    let mut short = [0.0f64; 4096];
    let count = bet_sizing::get_concurrent_sides(
        a.starts,
        a.ends,
        a.sides,
        &mut xs[..places],
        &mut short,
    )?;
    xs[half..half + count].copy_from_slice(&short[..count]);
    Ok(SpanRows {
        count,
        columns: Columns::Two,
        starts: a.from,
    })
}

fn bet_size_budget(a: Asked<'_>, xs: &mut [f64]) -> Result<SpanRows, Refusal>
    ensures { (result ≡ sizes_rows (length xs.old) (asked_in a.entry))
        × (xs.new ≡ sizes_in xs.old (asked_in a.entry)) }
{
    let places = a.room.min(xs.len());
    let count = budget::bet_size_budget(a.starts, a.ends, a.sides, &mut xs[..places])?;
    Ok(SpanRows {
        count,
        columns: Columns::One,
        starts: a.from,
    })
}
