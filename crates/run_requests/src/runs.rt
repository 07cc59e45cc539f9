// The request of several runs. A list of moments longer than 16 is read, and refused by the library. A
// weight has 17 bytes of a line of at most 65,535, so a line has fewer than 4,096 of them; and there are
// at most 64 rows. Both stand in arrays, since a Vec may find no memory; the moments' is the state's own.
ghost use Rattle.std.specs.Prelude.{◌+◌, ◌*◌, ◌≤◌, ◌≡◌, length};
ghost use Rattle.protocol.specs.Words.{only};
ghost use Rattle.replies.specs.Requests.{only_or};
ghost use Rattle.run_requests.specs.Runs.{asked, asked_of, rows_in, runs, runs_in, runs_reply, with_rows, words};

use fit_state::{FitResultRow, M2N};
use replies::Reply;

// The rows are left in xs.
pub fn answer(s: &[u8], xs: &mut [f64]) -> Option<Reply>
    ensures { (result ≡ runs (length xs.old) s.now)
        × (xs.new ≡ runs_in xs.old s.now) }
{
    mp_fit(protocol::words_after(s, b"mp_fit")?, xs)
}

#[tactic(auto, unfolding(crate::specs::Runs::asked))]
fn mp_fit(s: &[u8], xs: &mut [f64]) -> Option<Reply>
    ensures { (result ≡ only (words (runs_reply (length xs.old)) asked s.now))
        × (xs.new ≡ only_or xs.old (words (rows_in xs.old) asked s.now)) }
{
    let mut weights = [0.0; 4096]; // first: made below the words, it was cleared twice
    let (variant, s) = protocol::read_next(s)?;
    let mut moments = [0.0; 16];
    let (len, s) = protocol_lists::read_next_list(s, &mut moments)?;
    let ([epsilon, factor], s) = protocol_lists::read_next_fractions::<2>(s)?;
    let (max_iter, s) = protocol::read_next(s)?;
    let (n_runs, s) = protocol::read_next(s)?;
    let (places, s) = protocol::read_next(s)?;
    let (fit, s) = protocol_lists::read_next_state(s)?;
    let n = protocol::only(protocol_lists::read_next_list(s, &mut weights))?;
    let m = M2N {
        moments,
        len,
        epsilon,
        factor,
        n_runs,
        variant,
        max_iter,
        ..M2N::from(fit)
    };
    Some(fill(m, protocol_lists::kept(&weights, n), places, xs))
}

// The rows that are new go in front of xs. There is room for as many as are asked for, and as xs has
// places for; where it is for more than 64, which is the most that there are, it is as if for 64.
fn fill(m: M2N, weights: &[f64], places: usize, xs: &mut [f64]) -> Reply
    ensures { (result ≡ runs_reply (length xs.old) (asked_of m weights.now places))
        × (xs.new ≡ rows_in xs.old (asked_of m weights.now places)) }
{
    let room = places.min(xs.len() / 6);
    let mut rows = [FitResultRow::default(); 64];
    match ef3m_runs::mp_fit(m, weights, &mut rows[..room.min(64)]) {
        Ok(n) => {
            put_rows(xs, &rows[..n]);
            Reply::Listed {
                count: n,
                len: 6 * n,
            }
        }
        Err(refusal) => Reply::from(refusal),
    }
}

// Puts the rows in front of xs, six numbers each. Its places past them stay.
fn put_rows(xs: &mut [f64], rows: &[FitResultRow])
    requires { 6 * length rows.now ≤ length xs.old }
    ensures { xs.new ≡ with_rows rows.now xs.old }
{
    for (i, row) in rows.iter().enumerate() {
        row.put_at(xs, i);
    }
}
