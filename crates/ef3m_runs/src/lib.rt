// The Rust's several runs, with the rows in a list that the caller lends.
#![tactic(auto)]

ghost use Rattle.std.specs.Prelude.{◌≡◌, ◌++◌, ◌+◌, ◌*◌, ◌≤◌, length, drop};
ghost use Rattle.fit_runs.specs.Runs.{mp_fit, mp_rows};
ghost use Rattle.fit_state.specs.Rows.{rows_at};

use fit_state::{FitResultRow, M2N};
use refusal::Refusal;

// The first n rows come from flat numbers, and the others stay. They are put by index: of what goes through
// a zip of `iter_mut` a proof knows no element afterwards.
fn fill(rows: &mut [FitResultRow], flat: &[f64], n: usize)
    requires { (n ≤ length rows.old) × (6 * n ≤ length flat.now) }
    ensures { rows.new ≡ rows_at flat.now n ++ drop n rows.old }
{
    let (sixes, _) = flat.as_chunks::<6>();
    for (i, six) in sixes[..n].iter().enumerate() {
        rows[i] = FitResultRow::from(*six);
    }
}

// Several runs, whose rows go into the first of the lent ones.
#[tactic(auto, using(crate::proofs::Read::outcome_is, crate::proofs::Read::rows_are, crate::proofs::Read::rows_fit, crate::proofs::Read::rows_stay))]
pub fn mp_fit(m: M2N, weights: &[f64], rows: &mut [FitResultRow]) -> Result<usize, Refusal>
    ensures { (result ≡ mp_fit m weights.now (length rows.old))
        × (rows.new ≡ mp_rows m weights.now rows.old) }
{
    let flat = fit_runs::mp_fit_flat(m, weights, rows.len());
    let n = flat.outcome?;
    fill(rows, &flat.numbers, n);
    Ok(n)
}

// 64 rows after several runs, and how many of them are new, or why none is.
#[derive(Clone, Copy)]
pub struct Runs {
    pub rows: [FitResultRow; 64],
    pub outcome: Result<usize, Refusal>,
}

// mp_fit by value: it is lent the 64 rows, and what it left in them is handed back. No program calls it
// today (`run_requests` lends a slice); it stays because callers were promised it.
pub fn mp_fit_through(m: M2N, weights: &[f64], rows: [FitResultRow; 64]) -> Runs
    ensures { (result.outcome ≡ mp_fit m weights.now 64) × (result.rows ≡ mp_rows m weights.now rows) }
{
    let mut t = rows;
    let outcome = mp_fit(m, weights, &mut t);
    Runs { rows: t, outcome }
}
