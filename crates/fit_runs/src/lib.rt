// Several searches: the Rust's mp_fit, rows as flat numbers.
#![tactic(auto)]

ghost use Rattle.std.specs.Prelude.{◌≡◌, ◌+◌, ◌*◌, ◌≤◌, length};
ghost use Rattle.fit_runs.specs.Runs.{Runnable, all_runs, flat_fit, put_in, rows_out};

use fit_state::{FitResultRow, M2N};
use refusal::Refusal;

// The rows of several runs as flat numbers, six each, zeros behind them; and how many rows there are, or
// why there are none. C reads a row as six numbers. There is no heap, so it has the places of the most rows,
// 64, and goes by value.
#[derive(Clone, Copy)]
pub struct Flat {
    pub numbers: [f64; 384],
    pub outcome: Result<usize, Refusal>,
}

// Puts a run's row, if it has one, behind the first `count`, and answers how many there are then.
fn put(numbers: &mut [f64], count: usize, o: Result<Option<FitResultRow>, Refusal>) -> usize
    requires { 6 * count + 6 ≤ length numbers.old }
    ensures { (result ≡ count + length (rows_out o)) × (numbers.new ≡ put_in numbers.old count o) }
{
    let Ok(Some(row)) = o else {
        return count;
    };
    row.put_at(numbers, count);
    count + 1
}

// Each run starts from the same state and takes the next weights. No `chunks`: a search may have 0 rows, and
// a chunk has at least one number.
#[tactic(auto, using(crate::proofs::Running::room))]
fn all(m: M2N, weights: &[f64]) -> Flat
    requires { Runnable m weights.now }
    ensures { result ≡ all_runs m weights.now }
{
    let rows = fit_refusals::rows_of(m.epsilon);
    let mut numbers = [0.0f64; 384];
    let mut count = 0;
    for k in 0..m.n_runs {
        let f = grid::single_fit_loop(m, None, &weights[k * rows..]);
        count = put(&mut numbers, count, f.outcome);
    }
    Flat {
        numbers,
        outcome: Ok(count),
    }
}

// Several runs, each from a copy of the state and with the next weights. `places` is how many rows the
// caller has room for.
#[tactic(auto, using(crate::proofs::Running::runs_known, crate::proofs::Running::refused, crate::proofs::Running::allowed))]
pub fn mp_fit_flat(m: M2N, weights: &[f64], places: usize) -> Flat
    ensures { result ≡ flat_fit m weights.now places }
{
    if let Err(refusal) = fit_refusals::check_runs(m, weights, places) {
        return Flat {
            numbers: [0.0f64; 384],
            outcome: Err(refusal),
        };
    }
    all(m, weights)
}
