// One search and several runs, for C. Parameters stand one by one, as the header declares them: a struct
// would tie C to its layout. C has neither Option nor Result, so a refusal is the number that the header
// gives it, and a row that may be missing a count, 1 or 0.
ghost use Rattle.std.specs.Prelude.{◌≡◌, ◌≤◌, length};
ghost use Rattle.refusal.specs.Numbers.{status_of};
ghost use Rattle.capi.specs.Fits.{MpFitLeaves, Roomy, SingleFitLeaves, filled_of, fitted, how_many, outcome_of, override_of, ran, with_best};

use fit_runs::Flat;
use fit_state::FitResultRow;
use grid::Fitted;
use refusal::Refusal;

// C has no optional number: an empty slice stands for none.
fn override_of(l: &[f64]) -> Option<f64>
    ensures { result ≡ override_of l.now }
{
    l.first().copied()
}

// How many rows there are, 1 or 0; without a row the lent numbers stay as they were.
#[tactic(auto, using(crate::proofs::Fronts::front_row))]
fn leave_row(best: Option<FitResultRow>, row: &mut [f64]) -> usize
    requires { 6 ≤ length row.old }
    ensures { (result ≡ how_many best) × (row.new ≡ with_best row.old best) }
{
    let Some(r) = best else {
        return 0;
    };
    r.put_at(row, 0);
    1
}

// Leaves what came of a search in the lent numbers; a refusal leaves them as they were.
fn leave(f: Fitted, fit: &mut [f64], row: &mut [f64], rows: &mut usize) -> Result<(), Refusal>
    requires { (12 ≤ length fit.old) × (6 ≤ length row.old) }
    ensures { SingleFitLeaves f.outcome f.state fit.old row.old rows.old (status_of result) fit.new row.new rows.new }
{
    let best = f.outcome?;
    capi_states::put_state(fit, f.state);
    *rows = leave_row(best, row);
    Ok(())
}

// One search (the Rust's M2N::single_fit_loop). `fit` holds the state, 12 numbers: mu_1, mu_2, sigma_1,
// sigma_2, p_1, error, epsilon, new_moments; `row` takes a row, 6 numbers, and `rows` how many there are,
// 0 or 1. Answers 0, or the number of the refusal, which leaves all as it was; 8 where `fit` or `row` is
// too short.
#[unsafe(no_mangle)]
pub extern "C" fn woddirme_single_fit_loop(
    moments: &[f64],
    variant: usize,
    factor: f64,
    max_iter: usize,
    epsilon_override: &[f64],
    weights: &[f64],
    fit: &mut [f64],
    row: &mut [f64],
    rows: &mut usize,
) -> u64
    ensures { SingleFitLeaves (outcome_of moments.now variant factor max_iter epsilon_override.now weights.now fit.old row.old)
        (fitted moments.now variant factor max_iter epsilon_override.now weights.now fit.old).state
        fit.old row.old rows.old result fit.new row.new rows.new }
{
    if fit.len() < 12 || row.len() < 6 {
        return u64::from(Refusal::TooLittleRoom);
    }
    let m = capi_states::state_of(moments, variant, factor, max_iter, 1, fit);
    let f = grid::single_fit_loop(m, override_of(epsilon_override), weights);
    refusal::status_of(leave(f, fit, row, rows))
}

// Leaves the rows of several runs in the lent numbers; a refusal leaves them as they were.
fn leave_rows(f: Flat, rows: &mut [f64], count: &mut usize) -> Result<(), Refusal>
    requires { Roomy f rows.old }
    ensures { MpFitLeaves f.outcome f.numbers rows.old count.old (status_of result) rows.new count.new }
{
    let n = f.outcome?;
    rows[..6 * n].copy_from_slice(&f.numbers[..6 * n]);
    *count = n;
    Ok(())
}

// Several runs (the Rust's M2N::mp_fit), each from a copy of the state in `fit` and with the next weights.
// `rows` takes the rows, six numbers each, and `count` how many there are. Answers 0, or the number of the
// refusal, which leaves all as it was; 8 where `fit` is too short or `rows` has too few places.
#[unsafe(no_mangle)]
pub extern "C" fn woddirme_mp_fit(
    moments: &[f64],
    variant: usize,
    factor: f64,
    max_iter: usize,
    n_runs: usize,
    weights: &[f64],
    fit: &[f64],
    rows: &mut [f64],
    count: &mut usize,
) -> u64
    ensures { MpFitLeaves (filled_of moments.now variant factor max_iter n_runs weights.now fit.now rows.old)
        (ran moments.now variant factor max_iter n_runs weights.now fit.now rows.old).numbers
        rows.old count.old result rows.new count.new }
{
    if fit.len() < 12 {
        return u64::from(Refusal::TooLittleRoom);
    }
    let m = capi_states::state_of(moments, variant, factor, max_iter, n_runs, fit);
    let f = fit_runs::mp_fit_flat(m, weights, rows.len() / 6);
    refusal::status_of(leave_rows(f, rows, count))
}
