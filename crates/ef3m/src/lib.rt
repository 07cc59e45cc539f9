// The Rust's call with `&mut self`: a state lent to one search. It is no method, since `M2N` is a type of a
// crate below the grid.
#![tactic(auto)]

ghost use Rattle.std.specs.Prelude.{◌≡◌};
ghost use Rattle.grid.specs.Search.{single_fit};

use fit_state::{FitResultRow, M2N};
use grid::Fitted;
use refusal::Refusal;

// One search, which leaves the state in the one that is lent.
pub fn single_fit_loop(
    m: &mut M2N,
    epsilon_override: Option<f64>,
    weights: &[f64],
) -> Result<Option<FitResultRow>, Refusal>
    ensures { (result ≡ (single_fit m.old epsilon_override weights.now).outcome)
        × (m.new ≡ (single_fit m.old epsilon_override weights.now).state) }
{
    let fitted = grid::single_fit_loop(*m, epsilon_override, weights);
    *m = fitted.state;
    fitted.outcome
}

// The same by value. `search_requests` calls it in place of grid's function, so that what the programs
// answer, and what is compared with the Rust, is the lent form itself.
pub fn single_fit_through(m: M2N, epsilon_override: Option<f64>, weights: &[f64]) -> Fitted
    ensures { result ≡ single_fit m epsilon_override weights.now }
{
    let mut state = m;
    let outcome = single_fit_loop(&mut state, epsilon_override, weights);
    Fitted { state, outcome }
}
