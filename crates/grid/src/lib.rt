// One search over a grid of starting means, by value.
#![tactic(auto)]

ghost use Rattle.std.specs.Prelude.{◌≡◌};
ghost use Rattle.grid.specs.Search.{single_fit};

use fit_state::{After, FitResultRow, M2N};

pub mod search; // search.rt: a search that is not refused

// A search leaves at most one row.
pub type Fitted = After<Option<FitResultRow>>;

// One search: the Rust's single_fit_loop, with starting weights from a lent list in place of draws. The
// epsilon in force is the one given for this search, or the state's own.
#[tactic(auto, using(crate::proofs::Known::served, crate::proofs::Searching::refused, crate::proofs::Searching::ended))]
pub fn single_fit_loop(m: M2N, epsilon_override: Option<f64>, weights: &[f64]) -> Fitted
    ensures { result ≡ single_fit m epsilon_override weights.now }
{
    let epsilon = epsilon_override.unwrap_or(m.epsilon);
    if let Err(refusal) = fit_refusals::check_grid(m, epsilon, weights) {
        return Fitted {
            state: m,
            outcome: Err(refusal),
        };
    }
    let s = search::fit(m, epsilon, weights);
    Fitted {
        state: s.state,
        outcome: Ok(s.best),
    }
}
