// One search over the grid.
ghost use Rattle.std.specs.Prelude.{◌≡◌};
ghost use Rattle.grid.specs.Search.{Served, centred_fit, fit_of, is_centred, moved_best, plain_fit};

use fit_state::{FitResultRow, M2N};
use walk::Variant;

// What a search leaves, and its row. Nothing is refused here, so this is no `Fitted`: that has a Result,
// which would never be an Err, and which `centred_fit_loop` would have to look into.
#[derive(Clone, Copy)]
pub(crate) struct Searched {
    pub(crate) state: M2N,
    pub(crate) best: Option<FitResultRow>,
}

// On the moments as given. State, epsilon and weights stay three parameters, here and below: a struct
// that borrows the weights makes each clause longer, and weights that `fit` cuts to the rows of epsilon
// ask for as many facts as `Served`: how many they are, that epsilon has so many rows, and the moments.
#[tactic(auto, using(crate::proofs::Searching::plain_is))]
fn plain_fit(m: M2N, epsilon: f64, weights: &[f64]) -> Searched
    requires { Served m epsilon weights.now }
    ensures { result ≡ plain_fit m epsilon weights.now }
{
    let n = fit_refusals::rows_of(epsilon);
    let s = grid_rows::walk_rows(m.begun(epsilon), m.deviation(), &weights[..n]);
    Searched {
        state: s.state,
        best: s.best,
    }
}

// The row of a search about the mean, moved back to it.
fn moved_best(m: M2N, best: Option<FitResultRow>) -> Option<FitResultRow>
    ensures { result ≡ moved_best m best }
{
    Some(m.moved_row(best?))
}

// About the mean, then moved back.
fn centred_fit_loop(m: M2N, epsilon: f64, weights: &[f64]) -> Searched
    requires { Served m epsilon weights.now }
    ensures { result ≡ centred_fit m epsilon weights.now }
{
    let s = plain_fit(m.about_the_mean(), epsilon, weights);
    Searched {
        state: m.moved_back(epsilon, s.state.parameters),
        best: moved_best(m, s.best),
    }
}

// Only variant 2 with a nonzero first moment is centred; NaN counts as nonzero.
fn is_centred(m: M2N) -> bool
    ensures { result ≡ is_centred m }
{
    Variant::try_from(m.variant) == Ok(Variant::FiveMoments) && m.moments[0] != 0.0
}

// A search that is not refused.
#[tactic(auto, unfolding(crate::specs::Search::fit_of))]
pub(crate) fn fit(m: M2N, epsilon: f64, weights: &[f64]) -> Searched
    requires { Served m epsilon weights.now }
    ensures { result ≡ fit_of m epsilon weights.now }
{
    if is_centred(m) {
        centred_fit_loop(m, epsilon, weights)
    } else {
        plain_fit(m, epsilon, weights)
    }
}
