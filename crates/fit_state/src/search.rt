// Where a search starts, and what is moved back to the mean after it.
ghost use Rattle.std.specs.Prelude.{◌≡◌, ◌≤◌};
ghost use Rattle.moments.specs.Orders.{centred_sum};
ghost use Rattle.fit_state.specs.Search.{all_zero, begun, centred_state, deviation_of, moved, moved_row, moved_state};

use crate::{FitResultRow, M2N, errors};
use moments::Params;

impl M2N {
    // The state from which a search starts: nothing is kept. A state has room for 16 moments.
    pub fn begun(self, epsilon: f64) -> M2N
        ensures { result ≡ begun self epsilon }
    {
        M2N {
            epsilon,
            parameters: Params::default(),
            error: errors::sum_of_squares(&self.moments[..self.len.min(16)]),
            ..self
        }
    }

    // A centred moment of the state's raw ones.
    #[tactic(auto, using(crate::proofs::Searching::unrefused))]
    fn centred(self, order: usize) -> f64
        requires { order ≤ 16 }
        ensures { result ≡ centred_sum self.moments order }
    {
        moments::centered_moment(&self.moments, order).unwrap()
    }

    // The standard deviation that the moments imply.
    #[tactic(auto, unfolding(crate::specs::Search::deviation_of))]
    pub fn deviation(self) -> f64
        ensures { result ≡ deviation_of self }
    {
        root::sqrt(self.centred(2))
    }

    // The inner fit of a search about the mean: five centred moments, the first set to 0.
    #[tactic(auto, unfolding(crate::specs::Search::centred_state))]
    pub fn about_the_mean(self) -> M2N
        ensures { result ≡ centred_state self }
    {
        let mut moments = [0.0f64; 16];
        moments[1] = self.centred(2);
        moments[2] = self.centred(3);
        moments[3] = self.centred(4);
        moments[4] = self.centred(5);
        M2N {
            moments,
            len: 5,
            ..self
        }
    }

    // The mean added back to both means.
    fn moved(self, p: Params) -> Params
        ensures { result ≡ moved self p }
    {
        let mean = self.moments[0];
        Params {
            mu_1: p.mu_1 + mean,
            mu_2: p.mu_2 + mean,
            ..p
        }
    }

    // The state after a search about the mean that kept p.
    #[tactic(auto, unfolding(crate::specs::Search::moved_state, crate::specs::Search::moved_error))]
    pub fn moved_back(self, epsilon: f64, p: Params) -> M2N
        ensures { result ≡ moved_state self epsilon p }
    {
        if all_zero(p) {
            return self.begun(epsilon);
        }
        let q = self.moved(p);
        M2N {
            epsilon,
            parameters: q,
            error: self.error_of(q),
            ..self
        }
    }

    // The row of a search about the mean, moved back; its error is worked out anew, from raw moments.
    #[tactic(auto, unfolding(crate::specs::Search::moved_row, crate::specs::Search::moved_error))]
    pub fn moved_row(self, row: FitResultRow) -> FitResultRow
        ensures { result ≡ moved_row self row }
    {
        let q = self.moved(Params::from(row));
        FitResultRow {
            mu_1: q.mu_1,
            mu_2: q.mu_2,
            error: self.error_of(q),
            ..row
        }
    }
}

// Five kept zeros: nothing was kept.
fn all_zero(p: Params) -> bool
    ensures { result ≡ all_zero p }
{
    p == Params::default()
}
