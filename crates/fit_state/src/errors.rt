// Sums of squares, and the error of moments.
ghost use Rattle.std.specs.Prelude.{◌≡◌, min};
ghost use Rattle.moments.specs.Lists.{listed};
ghost use Rattle.moments.specs.Mixture.{get_moments};
ghost use Rattle.fit_state.specs.Errors.{error_of, squares, squares_summed};

use crate::M2N;
use moments::{Five, Params};

// The squares, summed as Rust's sum() does, from -0.
pub fn sum_of_squares(numbers: &[f64]) -> f64
    ensures { result ≡ squares_summed numbers.now }
{
    numbers.iter().map(|x| *x * *x).sum()
}

// The step error: the squares of the first `len` differences, and of no more than there are.
#[tactic(auto, using(crate::proofs::Sums::squares_are))]
pub fn error_of(len: usize, a: Five, b: Five) -> f64
    ensures { result ≡ squares (listed a) (listed b) (min len 5) }
{
    let differences = [
        a.m_1 - b.m_1,
        a.m_2 - b.m_2,
        a.m_3 - b.m_3,
        a.m_4 - b.m_4,
        a.m_5 - b.m_5,
    ];
    sum_of_squares(&differences[..len.min(5)])
}

impl M2N {
    // The error of parameters, against at most five of the state's moments.
    #[tactic(auto, using(crate::proofs::Sums::error_is))]
    pub fn error_of(self, p: Params) -> f64
        ensures { result ≡ error_of self (get_moments p) }
    {
        error_of(self.len, self.first_five(), moments::get_moments(p))
    }
}
