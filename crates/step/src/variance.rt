// The variance of the second curve.
ghost use Rattle.std.specs.Prelude.{◌≡◌};
ghost use Rattle.moments.specs.Lists.{listed};
ghost use Rattle.step.specs.Parts.{variance_at};
ghost use Rattle.step.specs.Steps.{sigma2_squared};

use moments::Five;

// mu_1, the divisor den_24 and sigma_2^2, which means nothing where den_24 is zero.
#[derive(Clone, Copy)]
pub(crate) struct Variance {
    pub(crate) mu_1: f64,
    pub(crate) den_24: f64,
    pub(crate) sigma_2_squared: f64,
}

pub(crate) fn variance_at(m: Five, mu_2: f64, p_1: f64) -> Variance
    ensures { result ≡ variance_at (listed m) mu_2 p_1 }
{
    let mu_1 = (m.m_1 - (1.0 - p_1) * mu_2) / p_1;
    let den_24 = 3.0 * (1.0 - p_1) * (mu_2 - mu_1);
    let mu_1_2 = mu_1 * mu_1;
    let mu_2_2 = mu_2 * mu_2;
    let sigma_2_squared = (m.m_3 + 2.0 * p_1 * (mu_1 * mu_1_2) + (p_1 - 1.0) * (mu_2 * mu_2_2)
        - 3.0 * mu_1 * (m.m_2 + mu_2_2 * (p_1 - 1.0)))
        / den_24;
    Variance {
        mu_1,
        den_24,
        sigma_2_squared,
    }
}

// The variance sigma_2^2 that a step works out and tests before it takes a root. Who looks through many
// starts can pass over those at which it is below zero.
#[tactic(auto, unfolding(crate::specs::Parts::variance_at, crate::specs::Steps::sigma2_squared))]
pub fn sigma_2_squared(m: Five, mu_2: f64, p_1: f64) -> f64
    ensures { result ≡ sigma2_squared (listed m) mu_2 p_1 }
{
    variance_at(m, mu_2, p_1).sigma_2_squared
}
