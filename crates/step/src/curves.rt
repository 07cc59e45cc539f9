// What both steps begin with: the first curve's mean and both deviations.
ghost use Rattle.std.specs.Prelude.{List, ◌∷◌, Float};
ghost use Rattle.step.specs.Parts.{CurvesFrom};

use crate::variance::{self, Variance};
use moments::Five;

#[derive(Clone, Copy)]
pub(crate) struct Curves {
    pub(crate) mu_1: f64,
    pub(crate) sigma_1: f64,
    pub(crate) sigma_2: f64,
}

// None where a test before them failed. It reads three moments, so it is the same whatever moments
// follow them.
pub(crate) fn curves_from(m: Five, mu_2: f64, p_1: f64) -> Option<Curves>
    ensures { (ms : List Float) → CurvesFrom (mu_2 ∷ p_1 ∷ m.m_1 ∷ m.m_2 ∷ m.m_3 ∷ ms) result }
{
    let Variance {
        mu_1,
        den_24,
        sigma_2_squared,
    } = variance::variance_at(m, mu_2, p_1);
    if den_24 == 0.0 {
        return None;
    }
    if sigma_2_squared < 0.0 {
        return None;
    }
    let sigma_2 = root::sqrt(sigma_2_squared);
    let sigma_2_2 = sigma_2 * sigma_2;
    let mu_2_2 = mu_2 * mu_2;
    let sigma_1_squared = (m.m_2 - sigma_2_2 - mu_2_2) / p_1 + sigma_2_2 + mu_2_2 - mu_1 * mu_1;
    if sigma_1_squared < 0.0 {
        return None;
    }
    Some(Curves {
        mu_1,
        sigma_1: root::sqrt(sigma_1_squared),
        sigma_2,
    })
}
