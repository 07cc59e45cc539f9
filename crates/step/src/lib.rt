// One step of the EF3M fit, on four moments and on five.
#![tactic(auto)]

mod curves; // curves.rt: what both begin with
pub mod variance; // variance.rt: sigma_2^2 by itself

ghost use Rattle.std.specs.Prelude.{◌≡◌, [], ◌∷◌};
ghost use Rattle.step.specs.Parts.{fifth_moment, weighed};
ghost use Rattle.step.specs.Steps.{step_4, step_5};

use curves::Curves;
use moments::{Five, Params};
pub use variance::sigma_2_squared;

// What a step answers: the five numbers, or that it is inadmissible. It is no Option, since the specification
// names the two ends so, and a walk's `let Step::Admitted(..) = .. else`.
#[derive(Clone, Copy)]
pub enum Step {
    Admitted(Params),
    Inadmissible,
}

// Both steps end by testing the new weight.
fn weighed(r: Params) -> Step
    ensures { result ≡ weighed r }
{
    if 0.0 <= r.p_1 && r.p_1 <= 1.0 {
        Step::Admitted(r)
    } else {
        Step::Inadmissible
    }
}

// The step on the first four of five moments. Moments, mean and weight stand one by one, as the Rust's
// iter_4 and iter_5 take them.
pub fn four(m: Five, mu_2: f64, p_1: f64) -> Step
    ensures { result ≡ step_4 (m.m_1 ∷ m.m_2 ∷ m.m_3 ∷ m.m_4 ∷ []) mu_2 p_1 }
{
    let Some(
        Curves {
            mu_1,
            sigma_1,
            sigma_2,
        },
    ) = curves::curves_from(m, mu_2, p_1)
    else {
        return Step::Inadmissible;
    };
    let mu_1_2 = mu_1 * mu_1;
    let mu_2_2 = mu_2 * mu_2;
    let mu_2_4 = mu_2_2 * mu_2_2;
    let sigma_1_2 = sigma_1 * sigma_1;
    let sigma_2_2 = sigma_2 * sigma_2;
    let sigma_2_4 = sigma_2_2 * sigma_2_2;
    let p_1_deno = 3.0 * (sigma_1_2 * sigma_1_2 - sigma_2_4)
        + 6.0 * (sigma_1_2 * mu_1_2 - sigma_2_2 * mu_2_2)
        + mu_1_2 * mu_1_2
        - mu_2_4;
    if p_1_deno == 0.0 {
        return Step::Inadmissible;
    }
    let p_1_new = (m.m_4 - 3.0 * sigma_2_4 - 6.0 * sigma_2_2 * mu_2_2 - mu_2_4) / p_1_deno;
    weighed(Params {
        mu_1,
        mu_2,
        sigma_1,
        sigma_2,
        p_1: p_1_new,
    })
}

// The fifth moment of a curve by itself: a step needs no other, and `get_moments` needs all.
fn fifth(mu: f64, sigma: f64) -> f64
    ensures { result ≡ fifth_moment mu sigma }
{
    let mu_2 = mu * mu;
    let sigma_2 = sigma * sigma;
    15.0 * (sigma_2 * sigma_2) * mu + 10.0 * sigma_2 * (mu * mu_2) + mu * (mu_2 * mu_2)
}

// The step on five moments.
pub fn five(m: Five, mu_2: f64, p_1: f64) -> Step
    ensures { result ≡ step_5 (m.m_1 ∷ m.m_2 ∷ m.m_3 ∷ m.m_4 ∷ m.m_5 ∷ []) mu_2 p_1 }
{
    let Some(
        Curves {
            mu_1,
            sigma_1,
            sigma_2,
        },
    ) = curves::curves_from(m, mu_2, p_1)
    else {
        return Step::Inadmissible;
    };
    if 1.0 - p_1 < 1e-4 {
        return Step::Inadmissible;
    }
    let mu_1_2 = mu_1 * mu_1;
    let sigma_1_2 = sigma_1 * sigma_1;
    let sigma_2_2 = sigma_2 * sigma_2;
    let a_1_squared = 6.0 * (sigma_2_2 * sigma_2_2)
        + (m.m_4
            - p_1 * (3.0 * (sigma_1_2 * sigma_1_2) + 6.0 * sigma_1_2 * mu_1_2 + mu_1_2 * mu_1_2))
            / (1.0 - p_1);
    if a_1_squared < 0.0 {
        return Step::Inadmissible;
    }
    let a_1 = root::sqrt(a_1_squared);
    let mu_2_squared = a_1 - 3.0 * sigma_2_2;
    if !number::is_finite(mu_2_squared) {
        return Step::Inadmissible;
    }
    if mu_2_squared < 0.0 {
        return Step::Inadmissible;
    }
    let mu_2_new = root::sqrt(mu_2_squared);
    let a_2 = fifth(mu_1, sigma_1);
    let b_2 = fifth(mu_2_new, sigma_2);
    if a_2 - b_2 == 0.0 {
        return Step::Inadmissible;
    }
    let p_1_new = (m.m_5 - b_2) / (a_2 - b_2);
    weighed(Params {
        mu_1,
        mu_2: mu_2_new,
        sigma_1,
        sigma_2,
        p_1: p_1_new,
    })
}
