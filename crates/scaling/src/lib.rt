// Demand 3, of two calls: walks on moments and means that are powers of two times another's take the
// same steps.
#![tactic(auto)]

ghost use Rattle.std.specs.Prelude.{◌≡◌};
ghost use Rattle.scaling.specs.Scaling.{WalksScale};
ghost use Rattle.walk.specs.Walk.{walk_of};

use fit_state::M2N;
use walk::Walked;

// What two walks return.
#[derive(Clone, Copy)]
pub struct Both {
    pub first: Walked,
    pub second: Walked,
}

// Walks twice from one weight, each time from a state and a mean of its own.
pub fn walk_both(m: M2N, mu_2: f64, twin: M2N, twin_mu_2: f64, p_1: f64) -> Both
    ensures first { result.first ≡ walk_of m mu_2 p_1 }
    ensures second { result.second ≡ walk_of twin twin_mu_2 p_1 }
    ensures alike { WalksScale m twin mu_2 twin_mu_2 p_1 result.first result.second }
{
    let first = walk::iterate_from(m, mu_2, p_1);
    let second = walk::iterate_from(twin, twin_mu_2, p_1);
    Both { first, second }
}
