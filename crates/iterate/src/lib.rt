// One step of the fit over a list of moments, with its refusals.
#![tactic(auto)]

ghost use Rattle.std.specs.Prelude.{◌≡◌, ◌≤◌};
ghost use Rattle.iterate.specs.Refusals.{iter4, iter5, read};

use moments::Five;
use refusal::Refusal;
use step::Step;

// The moments of which a step reads the first so many; zeros stand for those that it does not read.
fn read(moments: &[f64], needed: usize) -> Result<Five, Refusal>
    requires { needed ≤ 5 }
    ensures { result ≡ read moments.now needed }
{
    moments::check_len(moments.len(), needed)?;
    let mut five = [0.0; 5];
    five[..needed].copy_from_slice(&moments[..needed]);
    Ok(Five::from(five))
}

#[tactic(auto, using(crate::proofs::Refusals::steps_4, crate::proofs::Refusals::passed_on), unfolding(crate::specs::Refusals::iter4))]
pub fn iter_4(moments: &[f64], mu_2: f64, p_1: f64) -> Result<Step, Refusal>
    ensures { result ≡ iter4 moments.now mu_2 p_1 }
{
    Ok(step::four(read(moments, 4)?, mu_2, p_1))
}

#[tactic(auto, using(crate::proofs::Refusals::passed_on), unfolding(crate::specs::Refusals::iter5))]
pub fn iter_5(moments: &[f64], mu_2: f64, p_1: f64) -> Result<Step, Refusal>
    ensures { result ≡ iter5 moments.now mu_2 p_1 }
{
    Ok(step::five(read(moments, 5)?, mu_2, p_1))
}
