// The moments of a mixture, and the change between raw and centred moments, for C. Each answers 0, or the
// number of the refusal, which leaves all as it was: C has no Result. A slice is a pointer and a length.
// include/woddirme.h declares them.
#![tactic(auto)]

ghost use Rattle.std.specs.Prelude.{◌≡◌};
ghost use Rattle.std.specs.Result.{result_unwrap_or};
ghost use Rattle.moments.specs.Figures.{params};
ghost use Rattle.moments.specs.Mixture.{get_moments};
ghost use Rattle.moments.specs.Refusals.{centred_moment, raw_moment, raw_out};
ghost use Rattle.refusal.specs.Numbers.{status_of};
ghost use Rattle.capi_moments.specs.Moments.{moments_after, moments_number};

use moments::Params;
use refusal::Refusal;

// The first five raw moments of a mixture (M2N::get_moments), in the front of `moments`; 8 where that has
// fewer than five places.
#[unsafe(no_mangle)]
pub extern "C" fn woddirme_get_moments(
    mu_1: f64,
    mu_2: f64,
    sigma_1: f64,
    sigma_2: f64,
    p_1: f64,
    moments: &mut [f64],
) -> u64
    ensures { (result ≡ moments_number moments.old) × (moments.new ≡ moments_after (get_moments (params mu_1 mu_2 sigma_1 sigma_2 p_1)) moments.old) }
{
    if moments.len() < 5 {
        return u64::from(Refusal::TooLittleRoom);
    }
    let five: [f64; 5] = moments::get_moments(Params {
        mu_1,
        mu_2,
        sigma_1,
        sigma_2,
        p_1,
    })
    .into();
    moments[..5].copy_from_slice(&five);
    0
}

// The centred moment of an order, from raw moments (centered_moment).
#[unsafe(no_mangle)]
pub extern "C" fn woddirme_centered_moment(moments: &[f64], order: usize, moment: &mut f64) -> u64
    ensures { (result ≡ status_of (centred_moment moments.now order)) × (moment.new ≡ result_unwrap_or (centred_moment moments.now order) moment.old) }
{
    let answer = moments::centered_moment(moments, order);
    *moment = answer.unwrap_or(*moment);
    refusal::status_of(answer)
}

// The raw moments, from centred moments of order 1 upward and the mean (raw_moment), in the front of
// `raw`. How many were written, C knows.
#[unsafe(no_mangle)]
pub extern "C" fn woddirme_raw_moment(central: &[f64], mean: f64, raw: &mut [f64]) -> u64
    ensures { (result ≡ status_of (raw_moment central.now raw.old)) × (raw.new ≡ raw_out central.now mean raw.old) }
{
    refusal::status_of(moments::raw_moment(central, mean, raw))
}
