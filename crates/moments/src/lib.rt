// Moments of a mixture of two normal curves, and the change between raw and centred moments.
#![tactic(auto)]

ghost use Rattle.std.specs.Prelude.{◌≡◌, ◌≤◌, length, get_or};
ghost use Rattle.std.specs.Float.{nan};
ghost use Rattle.moments.specs.Comb.{choose};
ghost use Rattle.moments.specs.Lists.{five_of, listed, params_listed, params_of};
ghost use Rattle.moments.specs.Mixture.{curve_moments, get_moments};
ghost use Rattle.moments.specs.Orders.{numbered, raw_sum};
ghost use Rattle.moments.specs.Refusals.{centred_moment, centred_rules, length_rules, raw_moment, raw_out, raw_rules};
ghost use Rattle.refusal.specs.Rules.{first_refusal};

use refusal::Refusal;

// The parameters of a mixture: weight p_1 on N(mu_1, sigma_1²) and 1 - p_1 on N(mu_2, sigma_2²).
#[derive(Clone, Copy, Debug, Default, PartialEq)]
pub struct Params {
    pub mu_1: f64,
    pub mu_2: f64,
    pub sigma_1: f64,
    pub sigma_2: f64,
    pub p_1: f64,
}

// The first five raw moments.
#[derive(Clone, Copy, Debug, Default, PartialEq)]
pub struct Five {
    pub m_1: f64,
    pub m_2: f64,
    pub m_3: f64,
    pub m_4: f64,
    pub m_5: f64,
}

// Five and Params have their own conversions each way: an impl for both would need a macro, which the gate
// refuses.
impl From<Five> for [f64; 5] {
    ghost from_gives = { λ m l. l ≡ listed m };

    fn from(m: Five) -> [f64; 5]
        ensures { result ≡ listed m }
    {
        [m.m_1, m.m_2, m.m_3, m.m_4, m.m_5]
    }
}

impl From<[f64; 5]> for Five {
    ghost from_gives = { λ l m. m ≡ five_of l };

    fn from(l: [f64; 5]) -> Five
        ensures { result ≡ five_of l }
    {
        let [m_1, m_2, m_3, m_4, m_5] = l;
        Five {
            m_1,
            m_2,
            m_3,
            m_4,
            m_5,
        }
    }
}

impl From<Params> for [f64; 5] {
    ghost from_gives = { λ p l. l ≡ params_listed p };

    fn from(p: Params) -> [f64; 5]
        ensures { result ≡ params_listed p }
    {
        [p.mu_1, p.mu_2, p.sigma_1, p.sigma_2, p.p_1]
    }
}

impl From<[f64; 5]> for Params {
    ghost from_gives = { λ l p. p ≡ params_of l };

    fn from(l: [f64; 5]) -> Params
        ensures { result ≡ params_of l }
    {
        let [mu_1, mu_2, sigma_1, sigma_2, p_1] = l;
        Params {
            mu_1,
            mu_2,
            sigma_1,
            sigma_2,
            p_1,
        }
    }
}

// The moments of one curve, with the powers as powi has them.
fn curve(mu: f64, sigma: f64) -> Five
    ensures { result ≡ curve_moments mu sigma }
{
    let mu_2 = mu * mu;
    let mu_3 = mu * mu_2;
    let mu_4 = mu_2 * mu_2;
    let mu_5 = mu * mu_4;
    let sigma_2 = sigma * sigma;
    let sigma_4 = sigma_2 * sigma_2;
    Five {
        m_1: mu,
        m_2: sigma_2 + mu_2,
        m_3: 3.0 * sigma_2 * mu + mu_3,
        m_4: 3.0 * sigma_4 + 6.0 * sigma_2 * mu_2 + mu_4,
        m_5: 15.0 * sigma_4 * mu + 10.0 * sigma_2 * mu_3 + mu_5,
    }
}

pub fn get_moments(p: Params) -> Five
    ensures { result ≡ get_moments p }
{
    let p_1 = p.p_1;
    let p_2 = 1.0 - p_1;
    let a = curve(p.mu_1, p.sigma_1);
    let b = curve(p.mu_2, p.sigma_2);
    Five {
        m_1: p_1 * a.m_1 + p_2 * b.m_1,
        m_2: p_1 * a.m_2 + p_2 * b.m_2,
        m_3: p_1 * a.m_3 + p_2 * b.m_3,
        m_4: p_1 * a.m_4 + p_2 * b.m_4,
        m_5: p_1 * a.m_5 + p_2 * b.m_5,
    }
}

// The binomial number, as a quotient of two products, which is exact for n up to 16.
#[tactic(auto, using(crate::proofs::Products::falling_more, crate::proofs::Products::rising_more, crate::proofs::Products::chosen), unfolding(crate::specs::Comb::choose, crate::specs::Comb::falling, crate::specs::Comb::rising))]
fn comb(n: usize, k: usize) -> f64
    requires { n ≤ 16 }
    ensures { result ≡ choose n k }
{
    if n < k {
        return 0.0;
    }
    let k_eff = k.min(n - k);
    let mut num = 1.0;
    let mut den = 1.0;
    for i in 0..k_eff {
        num *= (n - i) as f64;
        den *= (i + 1) as f64;
    }
    num / den
}

// Number k of a list, counted from 1; number 0 is 1.
fn numbered_at(m: &[f64], k: usize) -> f64
    requires { k ≤ length m.now }
    ensures { result ≡ get_or (numbered m.now) k nan }
{
    if k == 0 {
        return 1.0;
    }
    m[k - 1]
}

// At least as many moments as are needed, and no more than 16.
pub fn check_len(len: usize, needed: usize) -> Result<(), Refusal>
    ensures { result ≡ first_refusal (length_rules len needed) }
{
    if len < needed {
        return Err(Refusal::TooFewMoments);
    }
    if 16 < len {
        return Err(Refusal::TooManyMoments);
    }
    Ok(())
}

fn check_centred(len: usize, order: usize) -> Result<(), Refusal>
    ensures { result ≡ first_refusal (centred_rules len order) }
{
    if 16 < order {
        return Err(Refusal::OrderTooHigh);
    }
    check_len(len, order.max(1))
}

// The centred moment of an order, from raw moments.
pub fn centered_moment(moments: &[f64], order: usize) -> Result<f64, Refusal>
    ensures { result ≡ centred_moment moments.now order }
{
    check_centred(moments.len(), order)?;
    let mut moment_c = 0.0; // no `sum()`: that starts at -0
    for j in 0..=order {
        let sign = number::powi(-1.0, j);
        let combin = comb(order, j);
        let p = number::powi(moments[0], j);
        let a_1 = numbered_at(moments, order - j);
        moment_c += sign * combin * p * a_1;
    }
    Ok(moment_c)
}

// The raw moment of order n, from centred moments and the mean.
#[tactic(auto, using(crate::proofs::Turns::raw_start, crate::proofs::Turns::raw_turn, crate::proofs::Turns::raw_end), unfolding(formula::specs::Formula::eval, formula::specs::Whole::sum_of))]
fn raw_one(central: &[f64], mean: f64, n: usize) -> f64
    requires { (n ≤ length central.now) × (n ≤ 16) }
    ensures { result ≡ raw_sum central.now mean n }
{
    let mut moment_n = 0.0; // no `sum()`: that starts at -0
    for k in 0..=n {
        let combin = comb(n, k);
        let ck = numbered_at(central, k);
        let p = number::powi(mean, n - k);
        moment_n += combin * ck * p;
    }
    moment_n
}

fn check_raw(len: usize, room: usize) -> Result<(), Refusal>
    ensures { result ≡ first_refusal (raw_rules len room) }
{
    if 16 < len {
        return Err(Refusal::TooManyMoments);
    }
    if room < len.max(1) {
        return Err(Refusal::TooLittleRoom);
    }
    Ok(())
}

// The raw moments into a lent list, from centred moments of order 1 upward and the mean: how many were
// written, or why none was.
pub fn raw_moment(central: &[f64], mean: f64, out: &mut [f64]) -> Result<usize, Refusal>
    ensures { (result ≡ raw_moment central.now out.old)
        × (out.new ≡ raw_out central.now mean out.old) }
{
    check_raw(central.len(), out.len())?;
    let need = central.len().max(1);
    out[0] = mean;
    // by index, which is one less than the order
    for i in 1..need {
        out[i] = raw_one(central, mean, i + 1);
    }
    Ok(need)
}
