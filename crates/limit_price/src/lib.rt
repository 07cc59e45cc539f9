// The limit price: the mean of the prices, on the sigmoid curve, of the lots from one position to
// another.
#![tactic(auto)]

ghost use Rattle.std.specs.Prelude.{◌≡◌, ℕ, ◌≤◌};
ghost use Rattle.std.specs.Int.{w64};
ghost use Rattle.std.proofs.Common.{SFits};
ghost use Rattle.limit_price.specs.LimitPrice.{limit_price_sigmoid, lot_number, lot_price, summed};

use refusal::Refusal;

// The prices of the lots walked, summed as Rust's sum() does, from -0. By `(1..=lots).map(..).sum()` the
// check asks of each call of the closure that its lot fits an i64, and does not find that; here a lot is
// the last one and sgn. Of the six parameters three are the curve's, and three say which lots.
fn sum_of_prices(f: f64, w: f64, max_pos: f64, current: i64, sgn: i64, lots: u64) -> f64
    requires { (i : ℕ) → i ≤ lots → SFits w64 (lot_number current sgn i) }
    ensures { result ≡ summed (lot_price f w max_pos current sgn) lots }
{
    let mut sum = -0.0;
    let mut lot = current;
    for _ in 0..lots {
        lot += sgn;
        sum += prices::inv_price_sigmoid(f, w, number::i64_as_f64(lot) / max_pos);
    }
    sum
}

// The mean price of the lots from pos to t_pos, both cut to whole lots; of none, NaN.
pub fn limit_price_sigmoid(
    t_pos: f64,
    pos: f64,
    f: f64,
    w: f64,
    max_pos: f64,
) -> Result<f64, Refusal>
    ensures { result ≡ limit_price_sigmoid t_pos pos f w max_pos }
{
    let target = number::as_i64(t_pos);
    let current = number::as_i64(pos);
    // the difference of two positions may leave i64, its size does not leave u64
    let lots = target.abs_diff(current);
    if lots == 0 {
        return Ok(f64::NAN);
    }
    if 1000000 < lots {
        return Err(Refusal::TooManyLots);
    }
    let sgn = (target - current).signum();
    let total = sum_of_prices(f, w, max_pos, current, sgn, lots);
    Ok(total / lots as f64)
}
