// Widths and prices on the sigmoid curve, for C (include/woddirme.h). C has no Result: a refusal is its
// number.
#![tactic(auto)]

ghost use Rattle.std.specs.Prelude.{◌≡◌};
ghost use Rattle.std.specs.Result.{result_unwrap_or};
ghost use Rattle.prices.specs.Prices.{get_w_sigmoid, inv_price_sigmoid};
ghost use Rattle.limit_price.specs.LimitPrice.{limit_price_sigmoid};
ghost use Rattle.refusal.specs.Numbers.{status_of};

// The width at which a divergence of price_div has the size m_bet_size (get_w_sigmoid).
#[unsafe(no_mangle)]
pub extern "C" fn woddirme_get_w_sigmoid(price_div: f64, m_bet_size: f64) -> f64
    ensures { result ≡ get_w_sigmoid price_div m_bet_size }
{
    prices::get_w_sigmoid(price_div, m_bet_size)
}

// The market price at which the size is m_bet_size (inv_price_sigmoid).
#[unsafe(no_mangle)]
pub extern "C" fn woddirme_inv_price_sigmoid(
    forecast_price: f64,
    w_param: f64,
    m_bet_size: f64,
) -> f64
    ensures { result ≡ inv_price_sigmoid forecast_price w_param m_bet_size }
{
    prices::inv_price_sigmoid(forecast_price, w_param, m_bet_size)
}

// The mean price of the lots from pos to t_pos (limit_price_sigmoid). Answers 0, or the number of the
// refusal, which leaves `price` as it was.
#[unsafe(no_mangle)]
pub extern "C" fn woddirme_limit_price_sigmoid(
    t_pos: f64,
    pos: f64,
    f: f64,
    w: f64,
    max_pos: f64,
    price: &mut f64,
) -> u64
    ensures { (result ≡ status_of (limit_price_sigmoid t_pos pos f w max_pos)) × (price.new ≡ result_unwrap_or (limit_price_sigmoid t_pos pos f w max_pos) price.old) }
{
    let answer = limit_price::limit_price_sigmoid(t_pos, pos, f, w, max_pos);
    *price = answer.unwrap_or(*price);
    refusal::status_of(answer)
}
