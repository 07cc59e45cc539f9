// Prices on the sigmoid curve m(x) = x / √(w + x²), each rounded operation in the Rust's order.
#![tactic(auto)]

ghost use Rattle.std.specs.Prelude.{◌≡◌};
ghost use Rattle.prices.specs.Prices.{get_w_sigmoid, inv_price_sigmoid, overflown, spoilt, width_lost};

// Not finite, or zero.
fn is_spoilt(width: f64) -> bool
    ensures { result ≡ spoilt width }
{
    !number::is_finite(width) || width == 0.0
}

// Whether a width was lost where the arguments have a better one.
fn width_lost(width: f64, price_div: f64, size: f64) -> bool
    ensures { result ≡ width_lost width price_div size }
{
    is_spoilt(width) && number::is_finite(price_div) && size > 0.0 && size < 1.0
}

// The width at which a divergence of price_div has the size m_bet_size.
#[tactic(auto, unfolding(crate::specs::Prices::get_w_sigmoid))]
pub fn get_w_sigmoid(price_div: f64, m_bet_size: f64) -> f64
    ensures { result ≡ get_w_sigmoid price_div m_bet_size }
{
    let width = (price_div * price_div) * ((1.0 / (m_bet_size * m_bet_size)) - 1.0);
    let size = number::abs(m_bet_size);
    if width_lost(width, price_div, size) {
        let root_width = number::abs(price_div) * root::sqrt((1.0 - size) * (1.0 + size)) / size;
        return root_width * root_width;
    }
    width
}

// Whether the quotient overflowed where the price is finite. The loop asks this for every lot, and
// mostly the first test answers.
fn overflown(quotient: f64, w_param: f64, m_bet_size: f64) -> bool
    ensures { result ≡ overflown quotient w_param m_bet_size }
{
    quotient.is_infinite()
        && number::is_finite(w_param)
        && w_param >= 0.0
        && number::abs(m_bet_size) < 1.0
}

// The market price at which the size is m_bet_size.
#[tactic(auto, unfolding(crate::specs::Prices::inv_price_sigmoid))]
pub fn inv_price_sigmoid(forecast_price: f64, w_param: f64, m_bet_size: f64) -> f64
    ensures { result ≡ inv_price_sigmoid forecast_price w_param m_bet_size }
{
    let denominator = 1.0 - m_bet_size * m_bet_size;
    let quotient = w_param / denominator;
    if overflown(quotient, w_param, m_bet_size) {
        return forecast_price - m_bet_size * (root::sqrt(w_param) / root::sqrt(denominator));
    }
    forecast_price - m_bet_size * root::sqrt(quotient)
}
