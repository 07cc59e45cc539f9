// Requests of the sigmoid curve. The function of each takes the words after its name.
ghost use Rattle.std.specs.Prelude.{◌≡◌};
ghost use Rattle.protocol.specs.Words.{only};
ghost use Rattle.price_requests.specs.Curves.{curves, inv_price, limit_price_reply, w_sigmoid};

use protocol::only;
use protocol_lists::read_next_fractions;
use replies::Reply;

pub fn answer(s: &[u8]) -> Option<Reply>
    ensures { result ≡ curves s.now }
{
    if let Some(words) = protocol::words_after(s, b"w_sigmoid") {
        return w_sigmoid(words);
    }
    if let Some(words) = protocol::words_after(s, b"inv_price_sigmoid") {
        return inv_price_sigmoid(words);
    }
    if let Some(words) = protocol::words_after(s, b"limit_price_sigmoid") {
        return limit_price_sigmoid(words);
    }
    None
}

// Not one with `larger` of number_requests: of a closure that takes `[x, y]` the check does not find what it
// answers.
fn w_sigmoid(words: &[u8]) -> Option<Reply>
    ensures { result ≡ only (w_sigmoid words.now) }
{
    let [price_div, m_bet_size] = only(read_next_fractions::<2>(words))?;
    Some(Reply::Fraction(prices::get_w_sigmoid(price_div, m_bet_size)))
}

fn inv_price_sigmoid(words: &[u8]) -> Option<Reply>
    ensures { result ≡ only (inv_price words.now) }
{
    let [f, w, m] = only(read_next_fractions::<3>(words))?;
    Some(Reply::Fraction(prices::inv_price_sigmoid(f, w, m)))
}

fn limit_price_sigmoid(words: &[u8]) -> Option<Reply>
    ensures { result ≡ only (limit_price_reply words.now) }
{
    let [t_pos, pos, f, w, max_pos] = only(read_next_fractions::<5>(words))?;
    let limit = limit_price::limit_price_sigmoid(t_pos, pos, f, w, max_pos);
    Some(limit.map_or_else(Reply::from, Reply::Fraction))
}
