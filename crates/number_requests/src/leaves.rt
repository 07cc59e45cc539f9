// Requests of the number leaves. What follows a name is one fraction, in most, and nothing after it.
ghost use Rattle.std.specs.Prelude.{◌≡◌};
ghost use Rattle.number_requests.specs.Leaves.{casts, larger, leaves, powi};
ghost use Rattle.protocol.specs.Words.{only};

use protocol::{only, read_next, read_next_natural};
use protocol_lists::read_next_fractions;
use replies::Reply;

pub fn answer(s: &[u8]) -> Option<Reply>
    ensures { result ≡ leaves s.now }
{
    if let Some(words) = protocol::words_after(s, b"sqrt") {
        return only(read_next::<f64>(words)).map(|x| Reply::Fraction(root::sqrt(x)));
    }
    if let Some(words) = protocol::words_after(s, b"abs") {
        return only(read_next::<f64>(words)).map(|x| Reply::Fraction(number::abs(x)));
    }
    if let Some(words) = protocol::words_after(s, b"larger") {
        return larger(words);
    }
    if let Some(words) = protocol::words_after(s, b"powi") {
        return powi(words);
    }
    of_casts(s)
}

fn of_casts(s: &[u8]) -> Option<Reply>
    ensures { result ≡ casts s.now }
{
    if let Some(words) = protocol::words_after(s, b"is_finite") {
        return only(read_next::<f64>(words)).map(|x| Reply::Natural(number::is_finite(x).into()));
    }
    if let Some(words) = protocol::words_after(s, b"as_i64") {
        return only(read_next::<f64>(words)).map(|x| Reply::Instant(number::as_i64(x)));
    }
    if let Some(words) = protocol::words_after(s, b"as_usize") {
        return only(read_next::<f64>(words)).map(|x| Reply::Natural(number::as_usize(x) as u64));
    }
    if let Some(words) = protocol::words_after(s, b"i64_as_f64") {
        return only(read_next::<i64>(words)).map(|n| Reply::Fraction(number::i64_as_f64(n)));
    }
    None
}

// Not in `answer` as the others: of a closure that takes `[x, y]` the check does not find what it answers.
fn larger(words: &[u8]) -> Option<Reply>
    ensures { result ≡ only (larger words.now) }
{
    let [x, y] = only(read_next_fractions::<2>(words))?;
    Some(Reply::Fraction(number::larger(x, y)))
}

fn powi(words: &[u8]) -> Option<Reply>
    ensures { result ≡ only (powi words.now) }
{
    let (x, rest) = read_next(words)?;
    let n = only(read_next_natural(rest, 16))?;
    Some(Reply::Fraction(number::powi(x, n as usize)))
}
