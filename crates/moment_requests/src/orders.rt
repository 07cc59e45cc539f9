// Requests of moments. The function of each takes the words after its name. A list longer than 16 is
// read, and refused by the library: 17 of it are enough for that, whatever they are. They stand in an
// array, since a Vec may find no memory.
ghost use Rattle.std.specs.Prelude.{◌≡◌};
ghost use Rattle.protocol.specs.Words.{only};
ghost use Rattle.replies.specs.Requests.{only_or};
ghost use Rattle.moment_requests.specs.Orders.{centered_moment, get_moments, orders, orders_in, raw_moment, raw_moment_in};

use moments::Params;
use protocol_lists::kept;
use replies::Reply;

// An answer that is a list is left in xs.
pub fn answer(s: &[u8], xs: &mut [f64]) -> Option<Reply>
    ensures { (result ≡ orders xs.old s.now)
        × (xs.new ≡ orders_in xs.old s.now) }
{
    if let Some(words) = protocol::words_after(s, b"get_moments") {
        return get_moments(words);
    }
    if let Some(words) = protocol::words_after(s, b"centered_moment") {
        return centered_moment(words);
    }
    if let Some(words) = protocol::words_after(s, b"raw_moment") {
        return raw_moment(words, xs);
    }
    None
}

fn get_moments(words: &[u8]) -> Option<Reply>
    ensures { result ≡ only (get_moments words.now) }
{
    let parameters = protocol::only(protocol_lists::read_next_fractions::<5>(words))?;
    Some(Reply::Moments(moments::get_moments(Params::from(parameters))))
}

fn centered_moment(words: &[u8]) -> Option<Reply>
    ensures { result ≡ only (centered_moment words.now) }
{
    let (order, words) = protocol::read_next(words)?;
    let mut m = [0.0; 17];
    let n = protocol::only(protocol_lists::read_next_list(words, &mut m))?;
    let centred = moments::centered_moment(kept(&m, n), order);
    Some(centred.map_or_else(Reply::from, Reply::Fraction))
}

fn raw_moment(words: &[u8], xs: &mut [f64]) -> Option<Reply>
    ensures { (result ≡ only (raw_moment xs.old words.now))
        × (xs.new ≡ only_or xs.old (raw_moment_in xs.old words.now)) }
{
    let (room, words) = protocol::read_next::<usize>(words)?;
    let (mean, words) = protocol::read_next(words)?;
    let mut c = [0.0; 17];
    let n = protocol::only(protocol_lists::read_next_list(words, &mut c))?;
    let places = room.min(xs.len());
    let written = moments::raw_moment(kept(&c, n), mean, &mut xs[..places]);
    Some(written.map_or_else(Reply::from, |count| Reply::Listed { count, len: count }))
}
