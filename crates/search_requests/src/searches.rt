// The request of one search. A list of moments longer than 16 is read, and refused by the library. A
// weight has 17 bytes of a line of at most 65,535 bytes, so a line has fewer than 4,096 of them. They
// stand in an array, since a Vec may find no memory; the moments' is the state's own.
ghost use Rattle.std.specs.Prelude.{◌≡◌};
ghost use Rattle.text.specs.Meaning.{got_of};
ghost use Rattle.protocol.specs.Words.{only};
ghost use Rattle.search_requests.specs.Searches.{next_given, searched_reply, searches, single};

use fit_state::{Fit, M2N};
use grid::Fitted;
use replies::{Reply, Search};

pub fn answer(s: &[u8]) -> Option<Reply>
    ensures { result ≡ searches s.now }
{
    single_fit(protocol::words_after(s, b"single_fit")?)
}

fn single_fit(words: &[u8]) -> Option<Reply>
    ensures { result ≡ only (single words.now) }
{
    let mut weights = [0.0; 4096]; // first: made below the words, it was cleared twice
    let (variant, words) = protocol::read_next(words)?;
    let mut moments = [0.0; 16];
    let (len, words) = protocol_lists::read_next_list(words, &mut moments)?;
    let (epsilon, words) = protocol::read_next(words)?;
    let (epsilon_override, words) = read_given(words)?;
    let (factor, words) = protocol::read_next(words)?;
    let (max_iter, words) = protocol::read_next(words)?;
    let (fit, words) = protocol_lists::read_next_state(words)?;
    let n = protocol::only(protocol_lists::read_next_list(words, &mut weights))?;
    let m = M2N {
        moments,
        len,
        epsilon,
        factor,
        variant,
        max_iter,
        ..M2N::from(fit)
    };
    let fitted = ef3m::single_fit_through(m, epsilon_override, protocol_lists::kept(&weights, n));
    Some(reply(fitted))
}

// The epsilon that is given for this search; `-` where none is.
fn read_given(s: &[u8]) -> Option<(Option<f64>, &[u8])>
    ensures { next_given s.now ≡ got_of result }
{
    if let Some(rest) = text_read::read_word(s, b" -") {
        return Some((None, rest));
    }
    let (epsilon, rest) = protocol::read_next::<f64>(s)?;
    Some((Some(epsilon), rest))
}

fn reply(f: Fitted) -> Reply
    ensures { result ≡ searched_reply f }
{
    match f.outcome {
        Ok(row) => Reply::Searched(Search {
            row,
            state: Fit::from(f.state),
            epsilon: f.state.epsilon,
        }),
        Err(refusal) => Reply::from(refusal),
    }
}
