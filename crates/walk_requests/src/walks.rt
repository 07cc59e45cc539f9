// The request of a walk. A list longer than 16 is read, and refused by the library. The array is the
// state's own.
ghost use Rattle.std.specs.Prelude.{◌≡◌};
ghost use Rattle.protocol.specs.Words.{only};
ghost use Rattle.walk_requests.specs.Walks.{walk, walked_reply, walks};

use fit_state::{Fit, M2N};
use replies::{Reply, Report};
use walk::Walked;

pub fn answer(s: &[u8]) -> Option<Reply>
    ensures { result ≡ walks s.now }
{
    walk(protocol::words_after(s, b"walk")?)
}

fn walk(words: &[u8]) -> Option<Reply>
    ensures { result ≡ only (walk words.now) }
{
    let (variant, words) = protocol::read_next(words)?;
    let mut moments = [0.0; 16];
    let (len, words) = protocol_lists::read_next_list(words, &mut moments)?;
    let ([mu_2, p_1, epsilon], words) = protocol_lists::read_next_fractions::<3>(words)?;
    let (max_iter, words) = protocol::read_next(words)?;
    let fit = protocol::only(protocol_lists::read_next_state(words))?;
    let m = M2N {
        moments,
        len,
        epsilon,
        variant,
        max_iter,
        ..M2N::from(fit)
    };
    Some(reply(walk::iterate_from(m, mu_2, p_1)))
}

fn reply(walked: Walked) -> Reply
    ensures { result ≡ walked_reply walked }
{
    match walked.outcome {
        Ok(ended) => Reply::Walked(Report {
            count: ended.count,
            reason: u64::from(ended.reason),
            state: Fit::from(walked.state),
        }),
        Err(refusal) => Reply::from(refusal),
    }
}
