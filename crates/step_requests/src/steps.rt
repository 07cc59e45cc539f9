// Requests of one step of the fit. The function of both takes the words after a name. A list longer
// than 16 is read, and refused by the library: 17 of it are enough for that, whatever they are. They
// stand in an array, since a Vec may find no memory.
ghost use Rattle.std.specs.Prelude.{◌≡◌};
ghost use Rattle.protocol.specs.Words.{only};
ghost use Rattle.step_requests.specs.Steps.{one_step, stepping, steps};

use refusal::Refusal;
use replies::Reply;
use step::Step;
use walk::Variant;

pub fn answer(s: &[u8]) -> Option<Reply>
    ensures { result ≡ steps s.now }
{
    if let Some(words) = protocol::words_after(s, b"iter_4") {
        return one_step(words, Variant::FourMoments);
    }
    if let Some(words) = protocol::words_after(s, b"iter_5") {
        return one_step(words, Variant::FiveMoments);
    }
    None
}

// The variant is no `impl Fn`: with the step as one, the contract is about every definition that the calls
// are equal to and that refuses long lists, and three goals are left to prove by hand where now there is one.
fn one_step(words: &[u8], variant: Variant) -> Option<Reply>
    ensures { result ≡ only (one_step (stepping variant) words.now) }
{
    let mut m = [0.0; 17];
    let (n, words) = protocol_lists::read_next_list(words, &mut m)?;
    let [mu_2, p_1] = protocol::only(protocol_lists::read_next_fractions::<2>(words))?;
    let answer = stepped(variant, protocol_lists::kept(&m, n), mu_2, p_1);
    Some(answer.map_or_else(Reply::from, Reply::Stepped))
}

// Of the shape of Variant's own step, but of lists, with their refusals.
fn stepped(variant: Variant, m: &[f64], mu_2: f64, p_1: f64) -> Result<Step, Refusal>
    ensures { result ≡ stepping variant m.now mu_2 p_1 }
{
    match variant {
        Variant::FourMoments => iterate::iter_4(m, mu_2, p_1),
        Variant::FiveMoments => iterate::iter_5(m, mu_2, p_1),
    }
}
