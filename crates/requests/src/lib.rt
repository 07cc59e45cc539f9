// Which kind of request a line is. A kind to which the line does not belong has no reply, and the
// next is asked. Answers that are lists are left in xs. The kinds that xs is lent to are asked by
// `if let`: of a closure that it does not call, `or_else` does not say that it leaves xs alone.
#![tactic(auto)]

ghost use Rattle.std.specs.Prelude.{◌≡◌};
ghost use Rattle.requests.specs.Lines.{fits, left_in, reply_to};

use bet_requests::spans;
use moment_requests::orders;
use number_requests::leaves;
use price_requests::curves;
use replies::Reply;
use run_requests::runs;
use search_requests::searches;
use step_requests::steps;
use walk_requests::walks;

pub fn answer(s: &[u8], xs: &mut [f64]) -> Option<Reply>
    ensures { (result ≡ reply_to xs.old s.now)
        × (xs.new ≡ left_in xs.old s.now) }
{
    if let Some(leaf) = leaves::answer(s) {
        return Some(leaf);
    }
    if let Some(moment) = orders::answer(s, xs) {
        return Some(moment);
    }
    if let Some(fit) = fits(s) {
        return Some(fit);
    }
    if let Some(rows) = runs::answer(s, xs) {
        return Some(rows);
    }
    if let Some(price) = curves::answer(s) {
        return Some(price);
    }
    spans::answer(s, xs)
}

// A step, a walk or one search.
#[tactic(auto, unfolding(crate::specs::Lines::fits))]
fn fits(s: &[u8]) -> Option<Reply>
    ensures { result ≡ fits s.now }
{
    steps::answer(s)
        .or_else(|| walks::answer(s))
        .or_else(|| searches::answer(s))
}
