// The values of a reply, put one after another.
#![tactic(auto)]

ghost use Rattle.text_write.specs.Appending.{Puts};
ghost use Rattle.printing_values.specs.Values.{values};

use replies::Reply;
use text_write::Text;

mod lists; // lists.rt: a list of fractions
mod numbers; // numbers.rt: numbers, each after a blank
mod rows; // rows.rt: a row for each span
mod states; // states.rt: a step, and how a walk or a search ended, with the state after it

// Puts the values of the reply to the request s, beside which stands the list xs.
pub fn put_values(text: &mut Text, r: Reply, s: &[u8], xs: &[f64])
    ensures { Puts text.old text.new (values r s.now xs.now) }
{
    match r {
        Reply::Refused(number) => numbers::put_natural(text, number),
        Reply::Fraction(x) => numbers::put_fractions(text, &[x]),
        Reply::Natural(n) => numbers::put_natural(text, n),
        Reply::Instant(i) => numbers::put_instant(text, i),
        Reply::Moments(m) => numbers::put_fractions(text, &<[f64; 5]>::from(m)),
        Reply::Stepped(step) => states::put_step(text, step),
        Reply::Walked(w) => states::put_walk(text, w),
        Reply::Searched(f) => states::put_search(text, f),
        Reply::Listed { count, len } => lists::put(text, count, len, xs),
        Reply::Spanned(r) => rows::put(text, r, s, xs),
    }
}
