// Lists in a request, and the state that one begins from.
#![tactic(auto)]

ghost use Rattle.std.specs.Prelude.{◌≡◌, length, set, take};
ghost use Rattle.text.specs.Meaning.{got_of, left_of};
ghost use Rattle.protocol.specs.Words.{next};
ghost use Rattle.protocol_lists.specs.Lists.{entries, fractions, fractions_in, list_in, list_of, next_state};

use fit_state::Fit;
use moments::{Five, Params};
use protocol::Entry;

// The list after a blank: how many entries, then so many. Those that have no place in xs are read and
// left out.
pub fn read_next_list<'a, T: Entry>(s: &'a [u8], xs: &mut [T]) -> Option<(usize, &'a [u8])>
    ensures counted { list_of (next T.form) s.now ≡ got_of result }
    ensures kept { xs.new ≡ list_in (next T.form) xs.old s.now }
{
    let (count, entries) = protocol::read_next::<usize>(s)?;
    let mut rest = entries;
    for i in 0..count {
        let (x, after) = protocol::read_next(rest)?;
        keep(xs, i, x);
        rest = after;
    }
    Some((count, rest))
}

// Puts x at the place i, where there is one. Not by `get_mut`: at a type parameter its contract does not
// say that what is put there stands in xs.
fn keep<T: Copy>(xs: &mut [T], i: usize, x: T)
    ensures { xs.new ≡ set xs.old i x }
{
    if i < xs.len() {
        xs[i] = x;
    }
}

// Of a list of n entries those that have a place in xs, into which it was read.
pub fn kept<T: Copy>(xs: &[T], n: usize) -> &[T]
    ensures { result.now ≡ take n xs.now }
{
    &xs[..n.min(xs.len())]
}

// Fractions, as many as xs has places, each after a blank, and the bytes after them. Where one is no
// fraction, those before it stand in xs.
pub fn read_fractions_into<'a>(s: &'a [u8], xs: &mut [f64]) -> Option<&'a [u8]>
    ensures counted { entries (length xs.old) s.now ≡ left_of result }
    ensures kept { xs.new ≡ fractions_in xs.old s.now }
{
    let n = xs.len();
    let mut rest = s;
    for i in 0..n {
        let (value, after) = protocol::read_next::<f64>(rest)?;
        xs[i] = value;
        rest = after;
    }
    Some(rest)
}

// N fractions, each after a blank.
pub fn read_next_fractions<const N: usize>(s: &[u8]) -> Option<([f64; N], &[u8])>
    ensures { fractions N s.now ≡ got_of result }
{
    let mut xs = [0.0; N];
    let rest = read_fractions_into(s, &mut xs)?;
    Some((xs, rest))
}

// The fit of a state after a blank: its parameters, its error and its moments, eleven fractions.
pub fn read_next_state(s: &[u8]) -> Option<(Fit, &[u8])>
    ensures { next_state s.now ≡ got_of result }
{
    let (parameters, words) = read_next_fractions::<5>(s)?;
    let (error, words) = protocol::read_next(words)?;
    let (new_moments, words) = read_next_fractions::<5>(words)?;
    let fit = Fit {
        parameters: Params::from(parameters),
        error,
        new_moments: Five::from(new_moments),
    };
    Some((fit, words))
}
