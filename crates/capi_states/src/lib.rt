// The fit state as a C program holds it: the target moments, a few numbers, and 12 flat ones.
#![tactic(auto)]

ghost use Rattle.std.specs.Prelude.{◌≡◌};
ghost use Rattle.capi_states.specs.States.{first, state_of, with_front, with_params, with_state};

use fit_state::{Fit, M2N};
use moments::{Five, Params};

// The first N numbers of a list, and zeros where it has fewer.
fn first<const N: usize>(l: &[f64]) -> [f64; N]
    ensures { result ≡ first N l.now }
{
    let mut numbers = [0.0; N];
    let n = l.len().min(N);
    numbers[..n].copy_from_slice(&l[..n]);
    numbers
}

// A state has room for 16 moments; more are refused by their count.
pub fn state_of(
    moments: &[f64],
    variant: usize,
    factor: f64,
    max_iter: usize,
    n_runs: usize,
    fit: &[f64],
) -> M2N
    ensures { result ≡ state_of moments.now variant factor max_iter n_runs fit.now }
{
    let numbers = first::<12>(fit);
    let fit = Fit {
        new_moments: Five::from(first(&numbers[7..])),
        parameters: Params::from(first(&numbers)),
        error: numbers[5],
    };
    M2N {
        moments: first(moments),
        len: moments.len(),
        epsilon: numbers[6],
        factor,
        n_runs,
        variant,
        max_iter,
        ..M2N::from(fit)
    }
}

// Numbers into the front of a list, as many as it has places for.
fn put(l: &mut [f64], numbers: &[f64])
    ensures { l.new ≡ with_front l.old numbers.now }
{
    let n = l.len().min(numbers.len());
    l[..n].copy_from_slice(&numbers[..n]);
}

pub fn put_params(l: &mut [f64], p: Params)
    ensures { l.new ≡ with_params l.old p }
{
    put(l, &<[f64; 5]>::from(p));
}

pub fn put_state(l: &mut [f64], m: M2N)
    ensures { l.new ≡ with_state l.old m }
{
    let mut numbers = [0.0; 12];
    numbers[..5].copy_from_slice(&<[f64; 5]>::from(m.parameters));
    numbers[5] = m.error;
    numbers[6] = m.epsilon;
    numbers[7..].copy_from_slice(&<[f64; 5]>::from(m.new_moments));
    put(l, &numbers);
}
