// The number leaves: powers, casts and comparisons of f64, each as the Rust has it, for every
// input. Each operation rounds once; NaNs are one class. And a whole number as a key.
#![tactic(auto)]

ghost use Rattle.std.specs.Prelude.{◌≡◌};
ghost use Rattle.std.specs.Float.{binary64, float_is_finite};
ghost use Rattle.std.specs.Float.Ieee.{of_int, to_signed, to_unsigned};
ghost use Rattle.float.specs.Keys.{key_of};
ghost use Rattle.float.specs.Leaves.{abs_of, larger_of};

pub mod power; // power.rt: powi

pub use power::powi;

// |x|: the sign is dropped, of -0 too.
#[tactic(auto, using(crate::proofs::Sizes::abs_is))]
pub fn abs(x: f64) -> f64
    ensures { result ≡ abs_of x }
{
    x.abs()
}

// Neither infinite nor NaN.
pub fn is_finite(x: f64) -> bool
    ensures { result ≡ float_is_finite x }
{
    x.is_finite()
}

// Rust's f64::max: where one is NaN the other; of two equal zeros the first, where the library's may
// give either.
pub fn larger(x: f64, y: f64) -> f64
    ensures { result ≡ larger_of x y }
{
    if x.is_nan() || x < y { y } else { x }
}

// Rust's `x as i64`: cut towards zero, saturating, NaN to 0.
pub fn as_i64(x: f64) -> i64
    ensures { result ≡ to_signed 63 x }
{
    std::num::saturating_f64_to_i64(x)
}

// Rust's `x as usize`, of 64 bits: cut towards zero, saturating, NaN to 0.
pub fn as_usize(x: f64) -> usize
    ensures { result ≡ to_unsigned 64 x }
{
    std::num::saturating_f64_to_usize(x)
}

// Rust's `n as f64`: the nearest, half to even.
pub fn i64_as_f64(n: i64) -> f64
    ensures { result ≡ of_int binary64 n }
{
    std::num::nearest_i64_to_f64(n)
}

// An i64 as a u64 in the same order: 2^63 more. A larger key less a smaller one never overflows.
#[tactic(auto, using(crate::proofs::Keys::key_is))]
pub fn key(n: i64) -> u64
    ensures { result ≡ key_of n }
{
    n.abs_diff(i64::MIN)
}
