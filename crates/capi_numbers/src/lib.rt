// The root, powers, casts and comparisons, for C, each one call of the library's. include/woddirme.h
// declares them.
#![tactic(auto)]

ghost use Rattle.std.specs.Prelude.{◌≡◌};
ghost use Rattle.std.specs.Float.{binary64, float_is_finite};
ghost use Rattle.std.specs.Float.Ieee.{of_int, to_signed, to_unsigned};
ghost use Rattle.float.specs.Leaves.{abs_of, larger_of};
ghost use Rattle.float.specs.Power.{power};
ghost use Rattle.float.specs.Root.{root};

// √x, rounded once: NaN at a NaN and below zero; a zero keeps its sign.
#[unsafe(no_mangle)]
pub extern "C" fn woddirme_sqrt(x: f64) -> f64
    ensures { result ≡ root binary64 x }
{
    root::sqrt(x)
}

// |x|: the sign is dropped, of -0 too.
#[unsafe(no_mangle)]
pub extern "C" fn woddirme_abs(x: f64) -> f64
    ensures { result ≡ abs_of x }
{
    number::abs(x)
}

// Neither infinite nor NaN.
#[unsafe(no_mangle)]
pub extern "C" fn woddirme_is_finite(x: f64) -> bool
    ensures { result ≡ float_is_finite x }
{
    number::is_finite(x)
}

// Where one is NaN the other; of two equal zeros the first.
#[unsafe(no_mangle)]
pub extern "C" fn woddirme_larger(x: f64, y: f64) -> f64
    ensures { result ≡ larger_of x y }
{
    number::larger(x, y)
}

// Cut towards zero, saturating, NaN to 0.
#[unsafe(no_mangle)]
pub extern "C" fn woddirme_as_i64(x: f64) -> i64
    ensures { result ≡ to_signed 63 x }
{
    number::as_i64(x)
}

// As woddirme_as_i64, from 0 to 2^64 - 1.
#[unsafe(no_mangle)]
pub extern "C" fn woddirme_as_usize(x: f64) -> usize
    ensures { result ≡ to_unsigned 64 x }
{
    number::as_usize(x)
}

// The nearest, half to even.
#[unsafe(no_mangle)]
pub extern "C" fn woddirme_i64_as_f64(n: i64) -> f64
    ensures { result ≡ of_int binary64 n }
{
    number::i64_as_f64(n)
}

// x to the n, by squaring and multiplying from the lowest binary digit of n up.
#[unsafe(no_mangle)]
pub extern "C" fn woddirme_powi(x: f64, n: usize) -> f64
    ensures { result ≡ power x n }
{
    number::powi(x, n)
}
