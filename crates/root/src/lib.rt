// The square root of an f64, rounded once.
#![tactic(auto)]

ghost use Rattle.std.specs.Prelude.{◌≡◌, ◌<◌, ◌^◌};
ghost use Rattle.std.specs.Float.{binary64};
ghost use Rattle.std.specs.Float.Ieee.{of_bits};
ghost use Rattle.float.specs.Root.{root};

// 2^-537, the root of 2^-1074, which is the smallest number above zero.
const ROOT_OF_SMALLEST: f64 = f64::from_bits(0x1e60_0000_0000_0000);

// The root of the number with the bits b, which is b * 2^-1074, by the root of b.
#[tactic(auto, using(crate::proofs::Subnormal::root_lowered))]
fn of_subnormal(b: u64) -> f64
    requires { b < 2 ^ 52 }
    ensures { result ≡ root binary64 (of_bits binary64 b) }
{
    ROOT_OF_SMALLEST * (b as f64).sqrt()
}

// √x: NaN at a NaN and below zero; a zero keeps its sign.
#[tactic(auto, using(crate::proofs::Library::sqrt_is_root, crate::proofs::Subnormal::root_of_bits))]
pub fn sqrt(x: f64) -> f64
    ensures { result ≡ root binary64 x }
{
    // below the normal numbers. Of a subnormal one the processor's root takes many times as long as of another;
    // zeros and negatives, which are below them too, go on
    if x < f64::MIN_POSITIVE {
        let bits = std::num::f64_to_bits_with_nan(x);
        if 0 < bits && bits < 1 << 52 {
            return of_subnormal(bits);
        }
    }
    x.sqrt()
}
