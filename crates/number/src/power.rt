// Powers, as Rust's powi works them out.
ghost use Rattle.std.specs.Prelude.{◌≡◌};
ghost use Rattle.float.specs.Power.{power};

// x to the n: squaring and multiplying from the lowest binary digit of n up. The library's powi takes
// an i32, and n is any usize here.
pub fn powi(x: f64, n: usize) -> f64
    ensures { result ≡ power x n }
{
    let mut r = 1.0;
    let mut a = x;
    let mut b = n;
    while 0 < b {
        if b % 2 == 1 {
            r *= a;
        }
        a *= a;
        b /= 2;
    }
    r
}
