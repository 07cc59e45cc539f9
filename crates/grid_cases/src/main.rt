// Searches that want more weights than a request line holds, on M = (1, 4.5, 16, 81.5, 416) with
// every weight 0.5: a line for each says how it ended. The rows are the Rust's.
#![tactic(auto)]

use fit_state::{Fit, FitResultRow, M2N};
use refusal::Refusal;
use std::io;

const FINE: f64 = 1.0 / 131072.0;

// What is searched for, the variant, epsilon, and how many weights.
const CASES: [(&str, usize, f64, usize); 4] = [
    ("2^-17, 131,071 weights, variant 1", 1, FINE, 131071),
    ("2^-17, 131,071 weights, variant 2", 2, FINE, 131071),
    ("2^-17, 131,070 weights", 1, FINE, 131070),
    ("2^-18, 131,072 weights", 1, FINE / 2.0, 131072),
];

fn on_m(variant: usize, epsilon: f64) -> M2N {
    let mut moments = [0.0; 16];
    moments[..5].copy_from_slice(&[1.0, 4.5, 16.0, 81.5, 416.0]);
    M2N {
        moments,
        len: 5,
        epsilon,
        factor: 1.0,
        n_runs: 1,
        variant,
        max_iter: 10,
        ..M2N::from(Fit::default())
    }
}

fn tell(rt: &impl Print, name: &str, o: Result<Option<FitResultRow>, Refusal>) -> io::Result<()> {
    match o {
        Ok(Some(row)) => {
            print!(rt; "{name}: row")?;
            for x in <[f64; 6]>::from(row) {
                print!(rt; " {:016x}", std::num::f64_to_bits_with_nan(x))?;
            }
            println!(rt)
        }
        Ok(None) => println!(rt; "{name}: no row"),
        Err(refusal) => println!(rt; "{name}: refused {}", u64::from(refusal)),
    }
}

fn main(rt: HostRuntime) -> io::Result<()> {
    // an array for the most weights of a case: a Vec may run out of memory
    let all = [0.5; 131072];
    for (name, variant, epsilon, n) in CASES {
        let weights = all.get(..n).unwrap_or(&[]);
        let fitted = grid::single_fit_loop(on_m(variant, epsilon), None, weights);
        tell(&rt, name, fitted.outcome)?;
    }
    Ok(())
}
