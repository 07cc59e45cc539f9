// The budget size: the live longs over their largest number, less the same of the shorts.
#![tactic(auto)]

ghost use Rattle.std.specs.Prelude.{◌≡◌, ◌++◌, ◌≤◌, length, drop};
ghost use Rattle.budget.specs.Budget.{BetSizeBudget, largest, share};
ghost use Rattle.budget.specs.Sizes.{sizes_of};

use refusal::Refusal;

// The largest of the counts, 0 for none.
fn largest(counts: &[f64]) -> f64
    ensures { result ≡ largest counts.now }
{
    counts
        .iter()
        .fold(0.0, |most, &count| number::larger(most, count))
}

// A count over the largest count; +0 for a side that has none.
fn share_of(count: f64, most: f64) -> f64
    ensures { result ≡ share count most }
{
    if most > 0.0 {
        return count / most;
    }
    0.0
}

// Writes the size of each span, from the counts of both sides at its start.
fn sizes_of(long: &[f64], short: &[f64], size: &mut [f64])
    requires { (length long.now ≡ length short.now) × (length long.now ≤ length size.old) }
    ensures { size.new ≡ sizes_of long.now short.now ++ drop (length long.now) size.old }
{
    let max_long = largest(long);
    let max_short = largest(short);
    for (i, (live_long, live_short)) in long.iter().zip(short).enumerate() {
        // by index, since after a zip of iter_mut a proof knows nothing of the elements
        size[i] = share_of(*live_long, max_long) - share_of(*live_short, max_short);
    }
}

// Writes the budget size of each span. Three lists, as the Rust's function takes them. The counts have
// room for as many spans as are taken, so they are refused as the sizes are, but for the room of these.
pub fn bet_size_budget(
    starts: &[i64],
    ends: &[i64],
    sides: &[f64],
    size: &mut [f64],
) -> Result<usize, Refusal>
    ensures { BetSizeBudget starts.now ends.now sides.now size.old size.new result }
{
    // arrays for the most spans that there may be: a Vec may run out of memory
    let mut long = [0.0f64; 16384];
    let mut short = [0.0f64; 16384];
    let n = bet_sizing::get_concurrent_sides(starts, ends, sides, &mut long, &mut short)?;
    if size.len() < n {
        return Err(Refusal::TooLittleRoom);
    }
    sizes_of(&long[..n], &short[..n], size);
    Ok(n)
}
