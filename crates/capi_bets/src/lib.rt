// The counts and the budget sizes, for C (include/woddirme.h). C has no Result: a refusal is its number.
#![tactic(auto)]

ghost use Rattle.capi_bets.specs.Bets.{BudgetLeaves, SidesLeave};

// How many spans of each side are live at each start (get_concurrent_sides), in the front of `long` and
// of `short`. Answers 0, or the number of the refusal, which leaves both as they were.
#[unsafe(no_mangle)]
pub extern "C" fn woddirme_get_concurrent_sides(
    starts: &[i64],
    ends: &[i64],
    sides: &[f64],
    long: &mut [f64],
    short: &mut [f64],
) -> u64
    ensures { SidesLeave starts.now ends.now sides.now long.old long.new short.old short.new result }
{
    refusal::status_of(bet_sizing::get_concurrent_sides(starts, ends, sides, long, short))
}

// The budget size of each span (bet_size_budget), in the front of `size`. Answers 0, or the number of the
// refusal, which leaves `size` as it was.
#[unsafe(no_mangle)]
pub extern "C" fn woddirme_bet_size_budget(
    starts: &[i64],
    ends: &[i64],
    sides: &[f64],
    size: &mut [f64],
) -> u64
    ensures { BudgetLeaves starts.now ends.now sides.now size.old size.new result }
{
    refusal::status_of(budget::bet_size_budget(starts, ends, sides, size))
}
