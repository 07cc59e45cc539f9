// One step and a walk, for C (include/woddirme.h): a slice is a pointer and a length. Each answers 0, or
// the number of the refusal, which leaves all as it was. C has neither Option nor Result, so a refusal is the
// number that the header gives it, and a step that may be missing a count, 1 or 0.
#![tactic(auto)]

ghost use Rattle.std.specs.Prelude.{◌≡◌, ◌≤◌, length};
ghost use Rattle.iterate.specs.Refusals.{iter4, iter5};
ghost use Rattle.refusal.specs.Numbers.{status_of};
ghost use Rattle.step.specs.StepNumbers.{admitted_of, numbers_of};
ghost use Rattle.capi_states.specs.States.{with_front};
ghost use Rattle.capi_steps.specs.Steps.{StepLeaves, roomed};
ghost use Rattle.capi_steps.specs.Walks.{WalkLeaves, outcome_of, walked};

use refusal::Refusal;
use step::Step;
use walk::Walked;

// How many steps are admitted, 1 or 0; where none, the lent numbers stay as they were.
fn leave_step(s: Step, numbers: &mut [f64]) -> usize
    requires { 5 ≤ length numbers.old }
    ensures { (result ≡ admitted_of s) × (numbers.new ≡ with_front numbers.old (numbers_of s)) }
{
    let Step::Admitted(p) = s else {
        return 0;
    };
    capi_states::put_params(numbers, p);
    1
}

// Leaves what a step answers in the lent places, of which five are needed.
fn leave(
    answer: Result<Step, Refusal>,
    admitted: &mut usize,
    numbers: &mut [f64],
) -> Result<(), Refusal>
    ensures { StepLeaves (roomed answer numbers.old) admitted.old numbers.old (status_of result) admitted.new numbers.new }
{
    let s = answer?;
    if numbers.len() < 5 {
        return Err(Refusal::TooLittleRoom);
    }
    *admitted = leave_step(s, numbers);
    Ok(())
}

// One step on four moments (M2N::iter_4). `admitted` becomes 1 and `numbers` takes mu_1, mu_2, sigma_1,
// sigma_2 and p_1; where the step is inadmissible `admitted` becomes 0 and `numbers` stays as it was.
#[unsafe(no_mangle)]
pub extern "C" fn woddirme_iter_4(
    moments: &[f64],
    mu_2: f64,
    p_1: f64,
    admitted: &mut usize,
    numbers: &mut [f64],
) -> u64
    ensures { StepLeaves (roomed (iter4 moments.now mu_2 p_1) numbers.old) admitted.old numbers.old result admitted.new numbers.new }
{
    let answer = iterate::iter_4(moments, mu_2, p_1);
    refusal::status_of(leave(answer, admitted, numbers))
}

// One step on five moments (M2N::iter_5), as woddirme_iter_4. Two functions, since the header has two
// names; what they share is `leave`.
#[unsafe(no_mangle)]
pub extern "C" fn woddirme_iter_5(
    moments: &[f64],
    mu_2: f64,
    p_1: f64,
    admitted: &mut usize,
    numbers: &mut [f64],
) -> u64
    ensures { StepLeaves (roomed (iter5 moments.now mu_2 p_1) numbers.old) admitted.old numbers.old result admitted.new numbers.new }
{
    let answer = iterate::iter_5(moments, mu_2, p_1);
    refusal::status_of(leave(answer, admitted, numbers))
}

// Leaves a walk's outcome in the lent places.
fn leave_walk(
    walked: Walked,
    fit: &mut [f64],
    count: &mut usize,
    reason: &mut u64,
) -> Result<(), Refusal>
    requires { 12 ≤ length fit.old }
    ensures { WalkLeaves walked.outcome walked.state fit.old count.old reason.old (status_of result) fit.new count.new reason.new }
{
    let ended = walked.outcome?;
    capi_states::put_state(fit, walked.state);
    *count = ended.count;
    *reason = u64::from(ended.reason);
    Ok(())
}

// A walk from a mean and a weight (M2N::iterate_from). `fit` holds the state as for
// woddirme_single_fit_loop; `count` becomes how many steps were taken and `reason` why they ended. 8
// where `fit` is too short.
#[unsafe(no_mangle)]
#[tactic(auto, unfolding(crate::specs::Walks::walked, crate::specs::Walks::outcome_of))]
pub extern "C" fn woddirme_iterate_from(
    moments: &[f64],
    variant: usize,
    factor: f64,
    max_iter: usize,
    mu_2: f64,
    p_1: f64,
    fit: &mut [f64],
    count: &mut usize,
    reason: &mut u64,
) -> u64
    ensures { WalkLeaves (outcome_of moments.now variant factor max_iter mu_2 p_1 fit.old)
        (walked moments.now variant factor max_iter mu_2 p_1 fit.old).state
        fit.old count.old reason.old result fit.new count.new reason.new }
{
    if fit.len() < 12 {
        return u64::from(Refusal::TooLittleRoom);
    }
    let m = capi_states::state_of(moments, variant, factor, max_iter, 1, fit);
    let walked = walk::iterate_from(m, mu_2, p_1);
    refusal::status_of(leave_walk(walked, fit, count, reason))
}
