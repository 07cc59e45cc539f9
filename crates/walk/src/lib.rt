// The walk of a fit: steps from a starting mean and weight until one settles, is inadmissible, or the
// step limit is reached. The best parameters met on the way are kept.
#![tactic(auto)]

ghost use Rattle.std.specs.Prelude.{◌≡◌, true, false, ◌+◌, ◌≤◌, ◌<◌, min};
ghost use Rattle.moments.specs.Lists.{five_of, listed};
ghost use Rattle.walk.specs.Machine.{advanced, at_end, begun, outcome_of, over};
ghost use Rattle.walk.specs.Parts.{Turned, ended_after, fit_after, shape_variant, steps_on};
ghost use Rattle.fit_state.specs.State.{fit_part, with_fit};
ghost use Rattle.walk.specs.Reasons.{number_of};
ghost use Rattle.fit_state.specs.Errors.{squares_summed, squares};
ghost use Rattle.walk.specs.Trail.{step_for};
ghost use Rattle.walk.specs.Variants.{variant_number, variant_of};
ghost use Rattle.walk.specs.Walk.{is_weight, needed_by, walk_of, walk_refusal};

use fit_state::{After, Fit, M2N, errors};
use moments::{Five, Params};
use refusal::Refusal;
use step::Step;

// Which step a walk takes; each is its number. A state has a `usize`, since it may hold any number, and a
// walk refuses the others.
#[derive(Clone, Copy, Debug, PartialEq, Eq)]
pub enum Variant {
    FourMoments = 1,
    FiveMoments = 2,
}

impl TryFrom<usize> for Variant {
    type Error = Refusal;

    ghost try_from_gives = { λ n answer. answer ≡ variant_of n };

    fn try_from(n: usize) -> Result<Variant, Refusal>
        ensures { result ≡ variant_of n }
    {
        match n {
            1 => Ok(Variant::FourMoments),
            2 => Ok(Variant::FiveMoments),
            _ => Err(Refusal::UnknownVariant),
        }
    }
}

impl Variant {
    // How many moments the step reads.
    fn needed(self) -> usize
        ensures { result ≡ needed_by (variant_number self) }
    {
        match self {
            Variant::FourMoments => 4,
            Variant::FiveMoments => 5,
        }
    }

    #[tactic(auto, unfolding(crate::specs::Trail::step_for))]
    fn step(self, m: Five, mu_2: f64, p_1: f64) -> Step
        ensures { result ≡ step_for (variant_number self) (listed m) mu_2 p_1 }
    {
        match self {
            Variant::FourMoments => step::four(m, mu_2, p_1),
            Variant::FiveMoments => step::five(m, mu_2, p_1),
        }
    }
}

// A pair of the walk, and how many steps led to it.
#[derive(Clone, Copy)]
struct Seen {
    mu: f64,
    p: f64,
    at: usize,
}

// How many steps are taken, and the pair to look out for.
#[derive(Clone, Copy)]
struct Turn {
    count: usize,
    seen: Seen,
}

// Why a walk ended; each is document 01's number.
#[derive(Clone, Copy, Debug, PartialEq, Eq)]
pub enum Reason {
    Spent = 1,
    Settled = 2,
    Inadmissible = 3,
}

// As for `Refusal`: each enum gives its own number, and an impl for both would need a macro.
impl From<Reason> for u64 {
    ghost from_gives = { λ reason n. n ≡ number_of reason };

    fn from(reason: Reason) -> u64
        ensures { result ≡ number_of reason }
    {
        reason as u64
    }
}

// After how many steps a walk ended, and why.
#[derive(Clone, Copy)]
pub struct Ended {
    pub count: usize,
    pub reason: Reason,
}

pub type Walked = After<Ended>;

// A walk under way: the state with the best of what was met, the pair of the next step, how many steps
// were taken, and what stopped it.
#[derive(Clone, Copy)]
pub struct Walking {
    pub state: M2N,
    pub mu_2: f64,
    pub p_1: f64,
    pub count: usize,
    pub stopped: Option<Reason>,
}

// An admitted iterate: its moments are stored, and it is kept where its error is strictly smaller.
#[tactic(auto, unfolding(crate::specs::Parts::fit_after))]
fn fit_after(len: usize, a: Five, f: Fit, r: Params) -> Fit
    ensures { result ≡ fit_after len a f r }
{
    let new_moments = moments::get_moments(r);
    let error = errors::error_of(len, a, new_moments);
    if error < f.error {
        return Fit {
            new_moments,
            parameters: r,
            error,
        };
    }
    Fit { new_moments, ..f }
}

// Whether a walk may start at the weight: at least 0 and below 1, so not NaN.
pub fn is_weight(p_1: f64) -> bool
    ensures { result ≡ is_weight p_1 }
{
    0.0 <= p_1 && p_1 < 1.0
}

// The state's variant, or what document 01's entry "Walk" turns away of the state.
#[tactic(auto, unfolding(crate::specs::Walk::shape_refusal))]
fn check_shape(m: M2N) -> Result<Variant, Refusal>
    ensures { result ≡ shape_variant m }
{
    let variant = Variant::try_from(m.variant)?;
    moments::check_len(m.len, variant.needed())?;
    Ok(variant)
}

// And then of the weight.
#[tactic(auto, unfolding(crate::specs::Walk::shape_refusal, crate::specs::Walk::walk_refusal))]
fn check(m: M2N, p_1: f64) -> Result<(), Refusal>
    ensures { result ≡ walk_refusal m p_1 }
{
    check_shape(m)?;
    if !is_weight(p_1) {
        return Err(Refusal::BadWeight);
    }
    Ok(())
}

// It is spent whenever the count equals the limit; otherwise the reason is what stopped it.
fn ended_after(count: usize, max_iter: usize, stopped: Reason) -> Ended
    ensures { result ≡ ended_after count max_iter stopped }
{
    let reason = if count == max_iter {
        Reason::Spent
    } else {
        stopped
    };
    Ended { count, reason }
}

// Whether two numbers are one, bit for bit; a NaN is never.
#[tactic(auto, using(crate::proofs::Rounds::no_nan, crate::proofs::Rounds::one_float))]
fn same(x: f64, y: f64) -> bool
    ensures { result ≡ true → x ≡ y }
{
    x == y && x.to_bits() == y.to_bits()
}

// A walk that comes back to a pair it has seen goes round from there on, and going round changes
// nothing more: as many whole rounds as the limit leaves are counted and not walked. The pair looked
// out for is that of the last power of two of steps, so a round of any length is found.
fn count_rounds(count: usize, limit: usize, mu: f64, p: f64, seen: Seen) -> Turn
    requires { (seen.at < count) × (count ≤ limit) }
    ensures { Turned count limit mu p seen result }
{
    if same(mu, seen.mu) && same(p, seen.p) {
        let round = count - seen.at;
        let to = count + (limit - count) / round * round;
        return Turn {
            count: to,
            seen: Seen { mu, p, at: to },
        };
    }
    if seen.at <= count / 2 {
        return Turn {
            count,
            seen: Seen { mu, p, at: count },
        };
    }
    Turn { count, seen }
}

// A walk before its first step, if it is not refused.
#[tactic(auto, unfolding(crate::specs::Machine::begun))]
pub fn begin(m: M2N, mu_2: f64, p_1: f64) -> Result<Walking, Refusal>
    ensures { result ≡ begun m mu_2 p_1 }
{
    check(m, p_1)?;
    Ok(Walking {
        state: m,
        mu_2,
        p_1,
        count: 0,
        stopped: None,
    })
}

fn at_end(w: Walking) -> bool
    ensures { result ≡ at_end w }
{
    w.stopped.is_some() || w.state.max_iter <= w.count
}

// Whether a walk takes no more steps. A `Walking` can be made by hand, of a state that no walk begins with:
// that is over too, since a step reads a variant and as many moments as that needs.
#[tactic(auto, unfolding(crate::specs::Machine::over))]
pub fn is_over(w: Walking) -> bool
    ensures { result ≡ over w }
{
    check_shape(w.state).is_err() || at_end(w)
}

fn steps_on(
    w: Walking,
    f: Fit,
    count: usize,
    mu_2: f64,
    p_1: f64,
    stopped: Option<Reason>,
) -> Walking
    requires { w.count + count ≤ w.state.max_iter }
    ensures { result ≡ steps_on w f count mu_2 p_1 stopped }
{
    Walking {
        state: w.state.with_fit(f),
        mu_2,
        p_1,
        count: w.count + count,
        stopped,
    }
}

// Steps of a walk that is not over. A turn may count whole rounds, so the loop is no `for` over its
// turns. The count is the piece's own, so a piece finds the rounds that a whole walk as long would find.
fn go_on(w: Walking, variant: Variant, n: usize) -> Walking
    requires its_variant { variant_number variant ≡ w.state.variant }
    requires going { over w ≡ false }
    ensures { result ≡ advanced n w }
{
    let m = w.state;
    let a = m.first_five();
    let to = n.min(m.max_iter - w.count);
    let mut f = Fit::from(m);
    let mut mu = w.mu_2;
    let mut p = w.p_1;
    let mut count = 0;
    let mut seen = Seen { mu, p, at: 0 };
    while count < to {
        let s = variant.step(a, mu, p);
        count += 1;
        let Step::Admitted(r) = s else {
            return steps_on(w, f, count, mu, p, Some(Reason::Inadmissible));
        };
        f = fit_after(m.len, a, f, r);
        let settled = number::abs(p - r.p_1) < m.epsilon;
        mu = r.mu_2;
        p = r.p_1;
        if settled {
            return steps_on(w, f, count, mu, p, Some(Reason::Settled));
        }
        let t = count_rounds(count, to, mu, p, seen);
        count = t.count;
        seen = t.seen;
    }
    steps_on(w, f, count, mu, p, None)
}

// At most n steps on, up to the end of the walk.
#[tactic(auto, using(crate::proofs::Trails::its_variant, crate::proofs::Left::going, crate::proofs::Left::ended, crate::proofs::Left::misshapen))]
pub fn advance(w: Walking, n: usize) -> Walking
    ensures { result ≡ advanced n w }
{
    match check_shape(w.state) {
        Ok(variant) if !at_end(w) => go_on(w, variant, n),
        _ => w,
    }
}

// What a walk that is over answers. One that is not over answers as if its limit were reached, and one whose
// state is refused answers its refusal.
#[tactic(auto, unfolding(crate::specs::Machine::outcome_of))]
pub fn outcome_of(w: Walking) -> Walked
    ensures { result ≡ outcome_of w }
{
    let m = w.state;
    let stopped = w.stopped.unwrap_or(Reason::Spent);
    Walked {
        state: m,
        outcome: check_shape(m).map(|_| ended_after(w.count, m.max_iter, stopped)),
    }
}

// Iterates the variant's step from a mean and a weight.
#[tactic(auto, using(crate::proofs::Whole::whole_in_pieces, crate::proofs::Whole::not_begun))]
pub fn iterate_from(m: M2N, mu_2: f64, p_1: f64) -> Walked
    ensures { result ≡ walk_of m mu_2 p_1 }
{
    match begin(m, mu_2, p_1) {
        Ok(w) => outcome_of(advance(w, m.max_iter)),
        Err(refusal) => Walked {
            state: m,
            outcome: Err(refusal),
        },
    }
}
