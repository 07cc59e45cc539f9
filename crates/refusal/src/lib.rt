// Why a call is turned away: document 01's refusals under names, and their numbers.
#![tactic(auto)]

ghost use Rattle.std.specs.Prelude.{◌≡◌};
ghost use Rattle.refusal.specs.Numbers.{number_of, status_of};

// The variants stand in the order of document 01's numbers, and each is its number. It has no 14.
#[derive(Clone, Copy, Debug, PartialEq, Eq)]
pub enum Refusal {
    TooFewMoments = 1,
    TooManyMoments = 2,
    UnknownVariant = 3,
    BadEpsilon = 4,
    TooManyRows = 5,
    TooFewWeights = 6,
    BadWeight = 7,
    TooLittleRoom = 8,
    OrderTooHigh = 9,
    UnequalLengths = 10,
    TooLarge = 11,
    TooManyLots = 12,
    TooManyRuns = 13,
    NotASpan = 15,
}

impl From<Refusal> for u64 {
    ghost from_gives = { λ refusal n. n ≡ number_of refusal };

    fn from(refusal: Refusal) -> u64
        ensures { result ≡ number_of refusal }
    {
        refusal as u64
    }
}

// An answer as C has it: 0, or the number of the refusal.
pub fn status_of<T: Copy>(answer: Result<T, Refusal>) -> u64
    ensures { result ≡ status_of answer }
{
    match answer {
        Ok(_) => 0,
        Err(refusal) => u64::from(refusal),
    }
}
