// What the counts turn away, in document 01's order.
ghost use Rattle.std.specs.Prelude.{◌≡◌};
ghost use Rattle.bet_sizing.specs.Refusals.{spans_rules};
ghost use Rattle.refusal.specs.Rules.{first_refusal};

use refusal::Refusal;

// `room` is the length of the shortest list that is lent.
pub(crate) fn check_spans(
    starts: usize,
    ends: usize,
    sides: usize,
    room: usize,
) -> Result<(), Refusal>
    ensures { result ≡ first_refusal (spans_rules starts ends sides room) }
{
    if ends != starts || sides != starts {
        return Err(Refusal::UnequalLengths);
    }
    if 16384 < starts {
        return Err(Refusal::TooLarge);
    }
    if room < starts {
        return Err(Refusal::TooLittleRoom);
    }
    Ok(())
}
