// A step, and how a walk or a search ended, with the state after it.
ghost use Rattle.step.specs.StepNumbers.{numbers_of};
ghost use Rattle.text_write.specs.Appending.{Puts};
ghost use Rattle.printing_values.specs.Texts.{fractions};
ghost use Rattle.printing_values.specs.Values.{found, searched, walked};

use crate::numbers;
use fit_state::FitResultRow;
use replies::{Report, Search};
use step::Step;
use text_write::Text;

#[tactic(auto, unfolding(crate::specs::Texts::fractions))]
pub(crate) fn put_step(text: &mut Text, s: Step)
    ensures { Puts text.old text.new (fractions (numbers_of s)) }
{
    if let Step::Admitted(p) = s {
        numbers::put_fractions(text, &<[f64; 5]>::from(p));
    }
}

pub(crate) fn put_walk(text: &mut Text, w: Report)
    ensures { Puts text.old text.new (walked w) }
{
    numbers::put_natural(text, w.count as u64);
    numbers::put_natural(text, w.reason);
    numbers::put_fractions(text, &<[f64; 5]>::from(w.state.parameters));
    numbers::put_fractions(text, &[w.state.error]);
    numbers::put_fractions(text, &<[f64; 5]>::from(w.state.new_moments));
}

pub(crate) fn put_search(text: &mut Text, f: Search)
    ensures { Puts text.old text.new (searched f) }
{
    put_found(text, f.row);
    text.put(b" state");
    numbers::put_fractions(text, &<[f64; 5]>::from(f.state.parameters));
    numbers::put_fractions(text, &[f.state.error, f.epsilon]);
    numbers::put_fractions(text, &<[f64; 5]>::from(f.state.new_moments));
}

// The row that it found, if it found one.
fn put_found(text: &mut Text, row: Option<FitResultRow>)
    ensures { Puts text.old text.new (found row) }
{
    if let Some(row) = row {
        text.put(b" row");
        numbers::put_fractions(text, &<[f64; 6]>::from(row));
    } else {
        text.put(b" none");
    }
}
