// A list of fractions.
ghost use Rattle.std.specs.Prelude.{◌++◌, take};
ghost use Rattle.text_write.specs.Appending.{Puts};
ghost use Rattle.printing_values.specs.Texts.{fractions, natural};

use crate::numbers;
use text_write::Text;

// How many entries, then the len fractions that they are made of.
pub(crate) fn put(text: &mut Text, count: usize, len: usize, xs: &[f64])
    ensures { Puts text.old text.new (natural count ++ fractions (take len xs.now)) }
{
    numbers::put_natural(text, count as u64);
    numbers::put_fractions(text, &xs[..len.min(xs.len())]);
}
