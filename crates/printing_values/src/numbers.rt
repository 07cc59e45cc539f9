// Numbers, each after a blank.
ghost use Rattle.text_write.specs.Appending.{Puts};
ghost use Rattle.printing_values.specs.Texts.{fractions, instant, natural};

use text_write::Text;

// put_natural and put_instant stay two: a trait of what is printed, with its law, is longer than
// both, and so are their callers where each puts the blank by itself.
pub(crate) fn put_natural(text: &mut Text, n: u64)
    ensures { Puts text.old text.new (natural n) }
{
    text.put(b" ");
    text.put_decimal(n);
}

pub(crate) fn put_instant(text: &mut Text, i: i64)
    ensures { Puts text.old text.new (instant i) }
{
    text.put(b" ");
    text.put_instant(i);
}

// NaNs are one class: one pattern is written for all of them.
pub(crate) fn put_fractions(text: &mut Text, xs: &[f64])
    ensures { Puts text.old text.new (fractions xs.now) }
{
    for x in xs {
        text.put(b" ");
        text.put_hex(std::num::f64_to_bits_with_nan(*x));
    }
}
