// The line protocol: the words of a request. Lists of them are the crate `protocol_lists`, the replies the
// crate `replies`; each crate of kinds of requests stands on these.
#![tactic(auto)]

ghost use Rattle.std.specs.Prelude.{◌≡◌, ◌-◌, ◌^◌, ℕ, List};
ghost use Rattle.text.specs.Decode.{Got, instant};
ghost use Rattle.text.specs.Meaning.{got_of, left_of};
ghost use Rattle.protocol.specs.Words.{a_fraction, a_natural, next, next_natural, only, words_after};

// The words of a request that begins with a name: what follows the name, from the blank on.
pub fn words_after<'a>(s: &'a [u8], name: &[u8]) -> Option<&'a [u8]>
    ensures { words_after name.now s.now ≡ left_of result }
{
    let words = text_read::read_word(s, name)?;
    text_read::read_word(words, b" ")?;
    Some(words)
}

// What was read, where nothing follows it.
pub fn only<T: Copy>(read: Option<(T, &[u8])>) -> Option<T>
    ensures { result ≡ only (got_of read.entry) }
{
    let (value, rest) = read?;
    rest.is_empty().then_some(value)
}

// What is read from a word of a request, or from an entry of a list.
pub trait Entry: Copy {
    ghost form: { List ℕ → Got Self };

    fn read(s: &[u8]) -> Option<(Self, &[u8])>
        ensures { form s.now ≡ got_of result };
}

// A fraction. NaNs are one class: each pattern of one reads as NaN, and one is written.
impl Entry for f64 {
    ghost form = { a_fraction };

    fn read(s: &[u8]) -> Option<(f64, &[u8])> {
        let (bits, rest) = text_read::read_hex(s)?;
        Some((std::num::f64_from_bits_with_nan(bits), rest))
    }
}

impl Entry for i64 {
    ghost form = { instant };

    fn read(s: &[u8]) -> Option<(i64, &[u8])> {
        text_read::read_instant(s)
    }
}

impl Entry for usize {
    ghost form = { a_natural (2 ^ 64 - 1) };

    fn read(s: &[u8]) -> Option<(usize, &[u8])> {
        let (n, rest) = text_read::read_natural(s, u64::MAX)?;
        Some((n as usize, rest))
    }
}

// The entry after a blank.
pub fn read_next<T: Entry>(s: &[u8]) -> Option<(T, &[u8])>
    ensures { next T.form s.now ≡ got_of result }
{
    T::read(text_read::read_word(s, b" ")?)
}

// The whole number up to `limit` after a blank.
pub fn read_next_natural(s: &[u8], limit: u64) -> Option<(u64, &[u8])>
    ensures { next_natural limit s.now ≡ got_of result }
{
    text_read::read_natural(text_read::read_word(s, b" ")?, limit)
}
