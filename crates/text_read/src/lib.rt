// Words and numbers, read from the front of a slice. Each reader answers what it read and the bytes
// after it, or None.
#![tactic(auto)]

ghost use Rattle.std.specs.Prelude.{◌≡◌, ◌-◌, ◌≤◌, ◌<◌, ◌^◌, MatchOption, negsuc};
ghost use Rattle.text.specs.Decode.{hexes, instant, natural, nibble, numeral, up_to, word};
ghost use Rattle.text.specs.Meaning.{got_of, left_of};

// The bytes of w.
#[tactic(auto, using(text::proofs::Steps::word_strip))]
pub fn read_word<'a>(s: &'a [u8], w: &[u8]) -> Option<&'a [u8]>
    ensures { word w.now s.now ≡ left_of result }
{
    s.strip_prefix(w)
}

// What a digit stands for in a base up to 16; the letters are lower case.
#[tactic(auto, using(text::proofs::Digits::nibble_low, text::proofs::Digits::nibble_digit, text::proofs::Digits::nibble_middle, text::proofs::Digits::nibble_letter, text::proofs::Digits::nibble_high))]
fn digit_of(b: u8, base: u64) -> Option<u64>
    requires { base ≤ 16 }
    ensures { MatchOption result (base ≤ nibble b) (λ d. (d ≡ nibble b) × (d < base)) }
{
    let digit = match b {
        b'0'..=b'9' => b - b'0',
        b'a'..=b'f' => b - b'a' + 10,
        _ => return None,
    };
    let digit = digit as u64;
    (digit < base).then_some(digit)
}

// A decimal number with no leading zeros, of at most limit.
pub fn read_natural(s: &[u8], limit: u64) -> Option<(u64, &[u8])>
    ensures { up_to limit (natural s.now) ≡ got_of result }
{
    let (b, rest) = s.split_first()?;
    let first = digit_of(*b, 10)?;
    if first == 0 {
        return Some((0, rest));
    }
    read_digits(rest, first, limit)
}

// More decimal digits, after one that is first. A number of more than 64 bits is above any limit.
fn read_digits(s: &[u8], first: u64, limit: u64) -> Option<(u64, &[u8])>
    ensures { up_to limit (numeral first s.now) ≡ got_of result }
{
    let mut value = first;
    let mut rest = s;
    // no `for`: the bytes left after the last digit are answered
    while let Some((b, after)) = rest.split_first() {
        let Some(digit) = digit_of(*b, 10) else {
            break;
        };
        value = value.checked_mul(10)?.checked_add(digit)?;
        rest = after;
    }
    (value <= limit).then_some((value, rest))
}

// An instant: a decimal number after at most a minus, and not -0.
pub fn read_instant(s: &[u8]) -> Option<(i64, &[u8])>
    ensures { instant s.now ≡ got_of result }
{
    if let Some(digits) = read_word(s, b"-") {
        let (n, rest) = read_natural(digits, 1 << 63)?;
        if n == 0 {
            return None;
        }
        return Some((negative(n), rest));
    }
    let (n, rest) = read_natural(s, i64::MAX as u64)?;
    Some((n as i64, rest))
}

// -n, where n may be 2^63.
fn negative(n: u64) -> i64
    requires { (0 < n) × (n ≤ 2 ^ 63) }
    ensures { result ≡ negsuc (n - 1) }
{
    -1 - ((n - 1) as i64)
}

// Sixteen hexadecimal digits, in lower case.
pub fn read_hex(s: &[u8]) -> Option<(u64, &[u8])>
    ensures { hexes 16 0 s.now ≡ got_of result }
{
    let (digits, rest) = s.split_at_checked(16)?;
    let mut value = 0;
    for &b in digits {
        value = value * 16 + digit_of(b, 16)?;
    }
    Some((value, rest))
}
