// The spans of a sheet, read into lists that the caller lends. It is gone through twice, to be
// checked and then to be taken, so that a sheet that is turned away leaves the lists as they are.
#![tactic(auto)]

ghost use Rattle.std.specs.Prelude.{◌≡◌};
ghost use Rattle.sheet_read.specs.Meaning.{Fillable, HeldBy, SheetRead, answer_of};
ghost use Rattle.sheet_read.specs.Sheet.{sheet};
ghost use Rattle.sheet_read.specs.Spelling.{OneSpelling};
ghost use Rattle.sheet_read.specs.declared.SheetError.TheVariants.{Refused};

use refusal::Refusal;

// Why a sheet is turned away: as other calls are, or by a line that is no span form. For that there is a
// case of its own, so that `Refused` never holds `NotASpan`.
#[derive(Clone, Copy, Debug, PartialEq, Eq)]
pub enum SheetError {
    Refused(Refusal),
    NotASpan { line: usize },
}

impl From<Refusal> for SheetError {
    ghost from_gives = { λ refusal error. error ≡ Refused refusal };

    fn from(refusal: Refusal) -> SheetError
        ensures { result ≡ Refused refusal }
    {
        SheetError::Refused(refusal)
    }
}

// How many spans a sheet has. Its lines are counted after they are read, as document 01 has it.
#[tactic(auto, using(crate::proofs::Going::sheet_long, crate::proofs::Going::start))]
fn check(s: &[u8]) -> Result<usize, SheetError>
    ensures { result ≡ answer_of (sheet s.now) }
{
    if 65536 < s.len() {
        return Err(Refusal::TooLarge.into());
    }
    let mut rest = s;
    let mut n = 0;
    // no `for`: where a line ends is known when it is read
    while !rest.is_empty() {
        let Some((_, after)) = sheet_forms::read_line(rest) else {
            return Err(SheetError::NotASpan { line: n + 1 });
        };
        rest = after;
        n += 1;
    }
    if 1024 < n {
        return Err(Refusal::TooLarge.into());
    }
    Ok(n)
}

// Takes the spans of a sheet that was accepted into lists that have a place for each: three lists, since
// the counts take three, as the Rust's do. NaNs are one class: each pattern of one is read as NaN.
fn take_spans(s: &[u8], starts: &mut [i64], ends: &mut [i64], sides: &mut [f64])
    requires { Fillable s.now starts.old ends.old sides.old }
    ensures { HeldBy (sheet s.now) starts.new ends.new sides.new }
{
    let mut rest = s;
    // by index, since after a zip of iter_mut a proof knows nothing of the elements
    for i in 0..starts.len() {
        let Some((span, after)) = sheet_forms::read_line(rest) else {
            return;
        };
        starts[i] = span.from;
        ends[i] = span.to;
        sides[i] = std::num::f64_from_bits_with_nan(span.side);
        rest = after;
    }
}

// Reads the spans of a sheet into three lists, and tells how many there are.
#[tactic(auto, using(crate::proofs::Spelling::one_spelling))]
pub fn read_sheet(
    s: &[u8],
    starts: &mut [i64],
    ends: &mut [i64],
    sides: &mut [f64],
) -> Result<usize, SheetError>
    ensures sheet_read { SheetRead s.now starts.old starts.new ends.old ends.new sides.old sides.new result }
    ensures one_spelling { OneSpelling s.now }
{
    let room = starts.len().min(ends.len()).min(sides.len());
    let n = check(s)?;
    if room < n {
        return Err(Refusal::TooLittleRoom.into());
    }
    take_spans(s, &mut starts[..n], &mut ends[..n], &mut sides[..n]);
    Ok(n)
}
