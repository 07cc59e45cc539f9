// A sheet as a whole, bytes in to bytes out.
ghost use Rattle.std.specs.Prelude.{◌≤◌, ◌+◌, length};
ghost use Rattle.text.specs.Print.{Placed};
ghost use Rattle.text_write.specs.Appending.{Appended};
ghost use Rattle.sheet.specs.CountSheet.{count_sheet, reason, refusal};
ghost use Rattle.sheet.specs.Meaning.{Blank, Written};

use crate::rows;
use refusal::Refusal;
use sheet_read::SheetError;
use text_write::Text;

// Puts document 01's number, and the line that is no span form.
fn put_reason(text: &mut Text, error: SheetError)
    requires { text.old.end + 41 ≤ length text.old.out.now }
    ensures { Appended text.old text.new (reason error) }
{
    match error {
        SheetError::Refused(refusal) => text.put_decimal(u64::from(refusal)),
        SheetError::NotASpan { line } => {
            text.put_decimal(u64::from(Refusal::NotASpan));
            text.put(b" ");
            text.put_decimal(line as u64);
        }
    }
}

fn put_refusal(text: &mut Text, error: SheetError)
    requires { Blank text.old }
    ensures { Written text.new (refusal error) }
{
    text.put(b"(refused ");
    put_reason(text, error);
    text.put(b")\n");
}

fn put_answer(text: &mut Text, s: &[u8])
    requires { Blank text.old }
    ensures { Written text.new (count_sheet s.now) }
{
    // arrays for the most lines that a sheet may have: a Vec may run out of memory
    let mut starts = [0i64; 1024];
    let mut ends = [0i64; 1024];
    let mut sides = [0.0f64; 1024];
    match sheet_read::read_sheet(s, &mut starts, &mut ends, &mut sides) {
        Ok(n) => rows::put(text, &starts[..n], &ends[..n], &sides[..n]),
        Err(error) => put_refusal(text, error),
    }
}

// Puts the answer to the sheet s at the front of out and tells its length: the rows, or the one
// line that refuses it. Where out has too little room it stays as it is, and the answer is 0.
#[tactic(auto, using(text::proofs::Placing::placed_within))]
pub fn count_sheet(s: &[u8], out: &mut [u8]) -> usize
    ensures placed { Placed out.old out.new 0 result (count_sheet s.now) }
    ensures within { result ≤ length out.new }
{
    let mut room = [0u8; 131072]; // for 1,024 rows of 128 bytes; a Vec may run out of memory
    let mut answer = Text::new(&mut room);
    put_answer(&mut answer, s);
    let mut text = Text::new(out);
    text.put(answer.as_bytes());
    text.end()
}
