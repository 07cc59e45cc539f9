// Sheets from files, each beside the answer that it must have: a line for each says whether it has.
#![tactic(auto)]

ghost use Rattle.std.specs.Prelude.{IfOk, length, ◌≤◌};

use std::fs::File;
use std::io;
use std::rt::Files;

// Each sheet and its answer.
const CASES: [(&str, &str); 20] = [
    // counted
    ("orders.sheet", "orders.rows"),
    ("empty.sheet", "empty.rows"),
    ("sides.sheet", "sides.rows"),
    ("instants.sheet", "instants.rows"),
    ("lines_1024.sheet", "lines_1024.rows"),
    ("bytes_65536.sheet", "bytes_65536.rows"),
    // too many lines or bytes
    ("lines_1025.sheet", "refused_11"),
    ("lines_1025_and_a_fault.sheet", "refused_15_1026"),
    ("bytes_65537.sheet", "refused_11"),
    ("bytes_65537_and_a_fault.sheet", "refused_11"),
    // a line that is no form
    ("no_newline.sheet", "refused_15_2"),
    ("crlf.sheet", "refused_15_1"),
    ("blank_line.sheet", "refused_15_2"),
    ("leading_zero.sheet", "refused_15_2"),
    ("minus_zero.sheet", "refused_15_2"),
    ("instant_too_high.sheet", "refused_15_2"),
    ("instant_too_low.sheet", "refused_15_2"),
    ("upper_case.sheet", "refused_15_2"),
    ("two_blanks.sheet", "refused_15_2"),
    ("rule_line.sheet", "refused_15_1"),
];

// Reads a file into the front of buf, and answers how much of it there is: nothing of a file that
// cannot be opened.
fn read_file(rt: &(impl Files + Eprint), path: &str, buf: &mut [u8]) -> io::Result<usize>
    ensures { IfOk result (λ n. n ≤ length buf.new) }
{
    match File::open(rt, path) {
        Ok(mut file) => input::read_full(&mut file, buf),
        Err(e) => {
            eprintln!(rt; "{path}: {e}")?;
            Ok(0)
        }
    }
}

// Arrays here and in `case` for the longest file and the most rows: a Vec may run out of memory.
fn is_answered(s: &[u8], wanted: &[u8]) -> bool {
    let mut out = [0u8; 131072];
    let n = sheet::count_sheet(s, &mut out);
    &out[..n] == wanted
}

fn tell(rt: &impl Print, name: &str, is_right: bool) -> io::Result<()> {
    if is_right {
        println!(rt; "as it must be: {name}")
    } else {
        println!(rt; "DIFFERS: {name}")
    }
}

fn case(rt: &(impl Files + Print + Eprint), sheet: &str, answer: &str) -> io::Result<()> {
    let mut s = [0u8; 131072];
    let mut a = [0u8; 131072];
    let n = read_file(rt, sheet, &mut s)?;
    let k = read_file(rt, answer, &mut a)?;
    tell(rt, sheet, is_answered(&s[..n], &a[..k]))
}

fn main(rt: HostRuntime) -> io::Result<()> {
    for (sheet, answer) in CASES {
        case(&rt, sheet, answer)?;
    }
    Ok(())
}
