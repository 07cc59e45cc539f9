// The count sheet: a sheet of open orders from standard input; its rows, or the one line that
// refuses it, to standard output. Thin: `sheet::count_sheet` makes the answer, and is proved.
#![tactic(auto)]

use std::io;

fn answer(rt: &impl Print, s: &[u8]) -> io::Result<()> {
    let mut out = [0u8; 131072]; // for 1,024 rows of 128 bytes; a Vec may run out of memory
    let n = sheet::count_sheet(s, &mut out);
    rt.write_all(&out[..n])
}

// One byte more than a sheet may have is kept, so that a longer one is seen to be longer.
fn main(rt: HostRuntime) -> io::Result<()> {
    let mut s = [0u8; 65537];
    let n = input::read_full(&mut rt.stdin(), &mut s)?;
    answer(&rt, &s[..n])
}
