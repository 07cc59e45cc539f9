// Answers requests, one a line, from standard input to standard output, so that every function of
// the libraries can be reached from a shell. Thin: the libraries do the work, and are proved; of
// this program it is proved that it is safe and ends on any input.
#![tactic(auto)]

mod lines; // lines.rt: lines out of a stream of bytes

use lines::Lines;
use std::io;
use std::io::Read;

// Reads once and takes in what came, and answers how many bytes did: 0 at the end of the input.
fn serve(rt: &HostRuntime, lines: &mut Lines) -> io::Result<usize> {
    let mut chunk = [0; 65536]; // read at once; a Vec may run out of memory
    let n = rt.stdin().read(&mut chunk)?;
    lines.take_in(rt, &chunk[..n])?;
    Ok(n)
}

// A proved loop has to end, and nothing says that the input does. So it goes round a number of
// times that no run uses up.
fn main(rt: HostRuntime) -> io::Result<()> {
    let mut lines = Lines::new();
    for _ in 0..u64::MAX {
        if serve(&rt, &mut lines)? == 0 {
            break;
        }
    }
    lines.end(&rt)
}
