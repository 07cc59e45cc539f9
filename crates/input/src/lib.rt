// Input, read into a lent buffer.
#![tactic(auto)]

ghost use Rattle.std.specs.Prelude.{IfOk, length, take, ◌≤◌, ◌<◌};
ghost use Rattle.std.specs.Io.KnownBytes.{Consumes, IsAtEnd};

use std::io;
use std::io::Read;

// Reads until buf is full or the input ends, and tells how much came. Where a read fails, what came
// before it is lost.
pub fn read_full<R: Read>(from: &mut R, buf: &mut [u8]) -> io::Result<usize>
    ensures within { IfOk result (λ n. n ≤ length buf.new) }
    ensures bytes { IfOk result (λ n. Consumes (R.remaining from.old) (R.remaining from.new) (take n buf.new)) }
    ensures ended { IfOk result (λ n. n < length buf.new → IsAtEnd (R.remaining from.new)) }
{
    let mut at = 0;
    // no `for`: how much each read brings is not known before
    while at < buf.len() {
        let n = from.read(&mut buf[at..])?;
        if n == 0 {
            break;
        }
        at += n;
    }
    Ok(at)
}
