// Reading in parts of a fixed length.
#![tactic(auto)]

ghost use Rattle.std.specs.Prelude.{◌≤◌, length, IfOk};

use std::io;
use std::io::Read;

// Reads until buf is full or the input ends, and answers how many bytes it put at the start of buf.
pub fn read_full<R: Read>(from: &mut R, buf: &mut [u8]) -> io::Result<usize>
    ensures { IfOk result (λ n. n ≤ length buf.new) }
{
    let mut done = 0;
    for _ in 0..buf.len() {
        if done == buf.len() {
            break;
        }
        let n = from.read(&mut buf[done..])?;
        if n == 0 {
            break;
        }
        done += n;
    }
    Ok(done)
}

// Reads a record, if the input has as many bytes left.
pub fn read_record<const LENGTH: usize, R: Read>(from: &mut R) -> io::Result<Option<[u8; LENGTH]>> {
    let mut record = [0u8; LENGTH];
    let n = read_full(from, &mut record)?;
    Ok((n == LENGTH).then_some(record))
}
