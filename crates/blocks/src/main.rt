// Reads records of 64 bytes from standard input and prints a line for each.
#![tactic(auto)]

ghost use Rattle.std.specs.Prelude.{◌+◌, ◌<◌, ◌^◌};

use reading::read_full;
use std::io;
use std::io::Read;

// A number of turns that no input reaches: a proved loop has to end.
const MOST: usize = 1 << 50;

// Reads up to 1,024 records and prints their lines, the first with the number `first`. Answers whether more may follow.
fn print_lines(rt: &impl Print, from: &mut impl Read, first: usize) -> io::Result<bool>
    requires { first + 1024 < 2 ^ 64 }
{
    let mut blocks = [0u8; 65536];
    let n = read_full(from, &mut blocks)?;
    let mut out = [0u8; 67584];
    let used = lines::block_lines(first, &blocks[..n], &mut out);
    rt.write_all(&out[..used])?;
    Ok(n == 65536)
}

fn main(rt: HostRuntime) -> io::Result<()> {
    let mut from = rt.stdin();
    for turn in 0..MOST {
        if !print_lines(&rt, &mut from, 1024 * turn)? {
            break;
        }
    }
    Ok(())
}
