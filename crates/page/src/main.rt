// Reads records of 64 bytes from standard input and prints a page of 17 lines for each.
#![tactic(auto)]

use reading::read_full;
use std::io;
use std::io::Read;

// A number of turns that no input reaches: a proved loop has to end.
const MOST: usize = 1 << 60;

// Reads up to 128 records and prints their pages. Answers whether more may follow.
fn print_pages(rt: &impl Print, from: &mut impl Read) -> io::Result<bool> {
    let mut blocks = [0u8; 8192];
    let n = read_full(from, &mut blocks)?;
    let mut out = [0u8; 41344];
    let used = lines::page::pages(&blocks[..n], &mut out);
    rt.write_all(&out[..used])?;
    Ok(n == 8192)
}

fn main(rt: HostRuntime) -> io::Result<()> {
    let mut from = rt.stdin();
    for _ in 0..MOST {
        if !print_pages(&rt, &mut from)? {
            break;
        }
    }
    Ok(())
}
