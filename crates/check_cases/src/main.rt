// Checks the words of standard input, records of 160 bytes, and prints a line for each.
// The module `case_record` of host/reference has the layout of a record and of its line.
#![tactic(auto)]

use case_lines::print_check;
use case_lines::record::{input, order, series};
use reading::read_record;
use std::io;

fn check_case(rt: &impl Print, record: [u8; 160]) -> io::Result<()> {
    let answer = dual::check(record[1], series(&record), order(&record), input(&record));
    print_check(rt, answer)
}

// The loop has a number of turns that no input reaches, since a proved loop has to end.
fn main(rt: HostRuntime) -> io::Result<()> {
    let mut from = rt.stdin();
    for _ in 0..u64::MAX {
        let Some(record) = read_record(&mut from)? else {
            break;
        };
        check_case(&rt, record)?;
    }
    Ok(())
}
