// Runs the entries that take long blocks on the cases of standard input, records of 1136 bytes, and prints a line for each.
// The module `long_case_record` of host/reference has the layout of a record and of its line.
#![tactic(auto)]

ghost use Rattle.std.specs.Prelude.{◌≤◌};

use case_lines::long_record::{input, order, series, slice_length};
use case_lines::{print_answer, print_values};
use field::{Outcome, Refusal};
use reading::read_record;
use std::io;

fn run_on_slices(op: u8, q: u8, series: u8, m: u16, input: &[u8], output: &mut [u8]) -> Outcome {
    match op {
        b'e' => code::encoding::encode(q, series, m, input, output),
        b'u' => code::unencoding::unencode(q, series, m, input, output),
        b'C' => code::conversion::convert(q, series, input, output),
        _ => recovery::recover(q, series, m, input, output),
    }
}

fn slice_answer(
    rt: &impl Print,
    op: u8,
    q: u8,
    series: u8,
    m: u16,
    input: &[u8],
    output: &mut [u8],
) -> io::Result<()> {
    let outcome = run_on_slices(op, q, series, m, input, output);
    print_answer(rt, op, outcome)?;
    print_values(rt, output, b'\n')
}

// The length of the work slice that a record asks for.
fn work_length(kind: u8) -> usize
    ensures { result ≤ 262145 }
{
    match kind {
        0 => 262144,
        1 => 262143,
        2 => 262145,
        _ => 0,
    }
}

// Whether the content of the work slice is left open: after a success and after refusals 9 and 10.
fn leaves_work_open(outcome: Outcome) -> bool {
    matches!(
        outcome,
        Ok(()) | Err(Refusal::NoMessage | Refusal::Several(_))
    )
}

// What became of the work slice, and the end of the line.
fn print_work(rt: &impl Print, outcome: Outcome, work: &[u8], byte: u8) -> io::Result<()> {
    if leaves_work_open(outcome) {
        rt.write_all(b"open\n")
    } else if work.iter().all(|value| *value == byte) {
        rt.write_all(b"kept\n")
    } else {
        rt.write_all(b"changed\n")
    }
}

fn long_answer(
    rt: &impl Print,
    series: u8,
    m: u16,
    word: &[u8],
    message: &mut [u8],
    work: &mut [u8],
    byte: u8,
) -> io::Result<()> {
    let outcome = recovery::recover_long(series, m, word, message, work);
    print_answer(rt, b'l', outcome)?;
    print_values(rt, message, b' ')?;
    print_work(rt, outcome, work, byte)
}

fn slice_case(rt: &impl Print, record: [u8; 1136]) -> io::Result<()> {
    let mut lent = record;
    let message_end = 576 + slice_length(record[6], record[7]);
    slice_answer(
        rt,
        record[0],
        record[1],
        series(&record),
        order(&record),
        input(&record),
        &mut lent[576..message_end],
    )
}

fn long_case(rt: &impl Print, record: [u8; 1136]) -> io::Result<()> {
    let byte = record[9];
    let mut lent = record;
    let mut work = [byte; 262145];
    let message_end = 576 + slice_length(record[6], record[7]);
    let work_end = work_length(record[8]);
    long_answer(
        rt,
        series(&record),
        order(&record),
        input(&record),
        &mut lent[576..message_end],
        &mut work[..work_end],
        byte,
    )
}

fn run_case(rt: &impl Print, record: [u8; 1136]) -> io::Result<()> {
    match record[0] {
        b'l' => long_case(rt, record),
        _ => slice_case(rt, record),
    }
}

// The loop has a number of turns that no input reaches, since a proved loop has to end.
fn main(rt: HostRuntime) -> io::Result<()> {
    let mut from = rt.stdin();
    for _ in 0..u64::MAX {
        let Some(record) = read_record(&mut from)? else {
            break;
        };
        run_case(&rt, record)?;
    }
    Ok(())
}
