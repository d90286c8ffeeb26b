// An example of recovery in slices: what a display draws while jobs are carried on. Standard input is read as by `blocks`, in
// records of 64 bytes at q = 4 and m = 37. A job is opened for each and called until it is finished, and each call gives a line.
#![tactic(auto)]

ghost use Rattle.std.specs.Prelude.{◌+◌, ◌≤◌, length};

use field::{Outcome, Refusal};
use job::{Job, Reply};
use lines::text;
use reading::read_full;
use std::io;
use std::io::Read;

// The symbols that a call may bring in before the display draws again.
const BUDGET: u8 = 8;

// No job takes more calls: a proved loop has to end.
const MOST_TURNS: u8 = 64 / BUDGET + 1;

// A number of records that no input reaches, for the same reason.
const MOST: usize = 1 << 60;

fn left_text(r: u16, at: usize, out: &mut [u8]) -> usize
    requires { at + 45 ≤ length out.old }
    ensures { result ≤ at + 45 }
{
    let a = text::bytes(b"left ", at, out);
    text::decimal_then(usize::from(r), b"\n", a, out)
}

fn ok_text(message: [u8; 32], at: usize, out: &mut [u8]) -> usize
    requires { at + 45 ≤ length out.old }
    ensures { result ≤ at + 45 }
{
    let a = text::bytes(b"ok ", at, out);
    let b = text::digits(&message, a, out);
    text::bytes(b"\n", b, out)
}

fn no_text(refusal: Refusal, at: usize, out: &mut [u8]) -> usize
    requires { at + 45 ≤ length out.old }
    ensures { result ≤ at + 45 }
{
    let a = text::bytes(b"no ", at, out);
    let b = text::decimal_then(usize::from(refusal.number()), b" ", a, out);
    text::decimal_then(usize::from(refusal.second()), b"\n", b, out)
}

fn result_text(outcome: Outcome, message: [u8; 32], at: usize, out: &mut [u8]) -> usize
    requires { at + 45 ≤ length out.old }
    ensures { result ≤ at + 45 }
{
    match outcome {
        Ok(()) => ok_text(message, at, out),
        Err(refusal) => no_text(refusal, at, out),
    }
}

// The text of a turn, written from `at` on, with its line feed; answers the place after it. 45 bytes hold any.
fn turn_text(reply: Reply, message: [u8; 32], at: usize, out: &mut [u8]) -> usize
    requires { at + 45 ≤ length out.old }
    ensures { result ≤ at + 45 }
{
    match reply {
        Reply::NoneFits => text::bytes(b"none\n", at, out),
        Reply::Leaves(r) => left_text(r, at, out),
        Reply::Refused | Reply::Finished(_) => result_text(Outcome::from(reply), message, at, out),
    }
}

// Prints the first bytes of a line. 108 bytes hold any: three numbers of 20, a byte after each, and the text of a turn.
fn print_first(rt: &impl Print, end: usize, line: [u8; 108]) -> io::Result<()>
    requires { end ≤ 108 }
{
    rt.write_all(&line[..end])
}

// Prints the line of a turn: the record's number, the symbols in so far, the arrived ones and the text.
fn draw(
    rt: &impl Print,
    number: usize,
    symbols: usize,
    arrived: usize,
    reply: Reply,
    message: [u8; 32],
) -> io::Result<()> {
    let mut line = [0u8; 108];
    let a = text::decimal_then(number, b" ", 0, &mut line);
    let b = text::decimal_then(symbols, b"/", a, &mut line);
    let c = text::decimal_then(arrived, b" ", b, &mut line);
    let end = turn_text(reply, message, c, &mut line);
    print_first(rt, end, line)
}

fn is_working(reply: Reply) -> bool {
    matches!(reply, Reply::NoneFits | Reply::Leaves(_))
}

// The display's loop: carries a job on until it is finished, and draws after each call.
fn show(rt: &impl Print, number: usize, arrived: usize, opened: Job) -> io::Result<()> {
    let mut job = opened;
    let mut message = [0u8; 32];
    let mut symbols = 0;
    for _ in 0..MOST_TURNS {
        let turn = job.carry_on(BUDGET, &mut message);
        symbols += usize::from(turn.brought);
        draw(rt, number, symbols, arrived, turn.reply, message)?;
        if !is_working(turn.reply) {
            break;
        }
        job = turn.job;
    }
    Ok(())
}

// The number of symbols that a record has: 255 stands for a missing one.
fn arrived_count(record: [u8; 64]) -> usize {
    record.iter().filter(|symbol| **symbol != 255).count()
}

// Prints the line of a record that no job is opened for.
fn draw_refusal(rt: &impl Print, number: usize, refusal: Refusal) -> io::Result<()> {
    let mut line = [0u8; 108];
    let a = text::decimal_then(number, b" ", 0, &mut line);
    let end = no_text(refusal, a, &mut line);
    print_first(rt, end, line)
}

fn show_record(rt: &impl Print, number: usize, record: [u8; 64]) -> io::Result<()> {
    let opening = job::open(4, 1, 37, &record);
    match opening.outcome {
        Ok(()) => show(rt, number, arrived_count(record), opening.job),
        Err(refusal) => draw_refusal(rt, number, refusal),
    }
}

// Prints the line of a last part that is no whole record.
fn draw_short(rt: &impl Print, number: usize, size: usize) -> io::Result<()> {
    let mut line = [0u8; 108];
    let a = text::decimal_then(number, b" short ", 0, &mut line);
    let end = text::decimal_then(size, b"\n", a, &mut line);
    print_first(rt, end, line)
}

// Reads a record and prints its lines. Answers whether more may follow.
fn print_lines(rt: &impl Print, from: &mut impl Read, number: usize) -> io::Result<bool> {
    let mut record = [0u8; 64];
    let n = read_full(from, &mut record)?;
    if n == 64 {
        show_record(rt, number, record)?;
        return Ok(true);
    }
    if 0 < n {
        draw_short(rt, number, n)?;
    }
    Ok(false)
}

fn main(rt: HostRuntime) -> io::Result<()> {
    let mut from = rt.stdin();
    for number in 0..MOST {
        if !print_lines(&rt, &mut from, number)? {
            break;
        }
    }
    Ok(())
}
