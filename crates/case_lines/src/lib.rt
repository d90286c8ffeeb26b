// The parts of the lines that the programs of cases print, and of the records that they read.
#![tactic(auto)]

pub mod long_record;
pub mod record;

use field::{Outcome, Refusal};
use std::io;

// The op and the two numbers of the answer, each with a space after it.
pub fn print_answer(rt: &impl Print, op: u8, outcome: Outcome) -> io::Result<()> {
    rt.write_all(&[op])?;
    let number = field::outcome::number(outcome);
    let second = field::outcome::second(outcome);
    print!(rt; " {number} {second} ")
}

// Two hexadecimal digits for each of the first 560 values, and the byte after them.
// kept: the digits go to a fixed array, so that a line of values is one write.
pub fn print_values(rt: &impl Print, values: &[u8], after: u8) -> io::Result<()> {
    let shown = &values[..values.len().min(560)];
    let mut text = [after; 1121];
    for (j, value) in shown.iter().enumerate() {
        text[2 * j] = lines::text::hex_digit(value / 16);
        text[2 * j + 1] = lines::text::hex_digit(*value);
    }
    rt.write_all(&text[..2 * shown.len() + 1])
}

// The line of a checked word.
pub fn print_check(rt: &impl Print, answer: Result<bool, Refusal>) -> io::Result<()> {
    print_answer(rt, b'v', answer.map(|_| ()))?;
    if answer.unwrap_or(false) {
        rt.write_all(b"yes\n")
    } else {
        rt.write_all(b"no\n")
    }
}
