// The text that the programs `blocks` (here) and `page` (module `page`) print.
#![tactic(auto)]

pub mod page;
pub mod text;

ghost use Rattle.std.specs.Prelude.{◌≡◌, ◌+◌, ◌-◌, ◌^◌, ◌≤◌, ◌<◌, length, take, drop};
ghost use Rattle.field.specs.Outcomes.{refusal_number, refusal_second};
ghost use Rattle.lines.specs.Text.{Written};
ghost use Rattle.lines.specs.Line.{ok_line, no_line, short_line, line_of, lines_of};

use field::Refusal;

fn ok_line(number: usize, message: &[u8], at: usize, out: &mut [u8]) -> usize
    requires { (length message.now ≡ 32) × (at + 66 ≤ length out.old) }
    ensures { Written out.old at (ok_line number message.now) result out.new × (result ≤ at + 66) }
{
    let a = text::decimal_then(number, b" ok ", at, out);
    let b = text::digits(message, a, out);
    text::bytes(b"\n", b, out)
}

fn no_line(number: usize, refusal: Refusal, at: usize, out: &mut [u8]) -> usize
    requires { at + 66 ≤ length out.old }
    ensures { Written out.old at (no_line number (refusal_number refusal) (refusal_second refusal)) result out.new
        × (result ≤ at + 66) }
{
    let a = text::decimal_then(number, b" no ", at, out);
    let b = text::decimal_then(usize::from(refusal.number()), b" ", a, out);
    text::decimal_then(usize::from(refusal.second()), b"\n", b, out)
}

fn short_line(number: usize, size: usize, at: usize, out: &mut [u8]) -> usize
    requires { at + 66 ≤ length out.old }
    ensures { Written out.old at (short_line number size) result out.new × (result ≤ at + 66) }
{
    let a = text::decimal_then(number, b" short ", at, out);
    text::decimal_then(size, b"\n", a, out)
}

// The line of a record, written from `at` on; answers the place after it. 66 bytes hold any line.
pub fn line(number: usize, block: &[u8], at: usize, out: &mut [u8]) -> usize
    requires { at + 66 ≤ length out.old }
    ensures { Written out.old at (line_of number block.now) result out.new × (result ≤ at + 66) }
{
    let size = block.len();
    if size < 64 {
        return short_line(number, size, at, out);
    }
    let mut message = [0u8; 32];
    match recovery::recover(4, 1, 37, block, &mut message) {
        Ok(()) => ok_line(number, &message, at, out),
        Err(refusal) => no_line(number, refusal, at, out),
    }
}

// The lines of up to 1,024 records, the first with the number `first`, at the start of out; answers their length.
pub fn block_lines(first: usize, blocks: &[u8], out: &mut [u8]) -> usize
    requires { (length blocks.now ≤ 65536) × (67584 ≤ length out.old) × (first + 1024 < 2 ^ 64) }
    ensures { Written out.old 0 (lines_of first blocks.now) result out.new × (result ≤ 67584) }
{
    let mut used = 0;
    for (k, block) in blocks.chunks(64).enumerate() {
        used = line(first + k, block, used, out);
    }
    used
}
