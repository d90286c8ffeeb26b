// The page of a record, which the program `page` prints: a line for each column and a last one, of 18 characters each.
ghost use Rattle.std.specs.Prelude.{◌≡◌, ◌+◌, ◌*◌, ◌/◌, ◌≤◌, ◌<◌, length};
ghost use Rattle.points.specs.Inner.Columns.{Ys};
ghost use Rattle.field.specs.Outcomes.{number, second};
ghost use Rattle.lines.specs.Text.{joined, Written};
ghost use Rattle.lines.specs.Page.{character as page_character, point_text, column_line, several_text, result_text, last_line, page_of, pages_of};

use crate::text;
use field::{Outcome, Refusal};

// The character of a stored value.
fn character(value: u8) -> u8
    ensures { result ≡ page_character value }
{
    if value < 16 {
        return text::hex_digit(value);
    }
    if value == 255 { b'.' } else { b'?' }
}

// The four points of column x; ys has the y of all columns.
fn points(x: usize, ys: &[u8], block: &[u8], at: usize, out: &mut [u8]) -> usize
    requires { (x < 16) × Ys 4 ys.now × (length block.now ≡ 64) × (at + 16 ≤ length out.old) }
    ensures { Written out.old at (joined (point_text block.now x) 4) result out.new × (result ≡ at + 16) }
{
    let mut end = at;
    for s in 0..4 {
        let place = 4 * x + s;
        let y = text::hex_digit(ys[place]);
        let symbol = character(block[place]);
        end = text::bytes(&[b' ', y, b'=', symbol], end, out);
    }
    end
}

fn column_line(x: usize, ys: &[u8], block: &[u8], at: usize, out: &mut [u8]) -> usize
    requires { (x < 16) × Ys 4 ys.now × (length block.now ≡ 64) × (at + 19 ≤ length out.old) }
    ensures { Written out.old at (column_line block.now x) result out.new × (result ≡ at + 19) }
{
    let digit = text::hex_digit(x as u8);
    let a = text::bytes(&[digit, b':'], at, out);
    let b = points(x, ys, block, a, out);
    text::bytes(b"\n", b, out)
}

// The lines of all 16 columns.
fn column_lines(block: &[u8], at: usize, out: &mut [u8]) -> usize
    requires { (length block.now ≡ 64) × (at + 304 ≤ length out.old) }
    ensures { Written out.old at (joined (column_line block.now) 16) result out.new × (result ≡ at + 304) }
{
    let ys = points::ys(4);
    let mut end = at;
    for x in 0..16 {
        end = column_line(x, &ys, block, end, out);
    }
    end
}

fn several(r: u16, at: usize, out: &mut [u8]) -> usize
    requires { at + 13 ≤ length out.old }
    ensures { Written out.old at (several_text r) result out.new × (result ≤ at + 13) }
{
    let end = text::bytes(b"several ", at, out);
    text::decimal(usize::from(r), end, out)
}

// What the last line says of an outcome: 13 characters at the most.
fn result_text(outcome: Outcome, at: usize, out: &mut [u8]) -> usize
    requires { at + 13 ≤ length out.old }
    ensures { Written out.old at (result_text (number outcome) (second outcome)) result out.new × (result ≤ at + 13) }
{
    let Err(refusal) = outcome else {
        return text::bytes(b"ok", at, out);
    };
    match refusal {
        Refusal::NoMessage => text::bytes(b"none", at, out),
        Refusal::Several(r) => several(r, at, out),
        _ => text::bytes(b"bad", at, out),
    }
}

fn last_line(outcome: Outcome, at: usize, out: &mut [u8]) -> usize
    requires { at + 19 ≤ length out.old }
    ensures { Written out.old at (last_line (number outcome) (second outcome)) result out.new × (result ≡ at + 19) }
{
    let a = result_text(outcome, at, out);
    let rest = at + 18 - a;
    let spaces = [b' '; 18];
    let b = text::bytes(&spaces[..rest], a, out);
    text::bytes(b"\n", b, out)
}

// The page of a record, written from `at` on; answers the place after it.
pub fn page(block: &[u8], at: usize, out: &mut [u8]) -> usize
    requires { (length block.now ≡ 64) × (at + 323 ≤ length out.old) }
    ensures { Written out.old at (page_of block.now) result out.new × (result ≡ at + 323) }
{
    let last = column_lines(block, at, out);
    let mut message = [0u8; 32];
    let outcome = recovery::recover(4, 1, 37, block, &mut message);
    last_line(outcome, last, out)
}

// The pages of the whole records in blocks, at the start of out; answers their length.
pub fn pages(blocks: &[u8], out: &mut [u8]) -> usize
    requires { 323 * (length blocks.now / 64) ≤ length out.old }
    ensures { Written out.old 0 (pages_of blocks.now) result out.new
        × (result ≡ 323 * (length blocks.now / 64)) }
{
    let mut used = 0;
    for block in blocks.chunks_exact(64) {
        used = page(block, used, out);
    }
    used
}
