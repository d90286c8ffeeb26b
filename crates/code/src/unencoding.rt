// Unencoding: a word to the message whose word it is.
ghost use Rattle.std.specs.Prelude.{◌≡◌, ℕ, ◌*◌, ◌≤◌, ◌<◌, length, get_or};
ghost use Rattle.field.specs.Curve.{IsCurve, IsShort};
ghost use Rattle.field.proofs.Fields.{field_of};
ghost use Rattle.poly.specs.Inner.Interpolation.{VanishingTree};
ghost use Rattle.points.specs.Series.{columns_of};
ghost use Rattle.points.specs.Inner.Columns.{PaddedYs};
ghost use Rattle.code.specs.Terms.{size};
ghost use Rattle.code.specs.Answers.{answered};
ghost use Rattle.code.specs.Inner.Readable.{WordOver, InterpolatedInY, GridInFront, Readable, read_over, grid_answer};
ghost use Rattle.code.specs.Unencoded.{unencoded};

use crate::{check, grid, long_block};
use field::{Outcome, Refusal};
use poly::{interpolation, lanes, root_interpolation, rows};

// The first stage: each column's polynomial in y, from that column's part of the word. Column t's sixteen numbers of work stand from 16·t on.
fn interpolate_columns(q: u8, all: &[u8], columns: &[u8], word: &[u8], work: &mut [u8])
    requires word_over { WordOver q columns.now word.now × (16 * length columns.now ≤ length work.old) × ((i : ℕ) → get_or work.old i 0 ≡ 0) }
    requires padded_ys { PaddedYs q all.now }
    ensures { InterpolatedInY q columns.now word.now work.new }
{
    let width = q as usize;
    let mut at = 0;
    let mut row = 0;
    for t in 0..columns.len() {
        let ys = lanes::take(all, width * (columns[t] as usize));
        let end = at + width;
        let to = row + 16;
        root_interpolation::interpolate(q, &ys, &word[at..end], &mut work[row..to]);
        at = end;
        row = to;
    }
}

// The first stage, with the curve's table of y. With two callers the compiler keeps it a call, and the table out of their frames.
fn interpolate_in_y(q: u8, columns: &[u8], word: &[u8], work: &mut [u8])
    requires { WordOver q columns.now word.now × (16 * length columns.now ≤ length work.old) × ((i : ℕ) → get_or work.old i 0 ≡ 0) }
    ensures { InterpolatedInY q columns.now word.now work.new }
{
    if q == 8 {
        let all = points::padded_long_ys();
        interpolate_columns(q, &all, columns, word, work);
    } else {
        let all = points::padded_ys(q);
        interpolate_columns(q, &all, columns, word, work);
    }
}

// The grid of a short block's word over a list of columns, whose tree of vanishing polynomials is given, in the front of zeros.
pub fn interpolate_over(q: u8, columns: &[u8], tree: &[u8], word: &[u8]) -> [u8; 64]
    requires word_over { WordOver q columns.now word.now × IsShort q × (1 ≤ length columns.now) }
    requires vanishing_tree { VanishingTree (field_of q) columns.now tree.now }
    ensures { GridInFront q columns.now word.now result × (length result ≡ 64) }
{
    let end = 16 * columns.len();
    let mut work = [0u8; 256];
    interpolate_in_y(q, columns, word, &mut work[..end]);
    interpolation::interpolate(q, q as usize, columns, tree, &mut work[..end]);
    let mut r = [0u8; 64];
    rows::copy(word.len(), &work, &mut r);
    r
}

// The same over all columns.
pub fn interpolate_short(q: u8, series: u8, word: &[u8]) -> [u8; 64]
    requires { WordOver q (columns_of q series) word.now × IsShort q }
    ensures { GridInFront q (columns_of q series) word.now result × (length result ≡ 64) }
{
    let tree = points::tree(q, series);
    let columns = points::columns(q, series);
    let width = q as usize;
    let c = width * width;
    interpolate_over(q, &columns[..c], &tree, word)
}

// The grid of a long block's word.
// kept: a function of its own, as all of long blocks: see `known_long_grid` in `recovery`.
pub fn interpolate_long(series: u8, word: &[u8]) -> [u8; 512]
    requires { WordOver 8 (columns_of 8 series) word.now }
    ensures { GridInFront 8 (columns_of 8 series) word.now result × (length result ≡ 512) }
{
    let columns = points::long_columns(series);
    let tree = points::long_tree(series);
    let mut work = [0u8; 1024];
    interpolate_in_y(8, &columns, word, &mut work);
    interpolation::interpolate(8, 8, &columns, &tree, &mut work);
    let mut r = [0u8; 512];
    rows::copy(word.len(), &work, &mut r);
    r
}

// The message of a grid, if it has no coefficient of a weight above m.
pub fn read_grid(q: u8, m: usize, grid: &[u8], message: &mut [u8]) -> Outcome
    requires { IsCurve q × (m < length grid.now) × (length grid.now ≤ 512) × (length message.old ≡ size q m) }
    ensures { grid_answer q m grid.now message.old ≡ answered result message.new }
{
    if grid::order_at_most(q, m, grid) {
        grid::gather(q, m, grid, message);
        return Ok(());
    }
    Err(Refusal::NoMessage)
}

// The message of a short block's word.
pub fn read_word(q: u8, series: u8, m: usize, word: &[u8], message: &mut [u8]) -> Outcome
    requires { Readable q (columns_of q series) m word.now message.old × IsShort q }
    ensures { read_over q (columns_of q series) m word.now message.old ≡ answered result message.new }
{
    let n = word.len();
    let grid = interpolate_short(q, series, word);
    read_grid(q, m, &grid[..n], message)
}

// The message of a long block's word.
pub fn read_long_word(series: u8, m: usize, word: &[u8], message: &mut [u8]) -> Outcome
    requires { Readable 8 (columns_of 8 series) m word.now message.old }
    ensures { read_over 8 (columns_of 8 series) m word.now message.old ≡ answered result message.new }
{
    let grid = interpolate_long(series, word);
    read_grid(8, m, &grid, message)
}

// The message whose word, in the order of the series' points, is the word.
pub fn unencode(q: u8, series: u8, m: u16, word: &[u8], message: &mut [u8]) -> Outcome
    ensures { unencoded q series m word.now message.old ≡ answered result message.new }
{
    let order = m as usize;
    let taken = field::curve::is_curve(q);
    check::call(taken, false, true, q, series, order, word, message.len())?;
    if q == 8 {
        return long_block::run(true, series, order, word, message);
    }
    read_word(q, series, order, word, message)
}
