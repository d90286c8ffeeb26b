// Encoding: a message to the word of its values.
ghost use Rattle.std.specs.Prelude.{◌≡◌, ℕ, ◌+◌, ◌*◌, ◌/◌, ◌≤◌, ◌<◌, length};
ghost use Rattle.field.specs.Curve.{IsCurve, IsShort};
ghost use Rattle.field.proofs.Fields.{field_of};
ghost use Rattle.poly.specs.Inner.Linear.{entry};
ghost use Rattle.poly.specs.Inner.Ranges.{Below, Blocks};
ghost use Rattle.points.specs.Series.{columns_of};
ghost use Rattle.points.specs.Inner.Columns.{PaddedYs};
ghost use Rattle.code.specs.Word.{word_of};
ghost use Rattle.code.specs.Inner.Grid.{scatter};
ghost use Rattle.code.specs.Inner.Encodable.{Encodable, Staged, Rowed, in_y, column_value, grid_column};
ghost use Rattle.code.specs.Answers.{answered};
ghost use Rattle.code.specs.Encoded.{encoded};

use crate::{check, grid, long_block, term};
use field::Outcome;
use field::symbol::{LongBlocks, ShortBlocks};
use poly::{lanes, polynomial, rows};

// The first stage: each y^j's polynomial in x, with n coefficients, at every column; row j of rows, sixteen lanes, is for y^j.
fn evaluate_rows(q: u8, columns: &[u8], n: usize, grid: &[u8], rows: &mut [u8])
    requires staged { Staged q columns.now grid.now × Below (field_of q).size rows.old }
    requires le_n { (1 ≤ n) × (q * n ≤ length grid.now) × (16 * q ≤ length rows.old) }
    ensures { Rowed q columns.now n grid.now rows.new q }
{
    let width = q as usize;
    let mut places = [0u8; 16];
    rows::copy(columns.len(), columns, &mut places);
    let mut at = 0;
    for j in 0..width {
        let end = at + 16;
        let k = polynomial::terms(grid, j, width, n);
        let row = if q == 8 {
            polynomial::evaluate::<LongBlocks>(q, grid, j, width, k, &places)
        } else {
            polynomial::evaluate::<ShortBlocks>(q, grid, j, width, k, &places)
        };
        rows::copy(16, &row, &mut rows[at..end]);
        at = end;
    }
}

// The second stage at the column with number t: its polynomial in y at each of its y, in its part of the word.
fn evaluate_column(q: u8, ys: &[u8; 16], rows: &[u8], t: usize, part: &mut [u8])
    requires curve { IsCurve q × Below (field_of q).size ys.now × Below (field_of q).size rows.now }
    requires t_bound { (t < 16) × (16 * q ≤ length rows.now) × (length part.old ≡ q) }
    ensures { (s : ℕ) → s < q → entry part.new s ≡ in_y q rows.now t (entry ys.now s) }
{
    let width = q as usize;
    let values = if q == 8 {
        polynomial::evaluate::<LongBlocks>(q, rows, t, 16, width, ys)
    } else {
        polynomial::evaluate::<ShortBlocks>(q, rows, t, 16, width, ys)
    };
    lanes::store(&values, part);
}

// The second stage: column by column, in the part of the word that starts at q times the column's number.
fn evaluate_columns(q: u8, all: &[u8], columns: &[u8], rows: &[u8], word: &mut [u8])
    requires staged { Staged q columns.now rows.now × (16 * q ≤ length rows.now) × (q * length columns.now ≤ length word.old) }
    requires padded_ys { PaddedYs q all.now }
    ensures { Blocks q (column_value q columns.now rows.now) word.new (length columns.now) }
{
    let width = q as usize;
    let c = columns.len();
    let mut at = 0;
    for t in 0..c {
        let from = width * (columns[t] as usize);
        let end = at + width;
        let ys = lanes::take(all, from);
        evaluate_column(q, &ys, rows, t, &mut word[at..end]);
        at = end;
    }
}

// The first stage of a short block's message: its grid, at every column.
fn evaluate_message(q: u8, columns: &[u8], m: usize, message: &[u8], rows: &mut [u8])
    requires encodable { Encodable q columns.now m message.now (word_of q columns.now m message.now) × IsShort q }
    requires below { Below (field_of q).size rows.old × (16 * q ≤ length rows.old) }
    ensures { Rowed q columns.now (m / q + 1) (scatter q 64 m message.now) rows.new q }
{
    let mut grid = [0u8; 64];
    grid::scatter(q, m, message, &mut grid);
    let last = term::divide(q, m);
    let n = last.whole + 1;
    evaluate_rows(q, columns, n, &grid, rows);
}

// The second stage of a short block.
fn evaluate_short_columns(q: u8, columns: &[u8], rows: &[u8], word: &mut [u8])
    requires { Staged q columns.now rows.now × (16 * q ≤ length rows.now) × (q * length columns.now ≤ length word.old) × IsShort q }
    ensures { Blocks q (column_value q columns.now rows.now) word.new (length columns.now) }
{
    let all = points::padded_ys(q);
    evaluate_columns(q, &all, columns, rows, word);
}

// The word of a short block's message over a list of columns. Each stage is a function with its own array, and the two arrays share their
// room.
pub fn write_word_over(q: u8, columns: &[u8], m: usize, message: &[u8], word: &mut [u8])
    requires { Encodable q columns.now m message.now word.old × IsShort q }
    ensures { word.new ≡ word_of q columns.now m message.now }
{
    let mut rows = [0u8; 64];
    evaluate_message(q, columns, m, message, &mut rows);
    evaluate_short_columns(q, columns, &rows, word);
}

// The word of a short block's message, over all columns.
pub fn write_word(q: u8, series: u8, m: usize, message: &[u8], word: &mut [u8])
    requires { Encodable q (columns_of q series) m message.now word.old × IsShort q }
    ensures { word.new ≡ word_of q (columns_of q series) m message.now }
{
    let columns = points::columns(q, series);
    let width = q as usize;
    let c = width * width;
    write_word_over(q, &columns[..c], m, message, word);
}

// Both stages over sixteen columns at most: n coefficients of each y^j's polynomial are in the grid.
fn write_columns(q: u8, all: &[u8], columns: &[u8], n: usize, grid: &[u8], word: &mut [u8])
    requires staged { Staged q columns.now grid.now × (1 ≤ n) × (q * n ≤ length grid.now) × (length word.old ≡ q * length columns.now) }
    requires padded_ys { PaddedYs q all.now }
    ensures { Blocks q (grid_column q columns.now n grid.now) word.new (length columns.now) }
{
    let mut rows = [0u8; 128];
    evaluate_rows(q, columns, n, grid, &mut rows);
    evaluate_columns(q, all, columns, &rows, word);
}

// Both stages over all columns of a long block, sixteen at a time.
// kept: a function of its own, as all of long blocks: see `known_long_grid` in `recovery`.
fn write_long_columns(series: u8, n: usize, grid: &[u8], word: &mut [u8])
    requires { Below (field_of 8).size grid.now × (1 ≤ n) × (8 * n ≤ length grid.now) × (length word.old ≡ 512) }
    ensures { Blocks 8 (grid_column 8 (columns_of 8 series) n grid.now) word.new 64 }
{
    let all = points::padded_long_ys();
    let columns = points::long_columns(series);
    for part in 0..4 {
        let from = 16 * part;
        let to = from + 16;
        let at = 8 * from;
        let end = 8 * to;
        write_columns(8, &all, &columns[from..to], n, grid, &mut word[at..end]);
    }
}

// The word of a long block's message.
pub fn write_long_word(series: u8, m: usize, message: &[u8], word: &mut [u8])
    requires { Encodable 8 (columns_of 8 series) m message.now word.old }
    ensures { word.new ≡ word_of 8 (columns_of 8 series) m message.now }
{
    let mut grid = [0u8; 512];
    grid::scatter(8, m, message, &mut grid);
    let last = term::divide(8, m);
    let n = last.whole + 1;
    write_long_columns(series, n, &grid, word);
}

// The word of a message, in the order of the series' points.
pub fn encode(q: u8, series: u8, m: u16, message: &[u8], word: &mut [u8]) -> Outcome
    ensures { encoded q series m message.now word.old ≡ answered result word.new }
{
    let order = m as usize;
    let taken = field::curve::is_curve(q);
    check::call(taken, false, false, q, series, order, message, word.len())?;
    if q == 8 {
        return long_block::run(false, series, order, message, word);
    }
    write_word(q, series, order, message, word);
    Ok(())
}
