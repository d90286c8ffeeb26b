// Recovery: a broken word to the message that alone fits it, by its missing symbols. The words that agree with it are the word with 0 at
// each gap, plus a combination of the words that are 1 at one gap and 0 elsewhere, and so are their grids; a message's word is one whose
// grid has no coefficient of a weight above m.
#![tactic(auto)]

ghost use Rattle.std.specs.Prelude.{◌≡◌, ℕ, ◌*◌, ◌≤◌, ◌<◌, length};
ghost use Rattle.field.specs.Curve.{IsCurve, IsShort};
ghost use Rattle.field.specs.Inner.Halves.{half_of};
ghost use Rattle.field.proofs.Fields.{field_of};
ghost use Rattle.poly.specs.Lists.{one_if};
ghost use Rattle.poly.specs.Inner.Ranges.{Below, writes};
ghost use Rattle.poly.specs.Inner.Linear.{entry};
ghost use Rattle.linear.specs.Inner.Combinations.{rows_from, Eliminated};
ghost use Rattle.linear.specs.Inner.Eliminating.{Table};
ghost use Rattle.points.specs.Series.{columns_of};
ghost use Rattle.points.specs.Inner.Columns.{Ys};
ghost use Rattle.code.specs.Terms.{size};
ghost use Rattle.code.specs.Inner.Recovering.{BrokenOver};
ghost use Rattle.code.specs.Word.{word_of};
ghost use Rattle.code.specs.Answers.{answered};
ghost use Rattle.code.specs.Recovered.{reading, answer_of, recovered};
ghost use Rattle.code.specs.RecoveredLong.{work_length, recovered_long, KeptUnlessWorked};
ghost use Rattle.recovery.specs.Inner.Indicators.{blocks_of, YFactors, XPowers};
ghost use Rattle.recovery.specs.Inner.Gaps.{gaps_of, known, heavy, IndicatorRows, KnownGrid, rest_answer};

use code::{check, grid, term, unencoding};
use field::{Outcome, Refusal};
use linear::vectors;

pub mod indicator;

// The word with 0 at each gap.
pub fn fill(word: &[u8], out: &mut [u8])
    requires { length out.old ≡ length word.now }
    ensures { out.new ≡ writes out.old (length word.now) (known word.now) }
{
    for p in 0..word.len() {
        let s = word[p];
        out[p] = if s == 255 { 0 } else { s };
    }
}

// The grid of a short block's word with 0 at each gap, in the front of zeros.
pub fn known_short_grid(q: u8, series: u8, word: &[u8]) -> [u8; 64]
    requires { BrokenOver q (columns_of q series) 0 word.now × IsShort q }
    ensures { KnownGrid q (columns_of q series) word.now result × (length result ≡ 64) }
{
    let n = word.len();
    let mut filled = [0u8; 64];
    fill(word, &mut filled[..n]);
    unencoding::interpolate_short(q, series, &filled[..n])
}

// The same of a long block.
// kept: long blocks have functions of their own, here and in `code`: their arrays are not to stand in a short block's frame (the memory is
// fixed), and one function over the arrays' lengths would take each of them as a parameter, since none can be computed from another.
fn known_long_grid(series: u8, word: &[u8]) -> [u8; 512]
    requires { BrokenOver 8 (columns_of 8 series) 0 word.now }
    ensures { KnownGrid 8 (columns_of 8 series) word.now result × (length result ≡ 512) }
{
    let mut filled = [0u8; 512];
    fill(word, &mut filled);
    unencoding::interpolate_long(series, &filled)
}

// For each gap, by ascending place, the grid of the word that is 1 there and 0 elsewhere, each in the front of a row of zeros. Answers how
// many there are.
fn write_indicators(
    q: u8,
    factors: &[u8],
    powers: &[u8],
    ys: &[u8],
    columns: &[u8],
    word: &[u8],
    stride: usize,
    vectors: &mut [u8],
) -> usize
    requires yfactors { YFactors q factors.now × XPowers q powers.now × Ys q ys.now }
    requires broken_over { BrokenOver q columns.now 0 word.now × (length columns.now ≡ q * q) × (16 * blocks_of q ≤ stride) }
    requires word_in_bounds { (stride * length word.now ≤ length vectors.old) × ((i : ℕ) → entry vectors.old i ≡ 0) }
    ensures value { result ≡ length (gaps_of word.now) }
    ensures indicator_rows { IndicatorRows q columns.now (gaps_of word.now) stride vectors.new }
{
    let mut count = 0;
    let mut at = 0;
    for p in 0..word.len() {
        if word[p] == 255 {
            let d = term::divide(q, p);
            let t = d.whole;
            let x = columns[t];
            let i = (q as usize) * (x as usize) + d.rest;
            let y = ys[i];
            let end = at + stride;
            indicator::write(q, factors, powers, x, y, &mut vectors[at..end]);
            at = end;
            count += 1;
        }
    }
    count
}

// The same of a short block, in rows of 64.
fn write_short_indicators(q: u8, columns: &[u8], word: &[u8], vectors: &mut [u8]) -> usize
    requires broken_over { BrokenOver q columns.now 0 word.now × (length columns.now ≡ q * q) × IsShort q }
    requires word_in_bounds { (64 * length word.now ≤ length vectors.old) × ((i : ℕ) → entry vectors.old i ≡ 0) }
    ensures value { result ≡ length (gaps_of word.now) }
    ensures indicator_rows { IndicatorRows q columns.now (gaps_of word.now) 64 vectors.new }
{
    let factors = indicator::y_factors(q);
    let powers = indicator::x_powers(q);
    let ys = points::ys(q);
    write_indicators(q, &factors, &powers, &ys, columns, word, 64, vectors)
}

// The same of a long block, in rows of 512.
fn write_long_indicators(columns: &[u8], word: &[u8], vectors: &mut [u8]) -> usize
    requires broken_over { BrokenOver 8 columns.now 0 word.now × (length columns.now ≡ 64) }
    requires word_in_bounds { (512 * length word.now ≤ length vectors.old) × ((i : ℕ) → entry vectors.old i ≡ 0) }
    ensures value { result ≡ length (gaps_of word.now) }
    ensures indicator_rows { IndicatorRows 8 columns.now (gaps_of word.now) 512 vectors.new }
{
    let factors = indicator::long_y_factors();
    let powers = indicator::long_x_powers();
    let ys = points::long_ys();
    write_indicators(8, &factors, &powers, &ys, columns, word, 512, vectors)
}

// high[e] = 255 where the weight of entry e is above m, and 0 elsewhere. Weights are of 16 bits, so that eight are compared at once.
fn mark(q: u8, m: usize, high: &mut [u8])
    requires { IsCurve q × (m < 512) × (length high.old ≤ 512) }
    ensures { high.new ≡ writes high.old (length high.old) (λ e. 255 * one_if (heavy q m e)) }
{
    let width = q as u16;
    let order = m as u16;
    for e in 0..high.len() {
        let d = term::divide(q, e);
        let weight = e as u16 + width * (d.rest as u16);
        high[e] = if order < weight { 255 } else { 0 };
    }
}

// Takes the gaps' vectors, count of them, out of the grid at the entries of a weight above m. Answers their rank at these. The entries are
// marked in high, and low and top are zeros at first.
fn eliminate(
    q: u8,
    m: usize,
    count: usize,
    high: &mut [u8],
    low: &mut [u8],
    top: &mut [u8],
    vectors: &mut [u8],
    grid: &mut [u8],
) -> usize
    requires curve { IsCurve q × (m < 512) × (length high.old ≤ 512) × (length vectors.old ≡ length high.old * count) × Below (field_of q).size vectors.old }
    requires table { Table (field_of q) (length high.old) (half_of q) low.old × Table (field_of q) (length high.old) (half_of q) top.old }
    requires grid_len { (length grid.old ≡ length high.old) × Below (field_of q).size grid.old }
    ensures below { Below (field_of q).size grid.new }
    ensures eliminated { Eliminated (field_of q) (heavy q m) (length high.old) count
        (rows_from (length high.old) 0 vectors.old grid.old) count result
        (rows_from (length high.old) count vectors.new grid.new) }
{
    mark(q, m, high);
    vectors::eliminate(q, count, high, low, top, vectors, grid)
}

// The same of a short block.
fn eliminate_short(q: u8, m: usize, count: usize, vectors: &mut [u8], grid: &mut [u8; 64]) -> usize
    requires short { IsShort q × (m < 512) × (length vectors.old ≡ 64 * count) × Below (field_of q).size vectors.old }
    requires grid_len { (length grid.old ≡ 64) × Below (field_of q).size grid.old }
    ensures below { Below (field_of q).size grid.new × (length grid.new ≡ 64) }
    ensures eliminated { Eliminated (field_of q) (heavy q m) 64 count (rows_from 64 0 vectors.old grid.old) count result
        (rows_from 64 count vectors.new grid.new) }
{
    let mut high = [0u8; 64];
    mark(q, m, &mut high);
    vectors::eliminate_short(q, count, &high, vectors, grid)
}

// The same of a long block.
fn eliminate_long(m: usize, count: usize, vectors: &mut [u8], grid: &mut [u8]) -> usize
    requires m_bound { (m < 512) × (length vectors.old ≡ 512 * count) × Below (field_of 8).size vectors.old }
    requires grid_len { (length grid.old ≡ 512) × Below (field_of 8).size grid.old }
    ensures below { Below (field_of 8).size grid.new }
    ensures eliminated { Eliminated (field_of 8) (heavy 8 m) 512 count (rows_from 512 0 vectors.old grid.old) count result
        (rows_from 512 count vectors.new grid.new) }
{
    let mut high = [0u8; 512];
    let mut low = [0u8; 4096];
    let mut top = [0u8; 4096];
    eliminate(8, m, count, &mut high, &mut low, &mut top, vectors, grid)
}

// What is left of the grid, and the rank of the gaps' vectors, count of them, say: no message, this one, or several.
fn read_rest(q: u8, m: usize, count: usize, rank: usize, grid: &[u8], message: &mut [u8]) -> Outcome
    requires { IsCurve q × (m < length grid.now) × (length grid.now ≤ 512) × (count ≤ 512) × (length message.old ≡ size q m) }
    ensures { rest_answer q m count rank grid.now message.old ≡ answered result message.new }
{
    if grid::order_at_most(q, m, grid) {
        if rank < count {
            return Err(Refusal::Several((count - rank) as u16));
        }
        grid::gather(q, m, grid, message);
        return Ok(());
    }
    Err(Refusal::NoMessage)
}

// What the symbols of a short block's broken word say. The grid is that of the word with 0 at each gap.
pub fn recover_over(
    q: u8,
    series: u8,
    m: usize,
    word: &[u8],
    grid: &mut [u8; 64],
    message: &mut [u8],
) -> Outcome
    requires broken_over { BrokenOver q (columns_of q series) m word.now × (length message.old ≡ size q m) × IsShort q }
    requires known_grid { KnownGrid q (columns_of q series) word.now grid.old × (length grid.old ≡ 64) }
    ensures { answer_of (reading (field_of q).size (size q m) (word_of q (columns_of q series) m) word.now) message.old
        ≡ answered result message.new }
{
    let columns = points::columns(q, series);
    let width = q as usize;
    let c = width * width;
    let mut vectors = [0u8; 4096];
    let count = write_short_indicators(q, &columns[..c], word, &mut vectors);
    let end = 64 * count;
    let rank = eliminate_short(q, m, count, &mut vectors[..end], grid);
    read_rest(q, m, count, rank, grid, message)
}

// What the symbols of a long block's broken word say. The gaps' vectors stand in the front of work.
fn recover_long_over(
    series: u8,
    m: usize,
    word: &[u8],
    message: &mut [u8],
    work: &mut [u8],
) -> Outcome
    requires { BrokenOver 8 (columns_of 8 series) m word.now × (length message.old ≡ size 8 m) × (length work.old ≡ work_length) }
    ensures { answer_of (reading (field_of 8).size (size 8 m) (word_of 8 (columns_of 8 series) m) word.now) message.old
        ≡ answered result message.new }
{
    let columns = points::long_columns(series);
    work.fill(0);
    let count = write_long_indicators(&columns, word, work);
    let mut grid = known_long_grid(series, word);
    let end = 512 * count;
    let rank = eliminate_long(m, count, &mut work[..end], &mut grid);
    read_rest(8, m, count, rank, &grid, message)
}

// The message that alone fits a broken word, 255 standing for each missing symbol.
pub fn recover(q: u8, series: u8, m: u16, word: &[u8], message: &mut [u8]) -> Outcome
    ensures { recovered q series m word.now message.old ≡ answered result message.new }
{
    let order = m as usize;
    let taken = field::curve::is_short(q);
    check::call(taken, true, true, q, series, order, word, message.len())?;
    let mut grid = known_short_grid(q, series, word);
    recover_over(q, series, order, word, &mut grid, message)
}

// The same of a long block. What work, 262,144 bytes, holds after a success and after refusals 9 and 10 is left open; any other refusal
// leaves it as it was.
pub fn recover_long(series: u8, m: u16, word: &[u8], message: &mut [u8], work: &mut [u8]) -> Outcome
    ensures work_value { recovered_long series m word.now message.old (length work.old) ≡ answered result message.new }
    ensures kept_unless_worked { KeptUnlessWorked result work.old work.new }
{
    let order = m as usize;
    check::call(true, true, true, 8, series, order, word, message.len())?;
    if work.len() != 262144 {
        return Err(Refusal::BadWork);
    }
    recover_long_over(series, order, word, message, work)
}
