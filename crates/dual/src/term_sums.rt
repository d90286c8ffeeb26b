// The sums of a word's symbols against the terms x^i·y^j, in two stages: over the y of each column, then over the columns, sixteen lanes
// at a time.
ghost use Rattle.std.specs.Prelude.{true, ◌≡◌, ℕ, ◌+◌, ◌*◌, ◌≤◌, ◌<◌, length, get_or};
ghost use Rattle.field.specs.Curve.{IsCurve, IsShort};
ghost use Rattle.field.specs.Plus.{plus};
ghost use Rattle.field.specs.Power.{power};
ghost use Rattle.field.specs.Sum.{sum};
ghost use Rattle.field.proofs.Fields.{field_of};
ghost use Rattle.poly.specs.Inner.Lanes.{lanes};
ghost use Rattle.poly.specs.Inner.Linear.{entry};
ghost use Rattle.poly.specs.Inner.Ranges.{Below, Blocks};
ghost use Rattle.points.specs.Series.{columns_of};
ghost use Rattle.points.specs.Inner.Columns.{PaddedYs, column_y};
ghost use Rattle.code.specs.Inner.Encodable.{Staged};
ghost use Rattle.code.specs.Inner.Readable.{WordOver};
ghost use Rattle.dual.specs.Inner.StagedSums.{column_sum, SummedInY, sum_by_power_of_x, staged_sum, PowersVanish, TermsVanish, Tells, long_entry};

use field::symbol::{LongBlocks, ShortBlocks};
use poly::{lanes, rows};

// The y number s of each column, a lane for each.
fn take_ys(q: u8, all: &[u8], columns: &[u8], s: usize) -> [u8; 16]
    requires { Staged q columns.now all.now × PaddedYs q all.now × (s < q) }
    ensures { ((t : ℕ) → t < length columns.now → entry result t ≡ column_y q columns.now t s)
        × Below (field_of q).size result × (length result ≡ 16) }
{
    let width = q as usize;
    let mut r = [0u8; 16];
    for t in 0..columns.len() {
        r[t] = all[width * (columns[t] as usize) + s];
    }
    r
}

// The symbol number s of each of c columns, a lane for each.
fn take_symbols(q: u8, c: usize, word: &[u8], s: usize) -> [u8; 16]
    requires { IsCurve q × (c ≤ 16) × (length word.now ≡ q * c) × (s < q) }
    ensures { result ≡ lanes (λ t. get_or word.now (q * t + s) 0) }
{
    let width = q as usize;
    let mut r = [0u8; 16];
    for t in 0..c {
        r[t] = word[width * t + s];
    }
    r
}

// To row j, sixteen lanes, the values times their places to the power j are added, for each j below q.
fn add_powers(q: u8, places: &[u8; 16], values: [u8; 16], rows: &mut [u8])
    requires below { Below (field_of q).size places.now × Below (field_of q).size values × Below (field_of q).size rows.old }
    requires values_len { (length values ≡ 16) × (16 * q ≤ length rows.old) }
    ensures { Blocks 16 (λ j t. plus (get_or rows.old (16 * j + t) 0)
        ((field_of q).times (entry values t) (power (field_of q) (entry places.now t) j))) rows.new q
        × Below (field_of q).size rows.new }
{
    let width = q as usize;
    let mut v = values;
    let mut at = 0;
    for j in 0..width {
        let end = at + 16;
        rows::add(16, &v, &mut rows[at..end]);
        v = lanes::multiply(q, places, &v);
        at = end;
    }
}

// The first stage, of sixteen columns at most.
fn sum_in_y(q: u8, all: &[u8], columns: &[u8], word: &[u8], rows: &mut [u8])
    requires staged { Staged q columns.now word.now × PaddedYs q all.now × (length word.now ≡ q * length columns.now) }
    requires q_in_bounds { (16 * q ≤ length rows.old) × ((i : ℕ) → get_or rows.old i 0 ≡ 0) }
    ensures { SummedInY q q columns.now word.now rows.new }
{
    let width = q as usize;
    let c = columns.len();
    for s in 0..width {
        let ys = take_ys(q, all, columns, s);
        let values = take_symbols(q, c, word, s);
        add_powers(q, &ys, values, rows);
    }
}

// Whether a row's sums against the powers of x that go with y^j in terms of the order m are 0, of short blocks. The last one is tested
// after the loop, so that nothing is multiplied in vain.
fn row_vanishes(q: u8, m: usize, j: usize, places: &[u8; 16], row: [u8; 16]) -> bool
    requires { IsShort q × Below (field_of q).size places.now × Below (field_of q).size row × (length row ≡ 16) × (j < q) × (m < 512) }
    ensures { Tells result (PowersVanish q m j (λ i. sum_by_power_of_x 16 q places.now i (entry row))) }
{
    let width = q as usize;
    let mut v = row;
    // kept: the loop goes by the weight of the next term; a `for` over the powers of x would need their number, by a division.
    let mut w = width * j + j;
    while w + width <= m {
        if lanes::sum(&v) != 0 {
            return false;
        }
        v = lanes::multiply_in::<ShortBlocks>(q, places, &v);
        w += width;
    }
    if m < w {
        return true;
    }
    lanes::sum(&v) == 0
}

// The second stage, of short blocks.
fn rows_vanish(q: u8, m: usize, columns: &[u8], rows: &[u8]) -> bool
    requires { Staged q columns.now rows.now × IsShort q × (16 * q ≤ length rows.now) × (m < 512) }
    ensures { Tells result (TermsVanish q m (λ i j. sum_by_power_of_x 16 q columns.now i (λ t. get_or rows.now (16 * j + t) 0))) }
{
    let width = q as usize;
    let places = lanes::load(columns);
    for j in 0..width {
        let row = lanes::take(rows, 16 * j);
        if !row_vanishes(q, m, j, &places, row) {
            return false;
        }
    }
    true
}

// Whether a short block's sums over a list of columns, against the terms of the order m, are 0.
fn vanish_over(q: u8, m: usize, columns: &[u8], word: &[u8]) -> bool
    requires { WordOver q columns.now word.now × IsShort q × (m < 512) }
    ensures { Tells result (TermsVanish q m (staged_sum q columns.now word.now)) }
{
    let all = points::padded_ys(q);
    let mut rows = [0u8; 64];
    sum_in_y(q, &all, columns, word, &mut rows);
    rows_vanish(q, m, columns, &rows)
}

// The same over all columns.
pub fn vanish_short(q: u8, series: u8, m: usize, word: &[u8]) -> bool
    requires { WordOver q (columns_of q series) word.now × IsShort q × (m < 512) }
    ensures { Tells result (TermsVanish q m (staged_sum q (columns_of q series) word.now)) }
{
    let columns = points::columns(q, series);
    let width = q as usize;
    let c = width * width;
    vanish_over(q, m, &columns[..c], word)
}

fn sum_of_four(a: &[u8; 16], b: &[u8; 16], c: &[u8; 16], d: &[u8; 16]) -> u8
    ensures { result ≡ plus (plus (sum 16 (entry a.now)) (sum 16 (entry b.now)))
        (plus (sum 16 (entry c.now)) (sum 16 (entry d.now))) }
{
    let first = lanes::plus(a, b);
    let second = lanes::plus(c, d);
    let all = lanes::plus(&first, &second);
    lanes::sum(&all)
}

// The first stage of a long block, sixteen columns at a time.
// kept: a function of its own, as all of long blocks: see `known_long_grid` in `recovery`.
fn sum_long_in_y(columns: &[u8], word: &[u8], rows: &mut [u8])
    requires word_over { WordOver 8 columns.now word.now × (length columns.now ≡ 64) }
    requires rows_len { (length rows.old ≡ 512) × ((i : ℕ) → get_or rows.old i 0 ≡ 0) }
    ensures { ((j t : ℕ) → j < 8 → t < 64 → long_entry rows.new j t ≡ column_sum 8 columns.now word.now j t)
        × Below (field_of 8).size rows.new }
{
    let all = points::padded_long_ys();
    for part in 0..4 {
        let from = 16 * part;
        let to = from + 16;
        let at = 8 * from;
        let end = 8 * to;
        sum_in_y(
            8,
            &all,
            &columns[from..to],
            &word[at..end],
            &mut rows[at..end],
        );
    }
}

// The same as of short blocks, of one row of a long block.
fn long_row_vanishes(m: usize, j: usize, columns: &[u8], rows: &[u8]) -> bool
    requires below { Below (field_of 8).size columns.now × Below (field_of 8).size rows.now × (j < 8) × (m < 512) }
    requires columns_len { (length columns.now ≡ 64) × (length rows.now ≡ 512) }
    ensures { Tells result (PowersVanish 8 m j (λ i. sum_by_power_of_x 64 8 columns.now i (long_entry rows.now j))) }
{
    let at = 16 * j;
    let xa = lanes::take(columns, 0);
    let xb = lanes::take(columns, 16);
    let xc = lanes::take(columns, 32);
    let xd = lanes::take(columns, 48);
    let mut a = lanes::take(rows, at);
    let mut b = lanes::take(rows, at + 128);
    let mut c = lanes::take(rows, at + 256);
    let mut d = lanes::take(rows, at + 384);
    // kept: as in `row_vanishes`.
    let mut w = 9 * j;
    while w + 8 <= m {
        if sum_of_four(&a, &b, &c, &d) != 0 {
            return false;
        }
        a = lanes::multiply_in::<LongBlocks>(8, &xa, &a);
        b = lanes::multiply_in::<LongBlocks>(8, &xb, &b);
        c = lanes::multiply_in::<LongBlocks>(8, &xc, &c);
        d = lanes::multiply_in::<LongBlocks>(8, &xd, &d);
        w += 8;
    }
    if m < w {
        return true;
    }
    sum_of_four(&a, &b, &c, &d) == 0
}

// The second stage of a long block.
fn long_rows_vanish(m: usize, columns: &[u8], rows: &[u8]) -> bool
    requires below { Below (field_of 8).size columns.now × Below (field_of 8).size rows.now × (m < 512) }
    requires columns_len { (length columns.now ≡ 64) × (length rows.now ≡ 512) }
    ensures { Tells result (TermsVanish 8 m (λ i j. sum_by_power_of_x 64 8 columns.now i (long_entry rows.now j))) }
{
    for j in 0..8 {
        if !long_row_vanishes(m, j, columns, rows) {
            return false;
        }
    }
    true
}

// Whether a long block's sums against the terms of the order m are 0.
pub fn vanish_long(series: u8, m: usize, word: &[u8]) -> bool
    requires { WordOver 8 (columns_of 8 series) word.now × (m < 512) }
    ensures { Tells result (TermsVanish 8 m (staged_sum 8 (columns_of 8 series) word.now)) }
{
    let columns = points::long_columns(series);
    let mut rows = [0u8; 512];
    sum_long_in_y(&columns, word, &mut rows);
    long_rows_vanish(m, &columns, &rows)
}
