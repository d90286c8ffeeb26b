// The words of the terms of a short block: each term's values at all places, in rows of 64 symbols.
ghost use Rattle.std.specs.Prelude.{List, ◌≡◌, ℕ, ◌+◌, ◌*◌, ◌/◌, ◌%◌, ◌≤◌, ◌<◌, length};
ghost use Rattle.field.specs.Curve.{IsShort};
ghost use Rattle.field.proofs.Fields.{field_of};
ghost use Rattle.poly.specs.Inner.Ranges.{Below, writes};
ghost use Rattle.poly.specs.Inner.Linear.{entry};
ghost use Rattle.points.specs.Series.{columns_of};
ghost use Rattle.points.specs.Inner.Columns.{Columns, Ys};
ghost use Rattle.code.specs.Terms.{size};
ghost use Rattle.systematic.specs.Inner.TermWords.{PowerRows, PointLists, ProductRows, TermWords};

use code::term;
use field::symbol::ShortBlocks;
use poly::{lanes, rows};

// row[j] = by[j] * row[j]
fn multiply(q: u8, by: &[u8], row: &mut [u8])
    requires row_len { (length row.old % 16 ≡ 0) × (length by.now ≡ length row.old) × (q ≡ 8 → ⊥) }
    requires below { Below (field_of q).size by.now × Below (field_of q).size row.old }
    ensures { row.new ≡ writes row.old (length row.old)
        (λ j. (field_of q).times (entry by.now j) (entry row.old j)) }
{
    for i in 0..row.len() / 16 {
        let j = 16 * i;
        let a = lanes::take(by, j);
        let old = lanes::take(row, j);
        let new = lanes::multiply_in::<ShortBlocks>(q, &a, &old);
        let end = j + 16;
        rows::copy(16, &new, &mut row[j..end]);
    }
}

// Row i of the table becomes the powers i of the base's symbols, for each i below count.
fn write_powers(q: u8, base: &[u8], count: usize, table: &mut [u8])
    requires base_len { (length base.now ≡ 64) × Below (field_of q).size base.now × (q ≡ 8 → ⊥) }
    requires count_in_bounds { (64 * count ≤ length table.old) × Below (field_of q).size table.old }
    ensures { PowerRows q base.now count table.new }
{
    let mut row = [1u8; 64];
    let mut at = 0;
    for i in 0..count {
        let end = at + 64;
        rows::copy(64, &row, &mut table[at..end]);
        multiply(q, base, &mut row);
        at = end;
    }
}

// out[j] = b[j] * a[j]
fn write_product(q: u8, a: &[u8], b: &[u8], out: &mut [u8])
    requires a_len { (length a.now ≡ 64) × (length b.now ≡ 64) × (length out.old ≡ 64) × (q ≡ 8 → ⊥) }
    requires below { Below (field_of q).size a.now × Below (field_of q).size b.now }
    ensures { out.new ≡ writes out.old 64 (λ j. (field_of q).times (entry b.now j) (entry a.now j)) }
{
    rows::copy(64, a, out);
    multiply(q, b, out);
}

// Row t becomes the product of the rows of powers of x and of y that term t has, for each t below k.
fn write_products(q: u8, m: usize, k: usize, xpowers: &[u8], ypowers: &[u8], vectors: &mut [u8])
    requires short { IsShort q × (m < q * q * q) × (k ≡ size q m) × (64 * k ≤ length vectors.old) × Below (field_of q).size vectors.old }
    requires q_in_bounds { (64 * (m / q + 1) ≤ length xpowers.now) × (64 * q ≤ length ypowers.now) }
    requires below { Below (field_of q).size xpowers.now × Below (field_of q).size ypowers.now }
    ensures { ProductRows q m xpowers.now ypowers.now vectors.new k }
{
    let mut at = 0;
    for t in 0..k {
        let e = term::entry(q, t);
        let d = term::divide(q, e);
        let a = 64 * d.whole;
        let a_end = a + 64;
        let b = 64 * d.rest;
        let b_end = b + 64;
        let end = at + 64;
        write_product(
            q,
            &xpowers[a..a_end],
            &ypowers[b..b_end],
            &mut vectors[at..end],
        );
        at = end;
    }
}

// The x and the y of each place of a word over the columns.
fn write_points(q: u8, columns: &[u8], all: &[u8], xs: &mut [u8], ys: &mut [u8])
    requires columns { Columns q columns.now × Ys q all.now }
    requires columns_in_bounds { (q * length columns.now ≤ length xs.old) × (q * length columns.now ≤ length ys.old) }
    requires below { Below (field_of q).size xs.old × Below (field_of q).size ys.old }
    ensures { PointLists q columns.now xs.new ys.new }
{
    let n = (q as usize) * columns.len();
    for p in 0..n {
        let d = term::divide(q, p);
        let t = d.whole;
        let x = columns[t];
        let i = (q as usize) * (x as usize) + d.rest;
        xs[p] = x;
        ys[p] = all[i];
    }
}

// The words of the terms, k of them, from the points of their places.
fn write_words(q: u8, m: usize, k: usize, xs: &[u8], ys: &[u8], vectors: &mut [u8])
    requires short { IsShort q × (m < q * q * q) × (k ≡ size q m) × (64 * k ≤ length vectors.old) × Below (field_of q).size vectors.old }
    requires xs_len { (length xs.now ≡ 64) × (length ys.now ≡ 64) × Below (field_of q).size xs.now × Below (field_of q).size ys.now }
    ensures { (columns : List ℕ) → q * length columns ≤ 64 → PointLists q columns xs.now ys.now
        → TermWords q columns m vectors.new }
{
    let last = term::divide(q, m);
    let mut xpowers = [0u8; 1024];
    write_powers(q, xs, last.whole + 1, &mut xpowers);
    let mut ypowers = [0u8; 256];
    write_powers(q, ys, q as usize, &mut ypowers);
    write_products(q, m, k, &xpowers, &ypowers, vectors);
}

// The words of the terms of the order m, k of them.
pub fn write(q: u8, series: u8, m: usize, k: usize, vectors: &mut [u8])
    requires { IsShort q × (m < q * q * q) × (k ≡ size q m) × (64 * k ≤ length vectors.old) × Below (field_of q).size vectors.old }
    ensures { TermWords q (columns_of q series) m vectors.new }
{
    let columns = points::columns(q, series);
    let all = points::ys(q);
    let width = q as usize;
    let c = width * width;
    let mut xs = [0u8; 64];
    let mut ys = [0u8; 64];
    write_points(q, &columns[..c], &all, &mut xs, &mut ys);
    write_words(q, m, k, &xs, &ys, vectors);
}
