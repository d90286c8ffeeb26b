// Vectors of n symbols side by side in a slice, n a multiple of 16, and one apart: which combinations of them, that one added, are 0 at
// the entries that count.
ghost use Rattle.std.specs.Prelude.{◌≡◌, ◌+◌, ◌*◌, ◌%◌, ◌≤◌, ◌<◌, length};
ghost use Rattle.field.specs.Inner.Halves.{half_of};
ghost use Rattle.field.specs.Plus.{plus};
ghost use Rattle.field.proofs.Fields.{field_of};
ghost use Rattle.poly.specs.Inner.Ranges.{Below, writes};
ghost use Rattle.poly.specs.Inner.Linear.{entry};
ghost use Rattle.poly.specs.Inner.Rows.{cleared};
ghost use Rattle.linear.specs.Inner.Combinations.{rows_from, Eliminated};
ghost use Rattle.linear.specs.Inner.Eliminating.{marked, Masks, Last, Table, Multiples, Doubled, Clearing, AllCleared, PivotTaken, Stepped};

use field::symbol::{LongBlocks, Product, ShortBlocks};
use poly::{lanes, rows};

// One more than the last place where neither high nor v is 0; 0 where there is none (kept: a number, as `Last` has it). Marks are masks, so that one test at a place does: with a
// test for the mark and one for the symbol, marks that stand in no order would be guessed wrong again and again.
pub fn pivot(high: &[u8], v: &[u8]) -> usize
    requires { (length high.now ≡ length v.now) × Masks high.now }
    ensures { Last high.now v.now result }
{
    for i in (0..high.len()).rev() {
        if high[i] & v[i] != 0 {
            return i + 1;
        }
    }
    0
}

// factors[s] = s * c for each symbol s, of one kind of block.
fn write_factors_in<P: Product>(q: u8, c: u8, factors: &mut [u8])
    requires blocks { P.takes q }
    requires symbols { (c < (field_of q).size) × (length factors.old ≡ (field_of q).size) }
    ensures { factors.new ≡ writes factors.old (field_of q).size (λ s. (field_of q).times s c) }
{
    let factor = [c; 64];
    for s in 0..factors.len() {
        factors[s] = P::times(q, s as u8, factor[s]);
    }
}

fn write_factors(q: u8, c: u8, factors: &mut [u8])
    requires { (c < (field_of q).size) × (length factors.old ≡ (field_of q).size) }
    ensures { factors.new ≡ writes factors.old (field_of q).size (λ s. (field_of q).times s c) }
{
    if q == 8 {
        write_factors_in::<LongBlocks>(q, c, factors);
    } else {
        write_factors_in::<ShortBlocks>(q, c, factors);
    }
}

// Writes rows 2·a and 2·a + 1 of a table of multiples: z times row a, without and with row 1 added.
fn double(q: u8, n: usize, a: usize, table: &mut [u8])
    requires { (n % 16 ≡ 0) × (1 ≤ a) × (n * (2 * a + 2) ≤ length table.old) × Below (field_of q).size table.old }
    ensures { Doubled (field_of q) n a table.old table.new }
{
    let from = n * a;
    let even = 2 * from;
    let odd = even + n;
    for i in 0..n / 16 {
        let j = 16 * i;
        let row = lanes::take(table, from + j);
        let first = lanes::take(table, n + j);
        let double = lanes::times_z(q, &row);
        let sum = lanes::plus(&double, &first);
        let at = even + j;
        let end = at + 16;
        rows::copy(16, &double, &mut table[at..end]);
        let next = odd + j;
        let stop = next + 16;
        rows::copy(16, &sum, &mut table[next..stop]);
    }
}

// Row s of the table becomes s times row 1, for each s below the half of the symbols' bits. Rows 2 and 3, the only ones of the strap's
// curve, are written before the loop.
fn write_multiples(q: u8, n: usize, table: &mut [u8])
    requires { Table (field_of q) n (half_of q) table.old }
    ensures table { Table (field_of q) n (half_of q) table.new }
    ensures multiples { Multiples (field_of q) n (half_of q) (λ j. entry table.old (n + j)) table.new }
{
    let half = field::symbol::half(q);
    if 2 < half {
        double(q, n, 1, table);
    }
    for a in 2..half / 2 {
        double(q, n, a, table);
    }
}

// dst[j] = z * src[j].
fn times_z(q: u8, src: &[u8], dst: &mut [u8])
    requires { (length src.now % 16 ≡ 0) × (length dst.old ≡ length src.now) × Below (field_of q).size src.now }
    ensures { dst.new ≡ writes dst.old (length src.now)
        (λ j. (field_of q).times 2 (entry src.now j)) }
{
    for i in 0..src.len() / 16 {
        let j = 16 * i;
        let a = lanes::take(src, j);
        let b = lanes::times_z(q, &a);
        let end = j + 16;
        rows::copy(16, &b, &mut dst[j..end]);
    }
}

// The multiples of v by the symbols whose high half is 0, in low; and by those whose low half is 0, in top.
fn write_tables(q: u8, v: &[u8], low: &mut [u8], top: &mut [u8])
    requires table { Table (field_of q) (length v.now) (half_of q) low.old × Table (field_of q) (length v.now) (half_of q) top.old }
    requires below { Below (field_of q).size v.now }
    ensures table_2 { Table (field_of q) (length v.now) (half_of q) low.new
        × Table (field_of q) (length v.now) (half_of q) top.new }
    ensures multiples { Multiples (field_of q) (length v.now) (half_of q) (entry v.now) low.new
        × Multiples (field_of q) (length v.now) (half_of q) (λ j. (field_of q).times (half_of q) (entry v.now j))
        top.new }
{
    let n = v.len();
    let two = 2 * n;
    low[n..two].copy_from_slice(v);
    write_multiples(q, n, low);
    let from = n * (field::symbol::half(q) / 2);
    let end = from + n;
    times_z(q, &low[from..end], &mut top[n..two]);
    write_multiples(q, n, top);
}

// v[j] += low[j] + top[j].
fn add_sum(low: &[u8], top: &[u8], v: &mut [u8])
    requires { (length v.old % 16 ≡ 0) × (length low.now ≡ length v.old) × (length top.now ≡ length v.old) }
    ensures { v.new ≡ writes v.old (length v.old)
        (λ j. plus (entry v.old j) (plus (entry low.now j) (entry top.now j))) }
{
    for i in 0..v.len() / 16 {
        let j = 16 * i;
        let a = lanes::take(low, j);
        let b = lanes::take(top, j);
        let sum = lanes::plus(&a, &b);
        let old = lanes::take(v, j);
        let new = lanes::plus(&old, &sum);
        let end = j + 16;
        rows::copy(16, &new, &mut v[j..end]);
    }
}

// Adds to w its entry i times c times v: c is factors[1], and v is row 1 of the table low.
fn clear(q: u8, i: usize, factors: &[u8], low: &[u8], top: &[u8], w: &mut [u8])
    requires clearing { Clearing (field_of q) (half_of q) (length w.old) i (entry factors.now 1) (λ j. entry low.now (length w.old + j))
        factors.now low.now top.now }
    requires below { Below (field_of q).size w.old }
    ensures { w.new ≡ cleared (field_of q) i (entry factors.now 1)
        (λ j. entry low.now (length w.old + j)) w.old }
{
    let n = w.len();
    let s = w[i] as usize;
    let halves = field::symbol::split(q, factors[s]);
    let a = n * halves.low;
    let b = n * halves.high;
    let low_end = a + n;
    let top_end = b + n;
    add_sum(&low[a..low_end], &top[b..top_end], w);
}

// The same for each of the vectors, count of them.
fn clear_all(
    q: u8,
    n: usize,
    i: usize,
    count: usize,
    factors: &[u8],
    low: &[u8],
    top: &[u8],
    vectors: &mut [u8],
)
    requires clearing { Clearing (field_of q) (half_of q) n i (entry factors.now 1) (λ j. entry low.now (n + j)) factors.now low.now top.now }
    requires vectors_len { (length vectors.old ≡ n * count) × Below (field_of q).size vectors.old }
    ensures { AllCleared (field_of q) n i (entry factors.now 1) (λ j. entry low.now (n + j)) vectors.old
        vectors.new count }
{
    for k in 0..count {
        let at = n * k;
        let end = at + n;
        clear(q, i, factors, low, top, &mut vectors[at..end]);
    }
}

// Takes the first vector as the pivot for entry i, where it isn't 0, of those after it, count of them, and of the grid.
fn take_pivot(
    q: u8,
    n: usize,
    i: usize,
    count: usize,
    low: &mut [u8],
    top: &mut [u8],
    vectors: &mut [u8],
    grid: &mut [u8],
)
    requires table { Table (field_of q) n (half_of q) low.old × Table (field_of q) n (half_of q) top.old × (i < n) }
    requires vectors_len { (length vectors.old ≡ n * (count + 1)) × Below (field_of q).size vectors.old × (entry vectors.old i ≡ 0 → ⊥) }
    requires grid_len { (length grid.old ≡ n) × Below (field_of q).size grid.old }
    ensures table_2 { Table (field_of q) n (half_of q) low.new × Table (field_of q) n (half_of q) top.new }
    ensures pivot_taken { PivotTaken (field_of q) n i count vectors.old vectors.new grid.old grid.new }
{
    let c = field::symbol::inverse(q, vectors[i]);
    let mut factors = [0u8; 64];
    let symbols = field::symbol::size(q) as usize;
    write_factors(q, c, &mut factors[..symbols]);
    write_tables(q, &vectors[..n], low, top);
    clear_all(q, n, i, count, &factors, low, top, &mut vectors[n..]);
    clear(q, i, &factors, low, top, grid);
}

// Takes the first vector as the pivot of those after it, count of them, and of the grid, at an entry where high isn't 0. Answers 0 where
// it is 0 at each of these, and else 1.
fn step(
    q: u8,
    count: usize,
    high: &[u8],
    low: &mut [u8],
    top: &mut [u8],
    vectors: &mut [u8],
    grid: &mut [u8],
) -> usize
    requires table { Table (field_of q) (length high.now) (half_of q) low.old × Table (field_of q) (length high.now) (half_of q) top.old × Masks high.now }
    requires vectors_len { (length vectors.old ≡ length high.now * (count + 1)) × Below (field_of q).size vectors.old }
    requires grid_len { (length grid.old ≡ length high.now) × Below (field_of q).size grid.old }
    ensures table_2 { Table (field_of q) (length high.now) (half_of q) low.new
        × Table (field_of q) (length high.now) (half_of q) top.new }
    ensures stepped { Stepped (field_of q) count high.now vectors.old vectors.new grid.old
        grid.new result }
{
    let n = high.len();
    let p = pivot(high, &vectors[..n]);
    if p == 0 {
        return 0;
    }
    take_pivot(q, n, p - 1, count, low, top, vectors, grid);
    1
}

// Takes the vectors, count of them, in turn as the pivot of those after it and of the grid, at an entry where high isn't 0. Answers how
// many were. The tables low and top are room for multiples of the pivot, and zeros at first.
pub fn eliminate(
    q: u8,
    count: usize,
    high: &[u8],
    low: &mut [u8],
    top: &mut [u8],
    vectors: &mut [u8],
    grid: &mut [u8],
) -> usize
    requires table { Table (field_of q) (length high.now) (half_of q) low.old × Table (field_of q) (length high.now) (half_of q) top.old × Masks high.now }
    requires vectors_len { (length vectors.old ≡ length high.now * count) × Below (field_of q).size vectors.old }
    requires grid_len { (length grid.old ≡ length high.now) × Below (field_of q).size grid.old }
    ensures below { Below (field_of q).size grid.new }
    ensures eliminated { Eliminated (field_of q) (marked high.now) (length high.now) count
        (rows_from (length high.now) 0 vectors.old grid.old) count result
        (rows_from (length high.now) count vectors.new grid.new) }
{
    let n = high.len();
    let mut rank = 0;
    for t in 0..count {
        let left = count - t - 1;
        let at = n * t;
        rank += step(q, left, high, low, top, &mut vectors[at..], grid);
    }
    rank
}

// The same of short blocks, whose vectors have 64 symbols (kept: for speed): one function for all callers, so that the loops are compiled for that number.
pub fn eliminate_short(
    q: u8,
    count: usize,
    high: &[u8; 64],
    vectors: &mut [u8],
    grid: &mut [u8; 64],
) -> usize
    requires q_bound { (64 * half_of q ≤ 256) × (length high.now ≡ 64) × Masks high.now }
    requires vectors_len { (length vectors.old ≡ 64 * count) × Below (field_of q).size vectors.old }
    requires grid_len { (length grid.old ≡ 64) × Below (field_of q).size grid.old }
    ensures below { Below (field_of q).size grid.new × (length grid.new ≡ 64) }
    ensures eliminated { Eliminated (field_of q) (marked high.now) 64 count
        (rows_from 64 0 vectors.old grid.old) count result
        (rows_from 64 count vectors.new grid.new) }
{
    let mut low = [0u8; 256];
    let mut top = [0u8; 256];
    eliminate(q, count, high, &mut low, &mut top, vectors, grid)
}
