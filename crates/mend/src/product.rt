// The products of a word with the terms x^i·y^j, as grids: entry e of a grid is the coefficient of x^(e / q)·y^(e % q).
ghost use Rattle.std.specs.Prelude.{◌≡◌, ℕ, ◌*◌, ◌/◌, ◌%◌, ◌≤◌, ◌<◌, length, replicate};
ghost use Rattle.field.specs.Curve.{IsShort};
ghost use Rattle.field.proofs.Fields.{field_of};
ghost use Rattle.poly.specs.Inner.Linear.{entry};
ghost use Rattle.poly.specs.Inner.Ranges.{Below, writes};
ghost use Rattle.points.specs.Series.{columns_of};
ghost use Rattle.mend.specs.Inner.Products.{TimesX, top, turned, times_y_at, Multiples, Products};

use code::{term, unencoding};
use poly::rows;

// x times the polynomial of a grid of n entries.
fn times_x(q: u8, n: usize, grid: &[u8]) -> [u8; 64]
    requires { IsShort q × (n ≡ q * q * q) × (n ≤ length grid.now) × Below (field_of q).size grid.now }
    ensures { TimesX q n grid.now result }
{
    let width = q as usize;
    let last = n - width;
    let mut r = [0u8; 64];
    rows::copy(last, grid, &mut r[width..]);
    rows::add(width, &grid[last..n], &mut r[width..]);
    r
}

// The coefficient of x^i·y^(q - 1).
fn top(q: u8, grid: &[u8], i: usize) -> u8
    requires { IsShort q × (i < q * q) × (q * q * q ≤ length grid.now) }
    ensures { result ≡ top q grid.now i }
{
    let width = q as usize;
    grid[width * i + (width - 1)]
}

// The coefficient of x^i in x^(q + 1) times the polynomial that stands before y^(q - 1).
fn turned(q: u8, grid: &[u8], i: usize) -> u8
    requires { IsShort q × (i < q * q) × (q * q * q ≤ length grid.now) }
    ensures { result ≡ turned q grid.now i }
{
    let width = q as usize;
    let columns = width * width;
    if i == 0 {
        0
    } else if i < width + 1 {
        top(q, grid, columns - (width + 2) + i)
    } else if i == width + 1 {
        top(q, grid, 0) ^ top(q, grid, columns - 1)
    } else {
        top(q, grid, i - (width + 1))
    }
}

// The coefficient of x^i·y^j in y times the polynomial of a grid.
fn times_y_at(q: u8, grid: &[u8], i: usize, j: usize) -> u8
    requires { IsShort q × (i < q * q) × (j < q) × (q * q * q ≤ length grid.now) }
    ensures { result ≡ times_y_at q grid.now i j }
{
    let row = (q as usize) * i;
    if j == 0 {
        turned(q, grid, i)
    } else if j == 1 {
        grid[row] ^ top(q, grid, i)
    } else {
        grid[row + (j - 1)]
    }
}

// y times the polynomial of a grid of n entries.
fn times_y(q: u8, n: usize, grid: &[u8]) -> [u8; 64]
    requires { IsShort q × (n ≡ q * q * q) × (n ≤ length grid.now) }
    ensures { result ≡ writes (replicate 64 0) n (λ e. times_y_at q grid.now (e / q) (e % q)) }
{
    let mut r = [0u8; 64];
    for e in 0..n {
        let d = term::divide(q, e);
        r[e] = times_y_at(q, grid, d.whole, d.rest);
    }
    r
}

// The grids of x^0, x^1, .. times the polynomial of the first.
fn write_multiples(q: u8, n: usize, count: usize, first: &[u8], out: &mut [u8])
    requires { IsShort q × (n ≡ q * q * q) × (length first.now ≡ 64) × Below (field_of q).size first.now × (length out.old ≡ 64 * count) }
    ensures { (series : ℕ) → Multiples q (columns_of q series) first.now out.new count }
{
    let mut grid = [0u8; 64];
    rows::copy(64, first, &mut grid);
    let mut at = 0;
    for i in 0..count {
        let end = at + 64;
        rows::copy(64, &grid, &mut out[at..end]);
        grid = times_x(q, n, &grid);
        at = end;
    }
}

// The grids of x^i·y^j times the word, for each j below q and each i below count.
pub fn write_products(q: u8, series: u8, count: usize, word: &[u8], grids: &mut [u8])
    requires short { IsShort q × (length word.now ≡ q * q * q) × Below (field_of q).size word.now }
    requires q_in_bounds { 64 * count * q ≤ length grids.old }
    ensures { Products q (columns_of q series) word.now count grids.new q }
{
    let n = word.len();
    let width = q as usize;
    let part = 64 * count;
    let mut grid = unencoding::interpolate_short(q, series, word);
    let mut at = 0;
    for j in 0..width {
        let end = at + part;
        write_multiples(q, n, count, &grid, &mut grids[at..end]);
        grid = times_y(q, n, &grid);
        at = end;
    }
}
