// The equations that the symbols of a short block's broken word give, in the unknown symbols of its message, brought one by one into a linear system.
#![tactic(auto)]

ghost use Rattle.std.specs.Prelude.{◌≡◌, ◌*◌, ◌≤◌, ◌<◌, length};
ghost use Rattle.field.specs.Curve.{IsShort};
ghost use Rattle.field.specs.Power.{power};
ghost use Rattle.field.proofs.Fields.{field_of};
ghost use Rattle.poly.specs.Inner.Ranges.{writes, Blocks};
ghost use Rattle.linear.specs.Inner.Systems.{WellFormed, Brought};
ghost use Rattle.points.specs.Inner.Columns.{Columns};
ghost use Rattle.code.specs.Terms.{size};
ghost use Rattle.code.specs.Inner.Grid.{entries_of};
ghost use Rattle.code.specs.Inner.Rows.{term_at};
ghost use Rattle.equations.specs.Inner.Collecting.{equation_of, EquationAt, Advanced};

use code::{grid, term};
use linear::system;
use linear::system::Effect;
use poly::rows;

// x^0, x^1, .., one for each element of out.
fn powers(q: u8, x: u8, out: &mut [u8])
    requires { x < (field_of q).size }
    ensures { out.new ≡ writes out.old (length out.old) (power (field_of q) x) }
{
    let mut next = 1u8;
    for entry in out.iter_mut() {
        *entry = next;
        next = field::symbol::times(q, x, next);
    }
}

// The terms at the point (x, y), laid out as a grid of n rows: x^i·y^j at q * i + j.
fn monomials(q: u8, x: u8, y: u8, n: usize, grid: &mut [u8])
    requires short { IsShort q × (q * n ≤ length grid.old) }
    requires x_bound { (x < (field_of q).size) × (y < (field_of q).size) }
    ensures { Blocks q (term_at q x y) grid.new n }
{
    let width = q as usize;
    let mut row = [0u8; 4];
    powers(q, y, &mut row);
    for i in 0..n {
        let at = i * width;
        grid[at..at + width].copy_from_slice(&row[..width]);
        rows::scale(q, x, width, &mut row);
    }
}

// The equation of the symbol s at the point (x, y): the values of the terms there, whose entries in a grid are lent, and s.
fn write_equation(q: u8, m: usize, entries: &[u16], x: u8, y: u8, s: u8, row: &mut [u8])
    requires short { IsShort q × (m < q * 16) × (entries.now ≡ entries_of q m) × (size q m < length row.old) }
    requires x_bound { (x < (field_of q).size) × (y < (field_of q).size) }
    ensures { EquationAt q m x y s row.new }
{
    let mut grid = [0u8; 64];
    let last = term::divide(q, m);
    let n = last.whole + 1;
    monomials(q, x, y, n, &mut grid);
    grid::gather_listed(entries, &grid, row);
    let k = entries.len();
    row[k] = s;
}

// Brings in the symbol s of place p.
fn bring_place(
    q: u8,
    columns: &[u8],
    m: usize,
    entries: &[u16],
    p: usize,
    s: u8,
    work: &mut [u8],
) -> Effect
    requires columns { Columns q columns.now × (p < q * length columns.now) × (m < q * 16) × (entries.now ≡ entries_of q m) × (s < (field_of q).size) × IsShort q }
    requires well_formed { WellFormed (field_of q) 64 (size q m) work.old }
    ensures well_formed_2 { WellFormed (field_of q) 64 (size q m) work.new }
    ensures brought { Brought (field_of q) 64 (size q m) work.old (equation_of q columns.now m p s) work.new result }
{
    let d = term::divide(q, p);
    let t = d.whole;
    let x = columns[t];
    let ys = points::ys(q);
    let at = (q as usize) * (x as usize) + d.rest;
    let y = ys[at];
    let mut row = [0u8; 64];
    write_equation(q, m, entries, x, y, s, &mut row);
    let k = entries.len();
    system::bring_in(q, 64, k / 16 + 1, k, work, &mut row)
}

// Brings in what stands at place p: 255 brings nothing. The rows of the system after it, or none where it contradicts the others.
pub fn step(
    q: u8,
    columns: &[u8],
    m: usize,
    entries: &[u16],
    p: usize,
    s: u8,
    rank: usize,
    work: &mut [u8],
) -> Option<usize>
    requires columns { Columns q columns.now × (p < q * length columns.now) × (m < q * 16) × (entries.now ≡ entries_of q m) × (rank < 64) × IsShort q }
    requires s_bound { (s ≡ 255 → ⊥) → s < (field_of q).size }
    requires well_formed { WellFormed (field_of q) 64 (size q m) work.old }
    ensures { Advanced q columns.now m p s rank work.old work.new result }
{
    if s == 255 {
        return Some(rank);
    }
    match bring_place(q, columns, m, entries, p, s, work) {
        Effect::Pivot => Some(rank + 1),
        Effect::Redundant => Some(rank),
        Effect::Contradiction => None,
    }
}
