// Messages laid out as grids: entry e is the coefficient of x^(e / q)·y^(e % q).
ghost use Rattle.std.specs.Prelude.{◌≡◌, ℕ, ◌≤◌, ◌<◌, length, get_or, replicate};
ghost use Rattle.field.specs.Curve.{IsCurve};
ghost use Rattle.poly.specs.Inner.Ranges.{writes};
ghost use Rattle.code.specs.Terms.{size};
ghost use Rattle.code.specs.Inner.Grid.{listed, scatter, gather, order_at_most};

use crate::{check, term};
use field::Curve;

// Lays a message out in a grid of zeros.
pub fn scatter(q: u8, m: usize, message: &[u8], grid: &mut [u8])
    requires curve { IsCurve q × (m < length grid.old) × (length message.now ≡ size q m) }
    requires grid_value { grid.old ≡ replicate (length grid.old) 0 }
    ensures { grid.new ≡ scatter q (length grid.old) m message.now }
{
    for n in 0..message.len() {
        let e = term::entry(q, n);
        grid[e] = message[n];
    }
}

// The message of a grid.
pub fn gather(q: u8, m: usize, grid: &[u8], message: &mut [u8])
    requires { IsCurve q × (m < length grid.now) × (length message.old ≡ size q m) }
    ensures { message.new ≡ gather q m grid.now }
{
    for n in 0..message.len() {
        let e = term::entry(q, n);
        message[n] = grid[e];
    }
}

// The coefficients of a grid at the entries of a list.
pub fn gather_listed(entries: &[u16], grid: &[u8], out: &mut [u8])
    requires entries_in_bounds { length entries.now ≤ length out.old }
    requires by_index { (n : ℕ) → n < length entries.now → get_or entries.now n 0 < length grid.now }
    ensures { out.new ≡ writes out.old (length entries.now)
        (listed entries.now grid.now) }
{
    for n in 0..entries.len() {
        let e = entries[n] as usize;
        out[n] = grid[e];
    }
}

// Whether a grid has no coefficient of a weight above m. The weight of entry e is at least e and less than e + q·q, so that the first
// entries need no test and all after entry m have to be 0.
pub fn order_at_most(q: u8, m: usize, grid: &[u8]) -> bool
    requires { IsCurve q × (length grid.now ≤ 512) }
    ensures { result ≡ order_at_most q m (length grid.now) grid.now }
{
    let curve = Curve::at(q);
    let more = curve.symbols as usize;
    for e in if more <= m { m - more } else { 0 }..grid.len() {
        if m < e {
            return check::highest(&grid[e..]) == 0;
        }
        let d = term::divide(q, e);
        if m < curve.weight_x * d.whole + curve.weight_y * d.rest {
            if grid[e] != 0 {
                return false;
            }
        }
    }
    true
}
