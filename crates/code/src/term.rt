// The terms x^i·y^j by their weights. Row a is the numbers from q·a to q·a + q − 1: below row q it begins with a + 1 weights of terms and
// has no others; from row q − 1 on, which begins at 2g, every number is a weight.
ghost use Rattle.std.specs.Prelude.{◌≡◌, ℕ, ◌/◌, ◌%◌, ◌^◌, ◌≤◌, ◌<◌, length, get_or};
ghost use Rattle.field.specs.Curve.{IsCurve, curve_of};
ghost use Rattle.poly.specs.Inner.Ranges.{writes};
ghost use Rattle.code.specs.Terms.{size};
ghost use Rattle.code.specs.Inner.Grid.{WeightOfTerm, entries_of};

use field::Curve;

#[derive(Clone, Copy)]
pub struct Quotient {
    pub whole: usize,
    pub rest: usize,
}

// q = 2^bits.
fn bits(q: u8) -> u32
    requires { IsCurve q }
    ensures { (2 ^ result ≡ q) × (result < 8) }
{
    (q / 4 + 1) as u32
}

// w divided by q, with its remainder: by a shift and a mask.
pub fn divide(q: u8, w: usize) -> Quotient
    requires { IsCurve q }
    ensures { (result.whole ≡ w / q) × (result.rest ≡ w % q) }
{
    let mask = (q as usize) - 1;
    Quotient {
        whole: w >> bits(q),
        rest: w & mask,
    }
}

// How many terms the order m has: k.
pub fn size(q: u8, m: usize) -> usize
    requires { IsCurve q }
    ensures { result ≡ size q m }
{
    let curve = Curve::at(q);
    if 2 * curve.genus - 1 <= m {
        return m - curve.genus + 1;
    }
    let d = divide(q, m);
    let before = d.whole * (d.whole + 1) / 2;
    if d.rest < d.whole {
        before + d.rest + 1
    } else {
        before + d.whole + 1
    }
}

// The weight of term n, for an n below the genus: term n is in the row that the terms before it fill up.
fn low_weight(q: u8, n: usize) -> usize
    requires { IsCurve q × (n < (curve_of q).genus) }
    ensures { WeightOfTerm q n result }
{
    let width = q as usize;
    let mut row = 0;
    let mut before = 0;
    // kept: the loop ends by the number of terms before the row; a `for` would need a bound on the rows, and a way out.
    while before + row < n {
        row += 1;
        before += row;
    }
    width * row + (n - before)
}

// The weight of term n, the terms being counted from 0 by ascending weight.
fn weight(q: u8, n: usize) -> usize
    requires { IsCurve q × (n < 2 ^ 63) }
    ensures { WeightOfTerm q n result }
{
    let curve = Curve::at(q);
    if curve.genus <= n {
        return n + curve.genus;
    }
    low_weight(q, n)
}

// The entry of term n, x^i·y^j, in a grid: q·i + j, which is q·j less than its weight.
pub fn entry(q: u8, n: usize) -> usize
    requires { IsCurve q × (n < 2 ^ 63) }
    ensures { (m : ℕ) → n < size q m → result ≡ get_or (entries_of q m) n 0 }
{
    let width = q as usize;
    let w = weight(q, n);
    let d = divide(q, w);
    w - width * d.rest
}

// Writes the entries of the terms of the order m, by ascending weight.
pub fn entries(q: u8, m: usize, list: &mut [u16])
    requires { IsCurve q × (m < 512) × (size q m ≤ length list.old) }
    ensures { list.new ≡ writes list.old (size q m) (λ n. get_or (entries_of q m) n 0) }
{
    let k = size(q, m);
    for n in 0..k {
        list[n] = entry(q, n) as u16;
    }
}
