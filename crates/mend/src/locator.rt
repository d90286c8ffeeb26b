// Locators: a polynomial f of order s = t + g, not 0, whose product with the word is a word of order m + s. It is 0 wherever the word is
// wrong.
ghost use Rattle.std.specs.Prelude.{◌≡◌, ℕ, ◌+◌, ◌*◌, ◌≤◌, ◌<◌, length, get_or};
ghost use Rattle.field.specs.Curve.{IsShort};
ghost use Rattle.field.proofs.Fields.{field_of};
ghost use Rattle.poly.specs.Inner.Linear.{entry};
ghost use Rattle.linear.specs.Inner.Systems.{flat, Satisfies, WellFormed};
ghost use Rattle.code.specs.Terms.{size};
ghost use Rattle.mend.specs.Inner.Products.{Starts, entry_from, grid_from};
ghost use Rattle.mend.specs.Inner.Locating.{reach, Mendable, HoldsMore, HoldsHeavy};
ghost use Rattle.mend.specs.Inner.Candidates.{Located};

use crate::product;
use code::{grid, term};
use field::Curve;
use linear::system;

// Where the grid of each term of order s starts, those of x^0·y^j, x^1·y^j, .. being count blocks of 64 for each j.
fn write_starts(q: u8, s: usize, count: usize, starts: &mut [u16])
    requires { IsShort q × (s < 64) × (count ≤ 16) × (size q s ≤ length starts.old) }
    ensures { Starts q s count starts.new }
{
    let k = term::size(q, s);
    for n in 0..k {
        let e = term::entry(q, n);
        let d = term::divide(q, e);
        starts[n] = (64 * count * d.rest + 64 * d.whole) as u16;
    }
}

// Brings in the equation that entry e of f times the word is 0.
fn bring_entry(q: u8, starts: &[u16], grids: &[u8], e: usize, work: &mut [u8])
    requires well_formed { WellFormed (field_of q) 32 (length starts.now) work.old
        × Satisfies (field_of q) (length starts.now) (flat 32 (length starts.now) work.old) (λ j. 0) × (q ≡ 8 → ⊥) }
    requires e_in_bounds { e ≤ length grids.now }
    requires by_index { (n : ℕ) → n < length starts.now
        → (get_or starts.now n 0 + e < length grids.now) × (entry_from starts.now grids.now e n < (field_of q).size) }
    ensures well_formed_2 { WellFormed (field_of q) 32 (length starts.now) work.new }
    ensures holds_more { HoldsMore q 32 (length starts.now) work.old (entry_from starts.now grids.now e)
        work.new }
{
    let mut row = [0u8; 32];
    grid::gather_listed(starts, &grids[e..], &mut row);
    let k = starts.len();
    system::bring_in(q, 32, k / 16 + 1, k, work, &mut row);
}

// Brings in those of all entries of a weight above m + s.
fn bring_entries(q: u8, m: usize, s: usize, n: usize, starts: &[u16], grids: &[u8], work: &mut [u8])
    requires short { IsShort q × (n ≡ q * q * q) × (m + s < n) × (length starts.now ≡ size q s) × (size q s < 32) × (n ≤ length grids.now) }
    requires by_index { (i e : ℕ) → i < size q s → e < n
        → (get_or starts.now i 0 + e < length grids.now) × (entry_from starts.now grids.now e i < (field_of q).size) }
    requires work_len { (length work.old ≡ 32 * 32) × ((i : ℕ) → entry work.old i ≡ 0) }
    ensures { HoldsHeavy q m s 32 (grid_from n starts.now grids.now) work.new n }
{
    let curve = Curve::at(q);
    for e in 0..n {
        let d = term::divide(q, e);
        if m + s < curve.weight_x * d.whole + curve.weight_y * d.rest {
            bring_entry(q, starts, grids, e, work);
        }
    }
}

// A locator, if there is one.
pub fn find(q: u8, series: u8, m: usize, s: usize, word: &[u8], f: &mut [u8]) -> bool
    requires { Mendable q series m word.now × (s ≡ reach q m) × (length f.old ≡ size q s) }
    ensures { Located q series m word.now f.new result }
{
    let n = word.len();
    let k = f.len();
    let d = term::divide(q, s);
    let count = d.whole + 1;
    let mut grids = [0u8; 2304];
    product::write_products(q, series, count, word, &mut grids);
    let mut starts = [0u16; 32];
    write_starts(q, s, count, &mut starts);
    let mut work = [0u8; 1024];
    bring_entries(q, m, s, n, &starts[..k], &grids, &mut work);
    system::solve_nonzero(q, 32, k / 16 + 1, k, &mut work, f)
}
