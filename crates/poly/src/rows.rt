// Rows of symbols.
ghost use Rattle.std.specs.Prelude.{◌≡◌, ℕ, ◌*◌, ◌≤◌, ◌<◌, length};
ghost use Rattle.field.proofs.Fields.{field_of};
ghost use Rattle.poly.specs.Inner.Linear.{entry};
ghost use Rattle.poly.specs.Inner.Rows.{added, summed, scaled, stored};

use crate::lanes;
use field::symbol::{LongBlocks, Product, ShortBlocks};

// dst[j] += c * src[j] for each j below 16 times blocks, sixteen at a time, of short blocks.
pub fn add_scaled(q: u8, c: u8, blocks: usize, src: &[u8], dst: &mut [u8])
    requires blocks_in_bounds { (16 * blocks ≤ length src.now) × (16 * blocks ≤ length dst.old) }
    requires c_bound { (c < (field_of q).size) × ((j : ℕ) → j < 16 * blocks → entry src.now j < (field_of q).size) × (q ≡ 8 → ⊥) }
    ensures { dst.new ≡ added (field_of q) c (16 * blocks) src.now dst.old }
{
    for at in (0..16 * blocks).step_by(16) {
        let end = at + 16;
        let a = lanes::take(dst, at);
        let b = lanes::take(src, at);
        let sum = lanes::add_scaled(q, c, &a, &b);
        copy(16, &sum, &mut dst[at..end]);
    }
}

// dst[j] += c * src[j] for each j below n, of long blocks.
// kept: beside `add_scaled`, which goes sixteen at a time, since n is any number here.
pub fn add_scaled_long(c: u8, n: usize, src: &[u8], dst: &mut [u8])
    requires n_in_bounds { (n ≤ length src.now) × (n ≤ length dst.old) }
    requires c_bound { (c < (field_of 8).size) × ((j : ℕ) → j < n → entry src.now j < (field_of 8).size) }
    ensures { dst.new ≡ added (field_of 8) c n src.now dst.old }
{
    for j in 0..n {
        dst[j] = dst[j] ^ LongBlocks::times(8, src[j], c);
    }
}

// dst[j] += src[j] for each j below n.
pub fn add(n: usize, src: &[u8], dst: &mut [u8])
    requires { (n ≤ length src.now) × (n ≤ length dst.old) }
    ensures { dst.new ≡ summed n src.now dst.old }
{
    for j in 0..n {
        dst[j] = dst[j] ^ src[j];
    }
}

// row[j] *= c for each j below n, of short blocks.
pub fn scale(q: u8, c: u8, n: usize, row: &mut [u8])
    requires n_in_bounds { n ≤ length row.old }
    requires c_bound { (c < (field_of q).size) × ((j : ℕ) → j < n → entry row.old j < (field_of q).size) × (q ≡ 8 → ⊥) }
    ensures { row.new ≡ scaled (field_of q) c n row.old }
{
    for x in &mut row[..n] {
        *x = ShortBlocks::times(q, c, *x);
    }
}

// dst[j] = src[j] for each j below n.
pub fn copy(n: usize, src: &[u8], dst: &mut [u8])
    requires { (n ≤ length src.now) × (n ≤ length dst.old) }
    ensures { dst.new ≡ stored n src.now dst.old }
{
    // kept: with `copy_from_slice` converting takes 1.5 times as long, and encoding at places 1.03 times.
    for j in 0..n {
        dst[j] = src[j];
    }
}
