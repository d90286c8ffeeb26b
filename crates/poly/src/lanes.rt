// Sixteen symbols at once. Each loop has sixteen turns, and becomes vector code.
ghost use Rattle.std.specs.Prelude.{◌≡◌, ◌+◌, ◌≤◌, ◌<◌, length, get_or};
ghost use Rattle.field.specs.Plus.{plus};
ghost use Rattle.field.specs.Sum.{sum};
ghost use Rattle.field.proofs.Fields.{field_of};
ghost use Rattle.poly.specs.Inner.Ranges.{Below};
ghost use Rattle.poly.specs.Inner.Linear.{entry};
ghost use Rattle.poly.specs.Inner.Rows.{stored};
ghost use Rattle.poly.specs.Inner.Lanes.{lanes};

use crate::rows;
use field::symbol::{LongBlocks, Product, ShortBlocks};

// Sixteen elements from at on.
// kept: by a loop of sixteen turns, which becomes one load.
pub fn take(list: &[u8], at: usize) -> [u8; 16]
    requires { at + 16 ≤ length list.now }
    ensures { result ≡ lanes (λ t. get_or list.now (at + t) 0) }
{
    let mut r = [0u8; 16];
    for t in 0..16 {
        r[t] = list[at + t];
    }
    r
}

fn load_four(list: &[u8]) -> [u8; 16]
    requires { length list.now ≡ 4 }
    ensures { result ≡ lanes (entry list.now) }
{
    let mut r = [0u8; 16];
    r[0] = list[0];
    r[1] = list[1];
    r[2] = list[2];
    r[3] = list[3];
    r
}

fn load_few(list: &[u8]) -> [u8; 16]
    requires { length list.now ≤ 16 }
    ensures { result ≡ lanes (entry list.now) }
{
    let mut r = [0u8; 16];
    rows::copy(list.len(), list, &mut r);
    r
}

// The elements of a list, and zeros. Four, as the strap's columns have, are loaded, and stored below, without a loop.
// kept: a loop, or a copy by a length, takes longer for so few.
pub fn load(list: &[u8]) -> [u8; 16]
    requires { length list.now ≤ 16 }
    ensures { result ≡ lanes (entry list.now) }
{
    if list.len() == 4 {
        return load_four(list);
    }
    load_few(list)
}

fn store_four(a: &[u8; 16], out: &mut [u8])
    requires { length out.old ≡ 4 }
    ensures { out.new ≡ stored (length out.old) a.now out.old }
{
    out[0] = a[0];
    out[1] = a[1];
    out[2] = a[2];
    out[3] = a[3];
}

// The elements of out become the first of the lanes.
pub fn store(a: &[u8; 16], out: &mut [u8])
    requires { length out.old ≤ 16 }
    ensures { out.new ≡ stored (length out.old) a.now out.old }
{
    if out.len() == 4 {
        store_four(a, out);
    } else {
        rows::copy(out.len(), a, out);
    }
}

// The sum of all lanes.
pub fn sum(a: &[u8; 16]) -> u8
    ensures { result ≡ sum 16 (entry a.now) }
{
    let mut r = 0u8;
    for t in 0..16 {
        r = r ^ a[t];
    }
    r
}

// a + b
pub fn plus(a: &[u8; 16], b: &[u8; 16]) -> [u8; 16]
    ensures { result ≡ lanes (λ t. plus (entry a.now t) (entry b.now t)) }
{
    let mut r = [0u8; 16];
    for t in 0..16 {
        r[t] = a[t] ^ b[t];
    }
    r
}

// a * b, lane by lane, of one kind of block
pub fn multiply_in<P: Product>(q: u8, a: &[u8; 16], b: &[u8; 16]) -> [u8; 16]
    requires blocks { P.takes q }
    requires symbols { Below (field_of q).size a.now × Below (field_of q).size b.now }
    ensures { result ≡ lanes (λ t. (field_of q).times (entry a.now t) (entry b.now t)) }
{
    let mut r = [0u8; 16];
    for t in 0..16 {
        r[t] = P::times(q, a[t], b[t]);
    }
    r
}

// a * b, lane by lane
#[inline]
pub fn multiply(q: u8, a: &[u8; 16], b: &[u8; 16]) -> [u8; 16]
    requires { Below (field_of q).size a.now × Below (field_of q).size b.now }
    ensures { result ≡ lanes (λ t. (field_of q).times (entry a.now t) (entry b.now t)) }
{
    if q == 8 {
        return multiply_in::<LongBlocks>(q, a, b);
    }
    multiply_in::<ShortBlocks>(q, a, b)
}

// z * a
pub fn times_z(q: u8, a: &[u8; 16]) -> [u8; 16]
    requires { Below (field_of q).size a.now }
    ensures { result ≡ lanes (λ t. (field_of q).times 2 (entry a.now t)) }
{
    let mut r = [0u8; 16];
    for t in 0..16 {
        r[t] = field::symbol::times_z(q, a[t]);
    }
    r
}

// a * c
pub fn scale(q: u8, c: u8, a: &[u8; 16]) -> [u8; 16]
    requires { (c < (field_of q).size) × Below (field_of q).size a.now }
    ensures { result ≡ lanes (λ t. (field_of q).times (entry a.now t) c) }
{
    let factor = [c; 16];
    multiply(q, a, &factor)
}

// a + b * c, of short blocks
pub fn add_scaled(q: u8, c: u8, a: &[u8; 16], b: &[u8; 16]) -> [u8; 16]
    requires { (c < (field_of q).size) × Below (field_of q).size b.now × (q ≡ 8 → ⊥) }
    ensures { result ≡ lanes (λ t. plus (entry a.now t) ((field_of q).times (entry b.now t) c)) }
{
    let factor = [c; 16];
    let mut r = [0u8; 16];
    for t in 0..16 {
        r[t] = a[t] ^ ShortBlocks::times(q, b[t], factor[t]);
    }
    r
}

// Horner's step, of one kind of block: a * b, and c in every lane.
pub fn step<P: Product>(q: u8, c: u8, a: &[u8; 16], b: &[u8; 16]) -> [u8; 16]
    requires blocks { P.takes q }
    requires symbols { Below (field_of q).size a.now × Below (field_of q).size b.now }
    ensures { result ≡ lanes (λ t. plus ((field_of q).times (entry a.now t) (entry b.now t)) c) }
{
    let mut r = [0u8; 16];
    for t in 0..16 {
        r[t] = P::times(q, a[t], b[t]) ^ c;
    }
    r
}
