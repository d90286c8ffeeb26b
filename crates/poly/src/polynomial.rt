// Polynomials in a list, the coefficients of which stand a stride apart, that of x^0 first.
ghost use Rattle.std.specs.Prelude.{◌≡◌, ◌+◌, ◌*◌, ◌≤◌, ◌<◌, length, get_or};
ghost use Rattle.field.proofs.Fields.{field_of};
ghost use Rattle.poly.specs.Inner.Ranges.{Below};
ghost use Rattle.poly.specs.Inner.Linear.{entry};
ghost use Rattle.poly.specs.Inner.Lanes.{lanes};
ghost use Rattle.poly.specs.Inner.Polynomials.{value, Terms};

use crate::lanes;
use field::symbol::Product;

// How many of the coefficients at start, stride + start, 2 * stride + start, .. are left, at least one, without the zeros at the end.
pub fn terms(list: &[u8], start: usize, stride: usize, count: usize) -> usize
    requires { (1 ≤ count) × (start < stride) × (stride * count ≤ length list.now) }
    ensures { Terms (λ i. get_or list.now (stride * i + start) 0) count result }
{
    for i in (1..count).rev() {
        if list[stride * i + start] != 0 {
            return i + 1;
        }
    }
    1
}

// The polynomial with these coefficients at each of sixteen places, by Horner's rule, of one kind of block.
pub fn evaluate<P: Product>(
    q: u8,
    list: &[u8],
    start: usize,
    stride: usize,
    count: usize,
    places: &[u8; 16],
) -> [u8; 16]
    requires blocks { P.takes q }
    requires below { Below (field_of q).size list.now × Below (field_of q).size places.now }
    requires le_count { (1 ≤ count) × (start < stride) × (stride * count ≤ length list.now) }
    ensures { result ≡ lanes (λ t. value (field_of q) count (λ i. get_or list.now (stride * i + start) 0)
        (entry places.now t)) }
{
    let last = count - 1;
    let mut values = [list[stride * last + start]; 16];
    for i in (0..last).rev() {
        values = lanes::step::<P>(q, list[stride * i + start], places, &values);
    }
    values
}
