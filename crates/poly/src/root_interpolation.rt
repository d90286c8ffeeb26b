// Interpolation in closed form at u different roots of x^u + x + a, whose derivative is 1: coefficient i is the sum of the values times
// their places to the power u - 1 - i, and the sum of the values is added to the first.
ghost use Rattle.std.specs.Prelude.{length};
ghost use Rattle.field.proofs.Fields.{field_of};
ghost use Rattle.poly.specs.Inner.RootInterpolation.{Summable, PowersSummed, TrinomialRoots, RootInterpolated};

use crate::lanes;

// row[i] = the sum of values[s]·places[s]^(u - 1 - i), for each i below u, the number of values.
fn sum_powers(q: u8, places: &[u8; 16], values: &[u8], row: &mut [u8])
    requires { Summable (field_of q) places.now values.now row.old }
    ensures { PowersSummed (field_of q) places.now values.now row.old row.new 0 }
{
    let mut v = lanes::load(values);
    let last = values.len() - 1;
    row[last] = lanes::sum(&v);
    for i in (0..last).rev() {
        v = lanes::multiply(q, places, &v);
        row[i] = lanes::sum(&v);
    }
}

// The polynomial that takes the values at the first places, roots of x^u + x + a.
pub fn interpolate(q: u8, places: &[u8; 16], values: &[u8], row: &mut [u8])
    requires { Summable (field_of q) places.now values.now row.old × TrinomialRoots (field_of q) (length values.now) places.now }
    ensures { RootInterpolated (field_of q) places.now values.now row.old row.new }
{
    sum_powers(q, places, values, row);
    row[0] = row[0] ^ row[values.len() - 1];
}
