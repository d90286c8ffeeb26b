// The checks 1 to 5 and 17 that the entries share.
ghost use Rattle.std.specs.Prelude.{◌≡◌, ◌≤◌, length, true};
ghost use Rattle.field.specs.Curve.{IsCurve};
ghost use Rattle.field.specs.Outcomes.{Done};
ghost use Rattle.field.specs.Values.{bad_value, first_bad, value_check};
ghost use Rattle.code.specs.Checks.{curve_checks, order_checks, slice_checks, call_checks};
ghost use Rattle.code.specs.Inner.Highest.{Highest};

use crate::term;
use field::{Curve, Outcome, Refusal};

// 1 and 17. The call says whether it takes the curve number.
pub fn curve(taken: bool, series: u8) -> Outcome
    ensures { result ≡ curve_checks taken series Done }
{
    if !taken {
        return Err(Refusal::BadCurve);
    }
    if !points::is_series(series) {
        return Err(Refusal::BadSeries);
    }
    Ok(())
}

// 1, 17 and 2.
pub fn order(taken: bool, q: u8, series: u8, m: usize) -> Outcome
    requires { taken ≡ true → IsCurve q }
    ensures { result ≡ order_checks taken q series m Done }
{
    curve(taken, series)?;
    let curve = Curve::at(q);
    if curve.points <= m {
        return Err(Refusal::BadOrder);
    }
    Ok(())
}

fn is_bad(gaps: bool, size: u8, x: u8) -> bool
    ensures { result ≡ bad_value gaps size x }
{
    if x < size {
        return false;
    }
    if gaps {
        return x != 255;
    }
    true
}

// The highest value, or 0 where there are none. Nothing returns from within the loop, so that it becomes vector code (kept: for that).
pub fn highest(values: &[u8]) -> u8
    ensures { Highest values.now (length values.now) result }
{
    let mut high = 0u8;
    for &v in values {
        if high < v {
            high = v;
        }
    }
    high
}

// The lowest index of a value that is no symbol, nor 255 where gaps are allowed; the length where there is none (kept: a number, as the
// definition `first_bad` has it).
pub fn first_bad(gaps: bool, size: u8, values: &[u8]) -> usize
    ensures { result ≡ first_bad (bad_value gaps size) values.now }
{
    if highest(values) < size {
        return values.len();
    }
    for i in 0..values.len() {
        if is_bad(gaps, size, values[i]) {
            return i;
        }
    }
    values.len()
}

// 4, of values whose index has 16 bits.
pub fn values(gaps: bool, size: u8, input: &[u8]) -> Outcome
    requires { length input.now ≤ 65535 }
    ensures { result ≡ value_check gaps size input.now Done }
{
    let bad = first_bad(gaps, size, input);
    if bad < input.len() {
        return Err(Refusal::BadValue(bad as u16));
    }
    Ok(())
}

// 3, 4 and 5.
pub fn slices(
    gaps: bool,
    size: u8,
    takes: usize,
    input: &[u8],
    writes: usize,
    room: usize,
) -> Outcome
    requires { takes ≤ 65535 }
    ensures { result ≡ slice_checks gaps size takes input.now writes room Done }
{
    if input.len() != takes {
        return Err(Refusal::BadLength);
    }
    values(gaps, size, input)?;
    if room != writes {
        return Err(Refusal::BadRoom);
    }
    Ok(())
}

// 1, 17 and 2 to 5, of a call that decodes, which takes a word and writes a message, or encodes. Gaps, which are 255, may be allowed.
// kept: flags, as the definition `call_checks` has them; and q, series and m apart, as in each call of the header (the C interface).
pub fn call(
    taken: bool,
    gaps: bool,
    decodes: bool,
    q: u8,
    series: u8,
    m: usize,
    input: &[u8],
    room: usize,
) -> Outcome
    requires { taken ≡ true → IsCurve q }
    ensures { result ≡ call_checks taken gaps decodes q series m input.now room Done }
{
    order(taken, q, series, m)?;
    let curve = Curve::at(q);
    let k = term::size(q, m);
    if decodes {
        slices(gaps, curve.symbols, curve.points, input, k, room)
    } else {
        slices(gaps, curve.symbols, k, input, curve.points, room)
    }
}
