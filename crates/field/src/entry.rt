// The public entries of the field: sum, product and inverse of any two bytes, at any curve number.
ghost use Rattle.std.specs.Prelude.{[], ◌∷◌, ◌≡◌};
ghost use Rattle.field.specs.Outcomes.{Done};
ghost use Rattle.field.specs.Entries.{told, field_checks, sum_answer, product_answer, inverse_answer};

use crate::curve::Curve;
use crate::outcome::{Outcome, Refusal};
use crate::symbol;

// Whether q is a curve's number and a and b are its symbols; a and b are the operands 0 and 1.
fn check(q: u8, a: u8, b: u8) -> Outcome
    ensures { result ≡ field_checks q (a ∷ b ∷ []) Done }
{
    let curve = Curve::of(q).ok_or(Refusal::BadCurve)?;
    if curve.symbols <= a {
        Err(Refusal::BadValue(0))
    } else if curve.symbols <= b {
        Err(Refusal::BadValue(1))
    } else {
        Ok(())
    }
}

pub fn sum(q: u8, a: u8, b: u8) -> Result<u8, Refusal>
    ensures { sum_answer q a b ≡ told result }
{
    check(q, a, b)?;
    Ok(symbol::plus(a, b))
}

pub fn product(q: u8, a: u8, b: u8) -> Result<u8, Refusal>
    ensures { product_answer q a b ≡ told result }
{
    check(q, a, b)?;
    Ok(symbol::times(q, a, b))
}

pub fn inverse(q: u8, a: u8) -> Result<u8, Refusal>
    ensures { inverse_answer q a ≡ told result }
{
    check(q, a, 0)?;
    if a == 0 {
        return Err(Refusal::InverseOfZero);
    }
    Ok(symbol::inverse(q, a))
}
