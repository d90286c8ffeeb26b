// Checking a word without reading it: it is a codeword of order m exactly when, against every codeword of the partner order, the
// place-by-place products add up to 0.
#![tactic(auto)]

ghost use Rattle.std.specs.Prelude.{◌≡◌, ◌<◌};
ghost use Rattle.points.specs.Series.{columns_of};
ghost use Rattle.code.specs.Inner.Readable.{WordOver};
ghost use Rattle.dual.specs.Checked.{is_orthogonal, check_checks, told, checked};

use code::check;
use field::{Curve, Outcome, Refusal};

pub mod term_sums;

// 1, 17, 2, 19, 3 and 4.
fn check_call(q: u8, series: u8, m: usize, word: &[u8]) -> Outcome
    ensures { result ≡ check_checks q series m word.now }
{
    check::order(field::curve::is_curve(q), q, series, m)?;
    let curve = Curve::at(q);
    if m < 2 * curve.genus - 1 {
        return Err(Refusal::LowOrder);
    }
    if word.len() != curve.points {
        return Err(Refusal::BadLength);
    }
    check::values(false, curve.symbols, word)
}

// Whether the products with every codeword of order m add up to 0: with every term of it.
fn is_orthogonal(q: u8, series: u8, m: usize, word: &[u8]) -> bool
    requires { WordOver q (columns_of q series) word.now × (m < 512) }
    ensures { result ≡ is_orthogonal q (columns_of q series) m word.now }
{
    if q == 8 {
        return term_sums::vanish_long(series, m, word);
    }
    term_sums::vanish_short(q, series, m, word)
}

// Whether a word, in the order of the series' points, is that of a message of order m.
pub fn check(q: u8, series: u8, m: u16, word: &[u8]) -> Result<bool, Refusal>
    ensures { checked q series m word.now ≡ told result }
{
    let order = m as usize;
    check_call(q, series, order, word)?;
    let curve = Curve::at(q);
    let partner = curve.points + 2 * curve.genus - 2 - order;
    Ok(is_orthogonal(q, series, partner, word))
}
