// What is asked of the arguments of an opening, and of a job of any bytes.
ghost use Rattle.std.specs.Prelude.{true, ◌↔◌, ◌≡◌, ℕ, ◌<◌, length, take};
ghost use Rattle.field.specs.Curve.{IsShort};
ghost use Rattle.code.specs.Terms.{size};
ghost use Rattle.job.specs.Opened.{open_checks};
ghost use Rattle.job.specs.Inner.Bringing.{Usable, Tested};

use crate::work;
use code::{check, term};
use field::{Curve, Outcome};

// Checks 1, 17 and 2 to 4.
pub fn opening(q: u8, series: u8, m: u16, word: &[u8]) -> Outcome
    ensures { result ≡ open_checks q series m word.now }
{
    let order = m as usize;
    let taken = field::curve::is_short(q);
    check::order(taken, q, series, order)?;
    check::call(
        taken,
        true,
        true,
        q,
        series,
        order,
        word,
        term::size(q, order),
    )
}

// Whether what a job holds besides its word may be read: nothing after a clash, a message once its rows are complete, else a
// system.
fn is_formed(
    q: u8,
    k: usize,
    complete: bool,
    clash: bool,
    candidate: &[u8],
    work: &[u8; 4096],
) -> bool
    requires { IsShort q × (k < 64) × (length candidate.now ≡ 64) }
    ensures { (m : ℕ) → k ≡ size q m → (result ≡ true) ↔ Usable q m work.now (take k candidate.now) complete clash }
{
    if clash {
        return true;
    }
    if complete {
        return check::first_bad(false, q * q, &candidate[..k]) == k;
    }
    work::formed(q, k, work)
}

// Whether a job of any bytes may be carried on.
pub fn usable(
    q: u8,
    series: u8,
    m: u16,
    next: usize,
    complete: bool,
    clash: bool,
    places: &[u8],
    candidate: &[u8],
    work: &[u8; 4096],
) -> bool
    requires { (length places.now ≡ 64) × (length candidate.now ≡ 64) }
    ensures { (result ≡ true) ↔ Tested q series m places.now next work.now candidate.now complete clash }
{
    if !field::curve::is_short(q) {
        return false;
    }
    let curve = Curve::at(q);
    let n = curve.points;
    if opening(q, series, m, &places[..n]).is_err() {
        return false;
    }
    if n < next {
        return false;
    }
    is_formed(
        q,
        term::size(q, m as usize),
        complete,
        clash,
        candidate,
        work,
    )
}
