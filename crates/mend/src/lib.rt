// The mender of whole words with wrong symbols: it finds the codeword that differs from the word in at most t places.
#![tactic(auto)]

ghost use Rattle.std.specs.Prelude.{true, ◌≡◌, ◌+◌, ◌*◌, ◌≤◌, length};
ghost use Rattle.field.specs.Curve.{IsShort, curve_of};
ghost use Rattle.field.specs.Outcomes.{Done};
ghost use Rattle.mend.specs.Mended.{radius, told, mend_checks, mended};
ghost use Rattle.mend.specs.Inner.Candidates.{OnlyNear};

use code::{check, encoding, term};
use field::{Curve, Outcome, Refusal};
use poly::rows;

pub mod candidate;
pub mod difference;
pub mod locator;
pub mod product;

// 1, 17, 2, 12, 3, 4 and 5.
fn check_call(
    q: u8,
    series: u8,
    m: usize,
    word: &[u8],
    message: usize,
    codeword: usize,
    marks: usize,
) -> Outcome
    ensures { result ≡ mend_checks q series m word.now message codeword marks }
{
    check::order(field::curve::is_short(q), q, series, m)?;
    let curve = Curve::at(q);
    if curve.points - m - 1 < curve.genus {
        return Err(Refusal::NoRadius);
    }
    let k = term::size(q, m);
    check::slices(false, curve.symbols, curve.points, word, k, message)?;
    if codeword != curve.points {
        return Err(Refusal::BadRoom);
    }
    if marks != curve.points {
        return Err(Refusal::BadRoom);
    }
    Ok(())
}

// t
fn radius(q: u8, m: usize) -> usize
    requires { IsShort q × (m + 1 + (curve_of q).genus ≤ q * q * q) }
    ensures { result ≡ radius q m }
{
    let curve = Curve::at(q);
    (curve.points - m - 1 - curve.genus) / 2
}

// Writes the only candidate if its word is near.
fn write_near(
    q: u8,
    series: u8,
    m: u16,
    t: usize,
    word: &[u8],
    candidate: &[u8],
    message: &mut [u8],
    codeword: &mut [u8],
    marks: &mut [u8],
) -> Result<u8, Refusal>
    requires marks_value { mend_checks q series m word.now (length message.old) (length codeword.old) (length marks.old) ≡ Done }
    requires t_value { (t ≡ radius q m) × OnlyNear q series m word.now candidate.now true }
    ensures { mended q series m word.now message.old codeword.old marks.old
        ≡ told result message.new codeword.new marks.new }
{
    let n = word.len();
    let mut near = [0u8; 64];
    encoding::write_word(q, series, m as usize, candidate, &mut near[..n]);
    let count = difference::count(word, &near[..n]);
    if t < count {
        return Err(Refusal::NoneNear);
    }
    rows::copy(candidate.len(), candidate, message);
    rows::copy(n, &near, codeword);
    difference::mark(word, &near[..n], marks);
    Ok(count as u8)
}

// Mends a word that is past the checks.
fn mend_word(
    q: u8,
    series: u8,
    m: u16,
    word: &[u8],
    message: &mut [u8],
    codeword: &mut [u8],
    marks: &mut [u8],
) -> Result<u8, Refusal>
    requires { mend_checks q series m word.now (length message.old) (length codeword.old) (length marks.old) ≡ Done }
    ensures { mended q series m word.now message.old codeword.old marks.old
        ≡ told result message.new codeword.new marks.new }
{
    let t = radius(q, m as usize);
    let k = message.len();
    let mut only = [0u8; 64];
    if candidate::find(q, series, m, t, word, &mut only[..k]) {
        return write_near(q, series, m, t, word, &only[..k], message, codeword, marks);
    }
    Err(Refusal::NoneNear)
}

// The message of the codeword near a word, that codeword, and marks where it differs from the word. Answers how many symbols were changed.
pub fn mend(
    q: u8,
    series: u8,
    m: u16,
    word: &[u8],
    message: &mut [u8],
    codeword: &mut [u8],
    marks: &mut [u8],
) -> Result<u8, Refusal>
    ensures { mended q series m word.now message.old codeword.old marks.old
        ≡ told result message.new codeword.new marks.new }
{
    check_call(
        q,
        series,
        m as usize,
        word,
        message.len(),
        codeword.len(),
        marks.len(),
    )?;
    mend_word(q, series, m, word, message, codeword, marks)
}
