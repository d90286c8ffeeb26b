// Encoding with symbols at chosen places: a payload that is readable without a decoder.
#![tactic(auto)]

ghost use Rattle.std.specs.Prelude.{◌≡◌, length};
ghost use Rattle.field.specs.Outcomes.{Done};
ghost use Rattle.code.specs.Answers.{answered};
ghost use Rattle.systematic.specs.EncodedAt.{encode_at_checks, encoded_at};

use code::{check, term};
use field::{Curve, Outcome, Refusal};

pub mod completion;
pub mod places;
pub mod term_words;

// 1, 17, 2, 15, 3, 4 and 5.
fn check_call(q: u8, series: u8, m: usize, places: &[u16], symbols: &[u8], room: usize) -> Outcome
    ensures { result ≡ encode_at_checks q series m places.now symbols.now room }
{
    check::order(field::curve::is_short(q), q, series, m)?;
    let curve = Curve::at(q);
    let k = term::size(q, m);
    if places::are_good(k, curve.points, places) {
        return check::slices(false, curve.symbols, k, symbols, curve.points, room);
    }
    Err(Refusal::BadPlaces)
}

// The codeword that has the symbols at the places, of a call that is past the checks.
fn write_codeword(
    q: u8,
    series: u8,
    m: usize,
    places: &[u16],
    symbols: &[u8],
    word: &mut [u8],
) -> Outcome
    requires { encode_at_checks q series m places.now symbols.now (length word.old) ≡ Done }
    ensures { encoded_at q series m places.now symbols.now word.old ≡ answered result word.new }
{
    let n = word.len();
    let mut broken = [255u8; 64];
    places::place(places, symbols, &mut broken[..n]);
    completion::complete(q, series, m, &broken[..n], word)
}

// Writes the only codeword that has the symbols at the places, as many as a message has.
pub fn encode_at(
    q: u8,
    series: u8,
    m: u16,
    places: &[u16],
    symbols: &[u8],
    word: &mut [u8],
) -> Outcome
    ensures { encoded_at q series m places.now symbols.now word.old ≡ answered result word.new }
{
    let order = m as usize;
    check_call(q, series, order, places, symbols, word.len())?;
    write_codeword(q, series, order, places, symbols, word)
}
