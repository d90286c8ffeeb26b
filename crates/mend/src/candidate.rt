// The only message whose word can be near.
ghost use Rattle.std.specs.Prelude.{◌≡◌, length};
ghost use Rattle.poly.specs.Inner.Ranges.{writes};
ghost use Rattle.code.specs.Terms.{size};
ghost use Rattle.mend.specs.Mended.{radius};
ghost use Rattle.mend.specs.Inner.Locating.{reach, erased_at, Mendable, Locator};
ghost use Rattle.mend.specs.Inner.Candidates.{OnlyNear};

use crate::locator;
use code::{encoding, term, unencoding};
use field::Curve;

// The word's symbols, and 255 wherever located is 0, in the place of located.
fn erase(word: &[u8], located: &mut [u8])
    requires { length located.old ≡ length word.now }
    ensures { located.new
        ≡ writes located.old (length word.now) (erased_at word.now located.old) }
{
    for p in 0..word.len() {
        located[p] = if located[p] == 0 { 255 } else { word[p] };
    }
}

// The message that alone fits the symbols where the locator isn't 0.
fn read_rest(
    q: u8,
    series: u8,
    m: u16,
    s: u16,
    word: &[u8],
    locator: &[u8],
    message: &mut [u8],
) -> bool
    requires { Mendable q series m word.now × (s ≡ reach q m) × Locator q series m word.now locator.now × (length message.old ≡ size q m) }
    ensures { OnlyNear q series m word.now message.new result }
{
    let n = word.len();
    let mut located = [0u8; 64];
    encoding::write_word(q, series, s as usize, locator, &mut located[..n]);
    erase(word, &mut located[..n]);
    let mut grid = recovery::known_short_grid(q, series, &located[..n]);
    recovery::recover_over(q, series, m as usize, &located[..n], &mut grid, message).is_ok()
}

// A codeword's own message, and else what is read where a locator isn't 0.
pub fn find(q: u8, series: u8, m: u16, t: usize, word: &[u8], message: &mut [u8]) -> bool
    requires { Mendable q series m word.now × (t ≡ radius q m) × (length message.old ≡ size q m) }
    ensures { OnlyNear q series m word.now message.new result }
{
    if unencoding::read_word(q, series, m as usize, word, message).is_ok() {
        return true;
    }
    let curve = Curve::at(q);
    let s = t + curve.genus;
    let k = term::size(q, s);
    let mut found = [0u8; 32];
    if locator::find(q, series, m as usize, s, word, &mut found[..k]) {
        return read_rest(q, series, m, s as u16, word, &found[..k], message);
    }
    false
}
