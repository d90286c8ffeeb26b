// Words from one strap series to the other.
ghost use Rattle.std.specs.Prelude.{◌≡◌, ◌*◌, ◌≤◌, length};
ghost use Rattle.field.specs.Curve.{IsShort};
ghost use Rattle.points.specs.Series.{other_series, columns_of};
ghost use Rattle.points.specs.Inner.Columns.{Columns};
ghost use Rattle.code.specs.Answers.{answered};
ghost use Rattle.code.specs.Converted.{convert_checks, relisted, converted};
ghost use Rattle.code.specs.Inner.Moving.{Within, Moved};

use crate::check;
use field::{Curve, Outcome};
use poly::rows;

// Writes the column number from[t] of a word as the column number to[t] of another, for each t.
pub fn move_columns(q: u8, from: &[u8], to: &[u8], word: &[u8], out: &mut [u8])
    requires within { Within q from.now word.now × Columns q to.now × (length to.now ≡ length from.now) }
    requires word_len_bound { (length word.now ≤ q * q * q) × (length out.old ≡ q * q * q) }
    ensures { Moved q from.now to.now word.now out.old out.new (length from.now) }
{
    let width = q as usize;
    for t in 0..from.len() {
        let at = width * (from[t] as usize);
        let end = at + width;
        let new = width * (to[t] as usize);
        let new_end = new + width;
        rows::copy(width, &word[at..end], &mut out[new..new_end]);
    }
}

fn other_series(series: u8) -> u8
    ensures { result ≡ other_series series }
{
    if series == 2 { 1 } else { 2 }
}

// One of the two series is the ascending one, in which column x is number x. So what the other one's list of columns has at t is a column's
// number in the word, and what the named one's list has at t is its number in out.
fn convert_short(q: u8, series: u8, word: &[u8], out: &mut [u8])
    requires { IsShort q × (length word.now ≡ q * q * q) × (length out.old ≡ q * q * q) }
    ensures { out.new ≡ relisted q (columns_of q series) (columns_of q (other_series series)) word.now }
{
    let other = other_series(series);
    let from = points::columns(q, other);
    let to = points::columns(q, series);
    let width = q as usize;
    let c = width * width;
    move_columns(q, &from[..c], &to[..c], word, out);
}

// kept: a function of its own, as all of long blocks: see `known_long_grid` in `recovery`.
fn convert_long(series: u8, word: &[u8], out: &mut [u8])
    requires { (length word.now ≡ 512) × (length out.old ≡ 512) }
    ensures { out.new ≡ relisted 8 (columns_of 8 series) (columns_of 8 (other_series series)) word.now }
{
    let other = other_series(series);
    let from = points::long_columns(other);
    let to = points::long_columns(series);
    move_columns(8, &from, &to, word, out);
}

// 1, 17, 3, 4 and 5.
fn check_call(q: u8, series: u8, word: &[u8], room: usize) -> Outcome
    ensures { result ≡ convert_checks q series word.now room }
{
    check::curve(field::curve::is_curve(q), series)?;
    let curve = Curve::at(q);
    let n = curve.points;
    check::slices(true, curve.symbols, n, word, n, room)
}

// The word, whole or broken, with its symbols in the order of the points of the other series.
pub fn convert(q: u8, series: u8, word: &[u8], out: &mut [u8]) -> Outcome
    ensures { converted q series word.now out.old ≡ answered result out.new }
{
    check_call(q, series, word, out.len())?;
    if q == 8 {
        convert_long(series, word, out);
    } else {
        convert_short(q, series, word, out);
    }
    Ok(())
}
