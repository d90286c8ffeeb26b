// Short blocks over chosen columns: a word has q symbols for each column of a list, and none for the others.
#![tactic(auto)]

ghost use Rattle.std.specs.Prelude.{◌≡◌, ◌≤◌, length};
ghost use Rattle.field.specs.Curve.{IsShort};
ghost use Rattle.field.proofs.Fields.{field_of};
ghost use Rattle.code.specs.Answers.{answered};
ghost use Rattle.code.specs.Recovered.{reading, answer_of};
ghost use Rattle.code.specs.Terms.{size};
ghost use Rattle.code.specs.Word.{word_of};
ghost use Rattle.code.specs.Inner.Readable.{Readable, read_over};
ghost use Rattle.code.specs.Inner.Recovering.{BrokenOver};
ghost use Rattle.chosen_columns.specs.ColumnLists.{on_checks};
ghost use Rattle.chosen_columns.specs.EncodedOn.{encoded_on};
ghost use Rattle.chosen_columns.specs.UnencodedOn.{unencoded_on};
ghost use Rattle.chosen_columns.specs.RecoveredOn.{recovered_on};

use code::{check, encoding, term, unencoding};
use field::{Curve, Outcome, Refusal};
use poly::vanishing;

pub mod columns;

// 1, 18, 2, 3, 4 and 5, of a call that decodes, which takes a word and writes a message, or encodes. Gaps, which are 255, may be allowed.
fn check_call(
    gaps: bool,
    decodes: bool,
    q: u8,
    columns: &[u8],
    m: usize,
    input: &[u8],
    room: usize,
) -> Outcome
    ensures { result ≡ on_checks gaps decodes q columns.now m input.now room }
{
    if !field::curve::is_short(q) {
        return Err(Refusal::BadCurve);
    }
    let curve = Curve::at(q);
    if !columns::are_good(curve.symbols, columns) {
        return Err(Refusal::BadColumns);
    }
    let n = (q as usize) * columns.len();
    if n <= m {
        return Err(Refusal::BadOrder);
    }
    let k = term::size(q, m);
    if decodes {
        check::slices(gaps, curve.symbols, n, input, k, room)
    } else {
        check::slices(gaps, curve.symbols, k, input, n, room)
    }
}

// The word of a message over the columns.
pub fn encode_on(q: u8, columns: &[u8], m: u16, message: &[u8], word: &mut [u8]) -> Outcome
    ensures { encoded_on q columns.now m message.now word.old ≡ answered result word.new }
{
    let order = m as usize;
    check_call(false, false, q, columns, order, message, word.len())?;
    encoding::write_word_over(q, columns, order, message, word);
    Ok(())
}

// The message of a word over the columns, whose vanishing polynomials are worked out.
fn read_word(q: u8, columns: &[u8], m: usize, word: &[u8], message: &mut [u8]) -> Outcome
    requires { Readable q columns.now m word.now message.old × IsShort q × (1 ≤ length columns.now) }
    ensures { read_over q columns.now m word.now message.old ≡ answered result message.new }
{
    let n = word.len();
    let tree = vanishing::tree(q, columns);
    let grid = unencoding::interpolate_over(q, columns, &tree, word);
    unencoding::read_grid(q, m, &grid[..n], message)
}

// The message whose word over the columns is the word.
pub fn unencode_on(q: u8, columns: &[u8], m: u16, word: &[u8], message: &mut [u8]) -> Outcome
    ensures { unencoded_on q columns.now m word.now message.old ≡ answered result message.new }
{
    let order = m as usize;
    check_call(false, true, q, columns, order, word, message.len())?;
    read_word(q, columns, order, word, message)
}

// What the symbols of a broken word over the columns say: the same messages fit it over all columns, the others missing.
fn recover_over(q: u8, columns: &[u8], m: usize, word: &[u8], message: &mut [u8]) -> Outcome
    requires { BrokenOver q columns.now m word.now × IsShort q × (length message.old ≡ size q m) }
    ensures { answer_of (reading (field_of q).size (size q m) (word_of q columns.now m) word.now) message.old
        ≡ answered result message.new }
{
    let width = q as usize;
    let n = width * width * width;
    let mut wide = [255u8; 64];
    columns::widen(q, columns, word, &mut wide[..n]);
    let mut grid = recovery::known_short_grid(q, 1, &wide[..n]);
    recovery::recover_over(q, 1, m, &wide[..n], &mut grid, message)
}

// The message that alone fits a broken word over the columns, 255 standing for each missing symbol.
pub fn recover_on(q: u8, columns: &[u8], m: u16, word: &[u8], message: &mut [u8]) -> Outcome
    ensures { recovered_on q columns.now m word.now message.old ≡ answered result message.new }
{
    let order = m as usize;
    check_call(true, true, q, columns, order, word, message.len())?;
    recover_over(q, columns, order, word, message)
}
