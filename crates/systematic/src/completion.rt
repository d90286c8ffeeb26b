// A short block's broken word that has k symbols, completed to the word of the one message that fits it, if there is one: by the words of the
// terms where these are no more than the missing symbols, and else by the missing symbols.
ghost use Rattle.std.specs.Prelude.{List, ◌≡◌, ℕ, ◌*◌, ◌≤◌, ◌<◌, length};
ghost use Rattle.field.specs.Curve.{IsShort};
ghost use Rattle.field.proofs.Fields.{field_of};
ghost use Rattle.poly.specs.Lists.{one_if};
ghost use Rattle.poly.specs.Inner.Ranges.{Below, writes};
ghost use Rattle.poly.specs.Inner.Linear.{entry};
ghost use Rattle.points.specs.Series.{columns_of};
ghost use Rattle.code.specs.Answers.{answered};
ghost use Rattle.code.specs.Recovered.{reading};
ghost use Rattle.code.specs.Terms.{size};
ghost use Rattle.code.specs.Word.{word_of};
ghost use Rattle.code.specs.Inner.Recovering.{present, BrokenOver};
ghost use Rattle.recovery.specs.Inner.Gaps.{known};
ghost use Rattle.systematic.specs.Inner.Completing.{completion, Solved};
ghost use Rattle.systematic.specs.Inner.TermWords.{TermWords};

use crate::term_words;
use code::{encoding, term};
use field::{Outcome, Refusal};
use linear::vectors;
use poly::rows;

// high[p] = 255 where the symbol at p isn't missing, and 0 elsewhere.
fn mark_symbols(word: &[u8], high: &mut [u8])
    requires { length high.old ≡ length word.now }
    ensures { high.new ≡ writes high.old (length word.now) (λ p. 255 * one_if (present word.now p)) }
{
    for p in 0..word.len() {
        high[p] = if word[p] == 255 { 0 } else { 255 };
    }
}

// Takes the words of the terms, k of them, out of what is known at the places whose symbol isn't missing. Answers whether nothing is left there
// and no combination of them is 0 there.
fn take_out(q: u8, m: usize, k: usize, word: &[u8], words: &mut [u8], left: &mut [u8; 64]) -> bool
    requires short { IsShort q × (k ≡ size q m) × (length word.now ≤ 64) }
    requires words_len { (length words.old ≡ 64 * k) × Below (field_of q).size words.old }
    requires left_len { (length left.old ≡ 64) × Below (field_of q).size left.old × ((p : ℕ) → p < length word.now → entry left.old p ≡ known word.now p) }
    ensures { ((columns : List ℕ) → BrokenOver q columns m word.now → TermWords q columns m words.old
        → Solved q columns m word.now left.new result)
        × (length left.new ≡ 64) }
{
    let n = word.len();
    let mut high = [0u8; 64];
    mark_symbols(word, &mut high[..n]);
    let rank = vectors::eliminate_short(q, k, &high, words, left);
    if rank < k {
        return false;
    }
    vectors::pivot(&high, left) == 0
}

// By the words of the terms.
fn complete_by_terms(q: u8, series: u8, m: usize, k: usize, word: &[u8], out: &mut [u8]) -> Outcome
    requires { BrokenOver q (columns_of q series) m word.now × IsShort q × (k ≡ size q m) × (length out.old ≡ length word.now) }
    ensures { completion (word_of q (columns_of q series) m)
        (reading (field_of q).size (size q m) (word_of q (columns_of q series) m) word.now) out.old ≡ answered result out.new }
{
    let n = word.len();
    let mut words = [0u8; 4096];
    term_words::write(q, series, m, k, &mut words);
    let mut known = [0u8; 64];
    recovery::fill(word, &mut known[..n]);
    let mut left = known;
    let end = 64 * k;
    if take_out(q, m, k, word, &mut words[..end], &mut left) {
        rows::copy(n, &known, out);
        rows::add(n, &left, out);
        return Ok(());
    }
    Err(Refusal::NoInformationSet)
}

// By the missing symbols: the message is recovered, and encoded.
fn complete_by_gaps(q: u8, series: u8, m: usize, k: usize, word: &[u8], out: &mut [u8]) -> Outcome
    requires { BrokenOver q (columns_of q series) m word.now × IsShort q × (k ≡ size q m) × (length out.old ≡ length word.now) }
    ensures { completion (word_of q (columns_of q series) m)
        (reading (field_of q).size (size q m) (word_of q (columns_of q series) m) word.now) out.old ≡ answered result out.new }
{
    let mut grid = recovery::known_short_grid(q, series, word);
    let mut message = [0u8; 64];
    recovery::recover_over(q, series, m, word, &mut grid, &mut message[..k]).or(Err(
        Refusal::NoInformationSet,
    ))?;
    encoding::write_word(q, series, m, &message[..k], out);
    Ok(())
}

pub fn complete(q: u8, series: u8, m: usize, word: &[u8], out: &mut [u8]) -> Outcome
    requires { BrokenOver q (columns_of q series) m word.now × IsShort q × (length out.old ≡ length word.now) }
    ensures { completion (word_of q (columns_of q series) m)
        (reading (field_of q).size (size q m) (word_of q (columns_of q series) m) word.now) out.old ≡ answered result out.new }
{
    let k = term::size(q, m);
    if 2 * k <= word.len() {
        complete_by_terms(q, series, m, k, word, out)
    } else {
        complete_by_gaps(q, series, m, k, word, out)
    }
}
