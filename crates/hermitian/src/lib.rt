// The library as C calls it: a slice is a pointer and a length, and both numbers of the outcome come in one.
#![tactic(auto)]

ghost use Rattle.hermitian.specs.Packed.{PackedMending, PackedVerdict};
ghost use Rattle.code.specs.Packed.{Packed};
ghost use Rattle.code.specs.Converted.{converted};
ghost use Rattle.code.specs.Encoded.{encoded};
ghost use Rattle.code.specs.Recovered.{recovered};
ghost use Rattle.code.specs.Unencoded.{unencoded};
ghost use Rattle.dual.specs.Checked.{checked};
ghost use Rattle.mend.specs.Mended.{mended};
ghost use Rattle.chosen_columns.specs.EncodedOn.{encoded_on};
ghost use Rattle.chosen_columns.specs.RecoveredOn.{recovered_on};
ghost use Rattle.chosen_columns.specs.UnencodedOn.{unencoded_on};
ghost use Rattle.systematic.specs.EncodedAt.{encoded_at};

use code::{conversion, encoding, unencoding};
use field::outcome;

#[unsafe(no_mangle)]
pub extern "C" fn hermitian_encode(
    q: u8,
    series: u8,
    m: u16,
    message: &[u8],
    word: &mut [u8],
) -> u32
    ensures { Packed (encoded q series m message.now word.old) result word.new }
{
    outcome::packed(encoding::encode(q, series, m, message, word))
}

#[unsafe(no_mangle)]
pub extern "C" fn hermitian_recover(
    q: u8,
    series: u8,
    m: u16,
    word: &[u8],
    message: &mut [u8],
) -> u32
    ensures { Packed (recovered q series m word.now message.old) result message.new }
{
    outcome::packed(recovery::recover(q, series, m, word, message))
}

#[unsafe(no_mangle)]
pub extern "C" fn hermitian_unencode(
    q: u8,
    series: u8,
    m: u16,
    word: &[u8],
    message: &mut [u8],
) -> u32
    ensures { Packed (unencoded q series m word.now message.old) result message.new }
{
    outcome::packed(unencoding::unencode(q, series, m, word, message))
}

#[unsafe(no_mangle)]
pub extern "C" fn hermitian_convert(q: u8, series: u8, word: &[u8], out: &mut [u8]) -> u32
    ensures { Packed (converted q series word.now out.old) result out.new }
{
    outcome::packed(conversion::convert(q, series, word, out))
}

#[unsafe(no_mangle)]
pub extern "C" fn hermitian_mend(
    q: u8,
    series: u8,
    m: u16,
    word: &[u8],
    message: &mut [u8],
    codeword: &mut [u8],
    marks: &mut [u8],
) -> u32
    ensures { PackedMending (mended q series m word.now message.old codeword.old marks.old) result
        message.new codeword.new marks.new }
{
    let changed = mend::mend(q, series, m, word, message, codeword, marks);
    outcome::packed(changed.map(|_| ()))
}

#[unsafe(no_mangle)]
pub extern "C" fn hermitian_encode_at(
    q: u8,
    series: u8,
    m: u16,
    places: &[u16],
    symbols: &[u8],
    word: &mut [u8],
) -> u32
    ensures { Packed (encoded_at q series m places.now symbols.now word.old) result word.new }
{
    outcome::packed(systematic::encode_at(q, series, m, places, symbols, word))
}

#[unsafe(no_mangle)]
pub extern "C" fn hermitian_encode_on(
    q: u8,
    columns: &[u8],
    m: u16,
    message: &[u8],
    word: &mut [u8],
) -> u32
    ensures { Packed (encoded_on q columns.now m message.now word.old) result word.new }
{
    outcome::packed(chosen_columns::encode_on(q, columns, m, message, word))
}

#[unsafe(no_mangle)]
pub extern "C" fn hermitian_unencode_on(
    q: u8,
    columns: &[u8],
    m: u16,
    word: &[u8],
    message: &mut [u8],
) -> u32
    ensures { Packed (unencoded_on q columns.now m word.now message.old) result message.new }
{
    outcome::packed(chosen_columns::unencode_on(q, columns, m, word, message))
}

#[unsafe(no_mangle)]
pub extern "C" fn hermitian_recover_on(
    q: u8,
    columns: &[u8],
    m: u16,
    word: &[u8],
    message: &mut [u8],
) -> u32
    ensures { Packed (recovered_on q columns.now m word.now message.old) result message.new }
{
    outcome::packed(chosen_columns::recover_on(q, columns, m, word, message))
}

#[unsafe(no_mangle)]
pub extern "C" fn hermitian_check(q: u8, series: u8, m: u16, word: &[u8], verdict: &mut u8) -> u32
    ensures { PackedVerdict (checked q series m word.now) result verdict.new }
{
    let codeword = dual::check(q, series, m, word);
    *verdict = u8::from(codeword.unwrap_or(false));
    outcome::packed(codeword.map(|_| ()))
}
