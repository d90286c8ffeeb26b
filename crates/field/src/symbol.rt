// Sum, product and inverse of symbols, at a curve's number q. What calls them shows that it has symbols.
ghost use Rattle.std.specs.Prelude.{ℕ, ◌≡◌, ◌*◌, ◌/◌, ◌%◌, ◌<◌, ◌^◌};
ghost use Rattle.field.specs.Plus.{plus};
ghost use Rattle.field.specs.Curve.{bits_of};
ghost use Rattle.field.specs.Inner.Halves.{half_of};
ghost use Rattle.field.specs.Inner.FourBits.{four_bits};
ghost use Rattle.field.specs.Product.{times_z, times, inverse};

use crate::curve::{Large, Long, Small};

// The inverses of the three fields; that of 0 is 0.
const INVERSES_16: [u8; 16] = [0, 1, 9, 14, 13, 11, 7, 6, 15, 2, 12, 5, 10, 4, 3, 8];

const INVERSES_4: [u8; 4] = [0, 1, 3, 2];

const INVERSES_64: [u8; 64] = *b"\
    \x00\x01\x21\x3e\x31\x2b\x1f\x2c\x39\x25\x34\x1c\x2e\x28\x16\x19\
    \x3d\x36\x33\x27\x1a\x23\x0e\x18\x17\x0f\x14\x22\x0b\x35\x2d\x06\
    \x3f\x02\x1b\x15\x38\x09\x32\x13\x0d\x2f\x30\x05\x07\x1e\x0c\x29\
    \x2a\x04\x26\x12\x0a\x1d\x11\x3c\x24\x08\x3b\x3a\x37\x10\x03\x20";

pub fn plus(a: u8, b: u8) -> u8
    ensures { result ≡ plus a b }
{
    a ^ b
}

// How many symbols the field has, of short blocks and of any.
// kept: loops of short blocks ask for their size without the test for 8.
fn short_size(q: u8) -> u8
    requires { q ≡ 8 → ⊥ }
    ensures { result ≡ 2 ^ bits_of q }
{
    if q == 2 { Small::Q } else { Large::Q }
}

pub fn size(q: u8) -> u8
    ensures { result ≡ 2 ^ bits_of q }
{
    if q == 8 {
        return Long::Q;
    }
    short_size(q)
}

// How many bits half of a symbol has.
fn half_bits(q: u8) -> u32
    ensures { (result ≡ bits_of q / 2) × (result < 8) }
{
    if q == 8 {
        3
    } else if q == 2 {
        1
    } else {
        2
    }
}

// How many numbers half of a symbol's bits have.
pub fn half(q: u8) -> usize
    ensures { result ≡ half_of q }
{
    if q == 8 {
        8
    } else if q == 2 {
        2
    } else {
        4
    }
}

// A symbol's number by its halves: low + half * high.
#[derive(Clone, Copy)]
pub struct Halves {
    pub low: usize,
    pub high: usize,
}

// By a mask and a shift, for it is done again and again.
pub fn split(q: u8, a: u8) -> Halves
    ensures { (result.low ≡ a % half_of q) × (result.high ≡ a / half_of q) }
{
    let number = a as usize;
    let mask = half(q) - 1;
    let bits = half_bits(q);
    Halves {
        low: number & mask,
        high: number >> bits,
    }
}

// z times a: a shift, and z + 1 for the bit that comes out. The field of q has `size` symbols.
fn shift(q: u8, size: u8, a: u8) -> u8
    requires { (size ≡ 2 ^ bits_of q) × (a < size) }
    ensures { result ≡ times_z (bits_of q) a }
{
    let double = a + a;
    if double < size {
        double
    } else {
        double ^ (size + 3)
    }
}

// z times a.
pub fn times_z(q: u8, a: u8) -> u8
    requires { a < 2 ^ bits_of q }
    ensures { result ≡ times_z (bits_of q) a }
{
    shift(q, size(q), a)
}

// a where b is odd, and 0 where it is even.
fn times_bit(a: u8, b: u8) -> u8
    ensures { result ≡ b % 2 * a }
{
    if b % 2 == 0 { 0 } else { a }
}

// The sum of b0·a, b1·z·a, b2·z²·a and b3·z³·a, for the lowest bits b0, b1, b2 and b3 of b. No branch is left of it when it is
// compiled, so that loops of products become vector code.
fn times_four_bits(q: u8, size: u8, a: u8, b: u8) -> u8
    requires { (size ≡ 2 ^ bits_of q) × (a < size) }
    ensures { result ≡ four_bits (bits_of q) a b }
{
    let a1 = shift(q, size, a);
    let a2 = shift(q, size, a1);
    let a3 = shift(q, size, a2);
    let b1 = b / 2;
    let b2 = b1 / 2;
    let b3 = b2 / 2;
    let low = times_bit(a, b) ^ times_bit(a1, b1);
    let high = times_bit(a2, b2) ^ times_bit(a3, b3);
    low ^ high
}

// z⁴ times a, in the field of 64.
fn times_z_4(a: u8) -> u8
    requires { a < 64 }
    ensures { result ≡ times_z 6 (times_z 6 (times_z 6 (times_z 6 a))) }
{
    let a1 = shift(8, Long::Q, a);
    let a2 = shift(8, Long::Q, a1);
    let a3 = shift(8, Long::Q, a2);
    shift(8, Long::Q, a3)
}

// How the symbols of one kind of block are multiplied. A loop that must be fast is generic over the kind, so that its product is chosen
// before it begins.
pub trait Product {
    // whether q is the number of such blocks
    ghost takes: { ℕ → Type 0 };

    fn times(q: u8, a: u8, b: u8) -> u8
        requires blocks { takes q }
        requires symbols { (a < 2 ^ bits_of q) × (b < 2 ^ bits_of q) }
        ensures { result ≡ times (bits_of q) a b };
}

// All bits of a symbol are among four.
pub struct ShortBlocks;

impl Product for ShortBlocks {
    ghost takes = { λ q. q ≡ 8 → ⊥ };

    fn times(q: u8, a: u8, b: u8) -> u8 {
        times_four_bits(q, short_size(q), a, b)
    }
}

// Of a symbol's six bits, two follow the lowest four.
pub struct LongBlocks;

impl Product for LongBlocks {
    ghost takes = { λ q. q ≡ 8 };

    fn times(_q: u8, a: u8, b: u8) -> u8 {
        let a4 = times_z_4(a);
        let a5 = shift(8, Long::Q, a4);
        let b4 = b / 2 / 2 / 2 / 2;
        let low = times_four_bits(8, Long::Q, a, b);
        let high = times_bit(a4, b4) ^ times_bit(a5, b4 / 2);
        low ^ high
    }
}

// The product of any blocks.
pub fn times(q: u8, a: u8, b: u8) -> u8
    requires { (a < 2 ^ bits_of q) × (b < 2 ^ bits_of q) }
    ensures { result ≡ times (bits_of q) a b }
{
    if q == 8 {
        return LongBlocks::times(q, a, b);
    }
    ShortBlocks::times(q, a, b)
}

pub fn inverse(q: u8, a: u8) -> u8
    requires { (a < 2 ^ bits_of q) × (a ≡ 0 → ⊥) }
    ensures { result ≡ inverse (bits_of q) a }
{
    let place = a as usize;
    match q {
        8 => INVERSES_64[place],
        2 => INVERSES_4[place],
        _ => INVERSES_16[place],
    }
}
