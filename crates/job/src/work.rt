// A linear system in a work slice of any bytes: whether it is well formed, and its rank.
ghost use Rattle.std.specs.Prelude.{◌≡◌, ◌*◌, ◌<◌, length};
ghost use Rattle.field.specs.Curve.{IsShort};
ghost use Rattle.linear.specs.Inner.Systems.{flat, rank};
ghost use Rattle.job.specs.Inner.Formed.{row_formed, rows_formed, well_formed};

use code::check;

// Whether row p has 0 or 1 at its own unknown, and if 1, 0 at each later one.
fn row_formed(k: usize, p: usize, work: &[u8]) -> bool
    requires { (p < k) × (k < 64) × (length work.now ≡ 4096) }
    ensures { result ≡ row_formed 64 k work.now p }
{
    let base = p * 64;
    match work[base + p] {
        0 => true,
        1 => work[base + p + 1..base + k].iter().all(|x| *x == 0),
        _ => false,
    }
}

// Whether every row is formed.
fn rows(k: usize, work: &[u8]) -> bool
    requires { (k < 64) × (length work.now ≡ 4096) }
    ensures { result ≡ rows_formed 64 k work.now }
{
    (0..k).all(|p| row_formed(k, p, work))
}

// Whether the slice is a well-formed system.
pub fn formed(q: u8, k: usize, work: &[u8]) -> bool
    requires { IsShort q × (k < 64) × (length work.now ≡ 4096) }
    ensures { result ≡ well_formed (q * q) 64 k work.now }
{
    if check::first_bad(false, q * q, work) < work.len() {
        return false;
    }
    rows(k, work)
}

// How many rows it has.
pub fn rank(k: usize, work: &[u8]) -> usize
    requires { (k < 64) × (length work.now ≡ 4096) }
    ensures { result ≡ rank k (flat 64 k work.now) }
{
    (0..k).filter(|p| work[*p * 64 + *p] == 1).count()
}
