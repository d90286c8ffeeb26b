// Linear systems that grow an equation at a time, in a flat slice: row p stands from p * stride on.
ghost use Rattle.std.specs.Prelude.{not, ◌≡◌, ℕ, ◌+◌, ◌*◌, ◌≤◌, ◌<◌, T, length};
ghost use Rattle.field.specs.Plus.{plus};
ghost use Rattle.field.proofs.Fields.{field_of};
ghost use Rattle.poly.specs.Inner.Linear.{entry, dot};
ghost use Rattle.poly.specs.Inner.Rows.{divided, placed};
ghost use Rattle.linear.specs.Inner.Systems.{flat, WellFormed, Equation, Reduced, Brought, Solution, FirstFree, Fixed, NonzeroSolved};

use field::symbol::{Product, ShortBlocks};
use poly::rows;

// What bringing in an equation did: a row more; nothing, for it held already; nothing, for it never holds.
#[derive(Clone, Copy)]
pub enum Effect {
    Pivot,
    Redundant,
    Contradiction,
}

// start + a[0] * b[0] + .. + a[n - 1] * b[n - 1]
fn dot(q: u8, start: u8, n: usize, a: &[u8], b: &[u8]) -> u8
    requires n_in_bounds { (n ≤ length a.now) × (n ≤ length b.now) }
    requires by_index { ((j : ℕ) → j < n → (entry a.now j < (field_of q).size) × (entry b.now j < (field_of q).size)) × (q ≡ 8 → ⊥) }
    ensures { result ≡ plus start (dot (field_of q) n (entry a.now) (entry b.now)) }
{
    let mut r = start;
    for j in 0..n {
        r = r ^ ShortBlocks::times(q, a[j], b[j]);
    }
    r
}

// Takes the rows of work that are present out of row. Answers 0 where no coefficient is left, and else one more than the
// place of the last that is left, where work has no row (kept: a number, as `Reduced` has it). The first 16 times blocks elements of a row are added, k and more.
fn reduce(q: u8, stride: usize, blocks: usize, k: usize, work: &[u8], row: &mut [u8]) -> usize
    requires well_formed { WellFormed (field_of q) stride k work.now × Equation (field_of q) k row.old × (q ≡ 8 → ⊥) }
    requires k_bound { (k < 16 * blocks) × (16 * blocks ≤ stride) × (16 * blocks ≤ length row.old) }
    ensures { Reduced (field_of q) k (flat stride k work.now) row.old row.new result }
{
    for i in (0..k).rev() {
        let c = row[i];
        if c != 0 {
            let base = i * stride;
            if work[base + i] == 0 {
                return i + 1;
            }
            let end = base + stride;
            rows::add_scaled(q, c, blocks, &work[base..end], row);
        }
    }
    0
}

// Stores row, scaled so that its coefficient at i is 1, as row i of work.
fn place(q: u8, stride: usize, k: usize, i: usize, work: &mut [u8], row: &mut [u8])
    requires well_formed { WellFormed (field_of q) stride k work.old × Equation (field_of q) k row.old × (q ≡ 8 → ⊥) }
    requires i_lt_k { (i < k) × (entry row.old i ≡ 0 → ⊥) }
    ensures { work.new ≡ placed stride (k + 1) i (divided (field_of q) i (k + 1) row.old) work.old }
{
    let c = field::symbol::inverse(q, row[i]);
    let n = k + 1;
    rows::scale(q, c, n, row);
    let base = i * stride;
    let end = base + stride;
    rows::copy(n, row, &mut work[base..end]);
}

// Brings one more equation into the system. Row is used up. The first 16 times blocks elements of a row are in use, k and more.
pub fn bring_in(
    q: u8,
    stride: usize,
    blocks: usize,
    k: usize,
    work: &mut [u8],
    row: &mut [u8],
) -> Effect
    requires well_formed { WellFormed (field_of q) stride k work.old × Equation (field_of q) k row.old × (q ≡ 8 → ⊥) }
    requires k_bound { (k < 16 * blocks) × (16 * blocks ≤ stride) × (16 * blocks ≤ length row.old) }
    ensures well_formed_2 { WellFormed (field_of q) stride k work.new }
    ensures brought { Brought (field_of q) stride k work.old (entry row.old) work.new result }
{
    let p = reduce(q, stride, blocks, k, work, row);
    if p == 0 {
        if row[k] == 0 {
            return Effect::Redundant;
        }
        return Effect::Contradiction;
    }
    place(q, stride, k, p - 1, work, row);
    Effect::Pivot
}

// Forward substitution: the first k elements of message become a solution, where all k rows are present the only one.
pub fn solve(q: u8, stride: usize, k: usize, work: &[u8], message: &mut [u8])
    requires { WellFormed (field_of q) stride k work.now × (k ≤ length message.old) × (q ≡ 8 → ⊥) }
    ensures { Solution (field_of q) k (flat stride k work.now) message.new }
{
    for p in 0..k {
        let base = p * stride;
        let end = base + stride;
        let start = work[base + k];
        message[p] = dot(q, start, p, &work[base..end], message);
    }
}

// The first unknown that has no row, and k where all have one (kept: a number, as `FirstFree` has it).
fn free_unknown(stride: usize, k: usize, work: &[u8]) -> usize
    requires { (k < stride) × (length work.now ≡ stride * stride) }
    ensures { FirstFree k (flat stride k work.now) result }
{
    for p in 0..k {
        if work[p * stride + p] != 1 {
            return p;
        }
    }
    k
}

// Brings in the equation that unknown p, which has no row, is 1.
fn fix(q: u8, stride: usize, blocks: usize, k: usize, p: usize, work: &mut [u8])
    requires well_formed { WellFormed (field_of q) stride k work.old × (p < k) × T (not ((flat stride k work.old).present p)) × (q ≡ 8 → ⊥) }
    requires k_bound { (k < 16 * blocks) × (16 * blocks ≤ stride) × (16 * blocks ≤ 64) }
    ensures well_formed_2 { WellFormed (field_of q) stride k work.new }
    ensures fixed { Fixed (field_of q) k (flat stride k work.old) p (flat stride k work.new) }
{
    let mut row = [0u8; 64];
    row[p] = 1;
    row[k] = 1;
    bring_in(q, stride, blocks, k, work, &mut row);
}

// A solution other than 0 of a system whose right-hand sides are 0, if there is one: where some unknown has no row, the first
// such is 1.
pub fn solve_nonzero(
    q: u8,
    stride: usize,
    blocks: usize,
    k: usize,
    work: &mut [u8],
    message: &mut [u8],
) -> bool
    requires well_formed { WellFormed (field_of q) stride k work.old × (k ≤ length message.old) × (q ≡ 8 → ⊥) }
    requires k_bound { (k < 16 * blocks) × (16 * blocks ≤ stride) × (16 * blocks ≤ 64) }
    ensures { NonzeroSolved (field_of q) k (flat stride k work.old) message.new result }
{
    let p = free_unknown(stride, k, work);
    if p == k {
        return false;
    }
    fix(q, stride, blocks, k, p, work);
    solve(q, stride, k, work, message);
    true
}
