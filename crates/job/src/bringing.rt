// Bringing symbols of a broken word in, by ascending place, up to a budget.
ghost use Rattle.std.specs.Prelude.{◌≡◌, ◌*◌, ◌≤◌, ◌<◌, length};
ghost use Rattle.field.specs.Curve.{IsShort};
ghost use Rattle.field.proofs.Fields.{field_of};
ghost use Rattle.linear.specs.Inner.Systems.{flat, rank, WellFormed, Full, Solves};
ghost use Rattle.points.specs.Series.{columns_of};
ghost use Rattle.code.specs.Terms.{size};
ghost use Rattle.code.specs.Word.{word_of};
ghost use Rattle.code.specs.Inner.Grid.{entries_of};
ghost use Rattle.code.specs.Inner.Recovering.{BrokenOver};
ghost use Rattle.job.specs.Inner.Bringing.{Counted, Stopped, Ready, Collects, Compared, Usable, Brings};

use crate::work;
use code::{encoding, term};
use field::Curve;
use linear::system;

// How far a call has come: the next place, the rows of the system, none where the symbols contradict each other, and how many
// this call has brought in.
#[derive(Clone, Copy)]
pub struct Progress {
    pub next: usize,
    pub rank: Option<usize>,
    pub brought: u8,
}

// Brings symbols in by their equations, until the budget is used up, all are in, the rows are complete, or they clash.
fn bring_equations(
    q: u8,
    columns: &[u8],
    m: usize,
    entries: &[u16],
    word: &[u8],
    budget: u8,
    next: usize,
    rows: usize,
    work: &mut [u8],
) -> Progress
    requires broken_over { BrokenOver q columns.now m word.now × (entries.now ≡ entries_of q m) × (next ≤ length word.now) × (size q m < 64) × IsShort q }
    requires ready { Ready q m work.old rows }
    ensures counted { Counted word.now budget next 0 result.next result.brought }
    ensures collects { Collects q columns.now m word.now budget work.old next rows work.new result.next result.rank result.brought }
{
    let k = entries.len();
    let mut rank = rows;
    let mut brought = 0;
    for (p, s) in word.iter().enumerate().skip(next) {
        if *s == 255 {
            continue;
        }
        if brought == budget || rank == k {
            return Progress {
                next: p,
                rank: Some(rank),
                brought,
            };
        }
        brought += 1;
        let Some(more) = equations::step(q, columns, m, entries, p, *s, rank, work) else {
            return Progress {
                next: p + 1,
                rank: None,
                brought,
            };
        };
        rank = more;
    }
    Progress {
        next: word.len(),
        rank: Some(rank),
        brought,
    }
}

// The same, over all columns. The entries of the terms are worked out once for all places.
fn collect(
    q: u8,
    series: u8,
    m: usize,
    k: usize,
    word: &[u8],
    budget: u8,
    next: usize,
    work: &mut [u8],
) -> Progress
    requires broken_over { BrokenOver q (columns_of q series) m word.now × (k ≡ size q m) × (size q m < 64) × (next ≤ length word.now) × IsShort q }
    requires well_formed { WellFormed (field_of q) 64 (size q m) work.old }
    ensures counted { Counted word.now budget next 0 result.next result.brought }
    ensures collects { Collects q (columns_of q series) m word.now budget work.old next
        (rank (size q m) (flat 64 (size q m) work.old)) work.new result.next result.rank result.brought }
{
    let mut entries = [0u16; 64];
    term::entries(q, m, &mut entries);
    let columns = points::columns(q, series);
    let curve = Curve::at(q);
    let c = curve.symbols as usize;
    let rows = work::rank(k, work);
    bring_equations(
        q,
        &columns[..c],
        m,
        &entries[..k],
        word,
        budget,
        next,
        rows,
        work,
    )
}

// Counts symbols in without their equations: each is compared with that of a whole word.
fn compare(word: &[u8], whole: &[u8], budget: u8, from: Progress) -> Progress
    requires { (length whole.now ≡ length word.now) × (from.next ≤ length word.now) × (from.brought ≤ budget) }
    ensures counted { Counted word.now budget from.next from.brought result.next result.brought }
    ensures stopped { Stopped word.now budget result.next result.brought }
    ensures compared { Compared word.now whole.now from.next from.rank result.next result.rank }
{
    let mut rank = from.rank;
    let mut brought = from.brought;
    for (p, (s, other)) in word.iter().zip(whole).enumerate().skip(from.next) {
        if *s == 255 {
            continue;
        }
        if brought == budget {
            return Progress {
                next: p,
                rank,
                brought,
            };
        }
        if other != s {
            rank = None;
        }
        brought += 1;
    }
    Progress {
        next: word.len(),
        rank,
        brought,
    }
}

// The one message of a complete system, and its word.
fn settle(
    q: u8,
    series: u8,
    m: usize,
    k: usize,
    work: &[u8],
    candidate: &mut [u8],
    whole: &mut [u8],
)
    requires short { IsShort q × (m < q * q * q) × (k ≡ size q m) × (length candidate.old ≡ size q m) × (length whole.old ≡ q * q * q) }
    requires well_formed { WellFormed (field_of q) 64 (size q m) work.now × Full (size q m) (flat 64 (size q m) work.now) }
    ensures solves { Solves (field_of q) (size q m) (flat 64 (size q m) work.now) candidate.new }
    ensures whole_after { whole.new ≡ word_of q (columns_of q series) m candidate.new }
{
    system::solve(q, 64, k, work, candidate);
    encoding::write_word(q, series, m, candidate, whole);
}

// Brings symbols in: by their equations until these are complete, then by the candidate's word; after a clash they are only
// counted.
pub fn bring(
    q: u8,
    series: u8,
    m: usize,
    k: usize,
    word: &[u8],
    budget: u8,
    next: usize,
    complete: bool,
    clash: bool,
    work: &mut [u8; 4096],
    candidate: &mut [u8],
    whole: &mut [u8],
) -> Progress
    requires short { IsShort q × (m < q * q * q) × BrokenOver q (columns_of q series) m word.now × (k ≡ size q m) × (next ≤ length word.now) }
    requires candidate_len { (length candidate.old ≡ size q m) × (length whole.old ≡ length word.now)
        × Usable q m work.old candidate.old complete clash }
    ensures { Brings q series m word.now budget work.old candidate.old whole.old next complete clash
        work.new candidate.new whole.new result }
{
    if clash {
        return compare(
            word,
            word,
            budget,
            Progress {
                next,
                rank: None,
                brought: 0,
            },
        );
    }
    if complete {
        return compare(
            word,
            whole,
            budget,
            Progress {
                next,
                rank: Some(k),
                brought: 0,
            },
        );
    }
    let r = collect(q, series, m, k, word, budget, next, work);
    match r.rank {
        None => compare(word, word, budget, r),
        Some(rank) if rank < k => r,
        Some(_) => {
            settle(q, series, m, k, work, candidate, whole);
            compare(word, whole, budget, r)
        }
    }
}
