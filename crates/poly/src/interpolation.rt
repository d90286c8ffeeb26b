// Interpolation of w polynomials at once at a list of columns: by halves, and in place. A row of 16 symbols is given for each column.
ghost use Rattle.std.specs.Prelude.{◌≡◌, ℕ, ◌+◌, ◌-◌, ◌*◌, ◌≤◌, ◌<◌, length, get_or, replicate};
ghost use Rattle.field.specs.Plus.{plus};
ghost use Rattle.field.proofs.Fields.{field_of};
ghost use Rattle.poly.specs.Lists.{Nodup};
ghost use Rattle.poly.specs.Inner.Ranges.{Below};
ghost use Rattle.poly.specs.Inner.Lanes.{lanes};
ghost use Rattle.poly.specs.Inner.Linear.{entry};
ghost use Rattle.poly.specs.Inner.Rows.{scaled};
ghost use Rattle.poly.specs.Inner.Polynomials.{Vanishing};
ghost use Rattle.poly.specs.Inner.Interpolation.{crossed, Crossable, Padded, Placed, Written, Halves, Combined, ProductAdded};
ghost use Rattle.poly.specs.Inner.Interpolation.{Tree, Joinable, Joined, SlopesAt, RowsDivided, Divided, VanishingTree, Interpolated};

use crate::{lanes, polynomial, rows};
use field::symbol::{LongBlocks, ShortBlocks};

// a + c * the sixteen elements of src from at on, of short blocks. Where c is 1, as it often is, no product is worked out.
fn add(q: u8, c: u8, src: &[u8; 96], at: usize, a: &[u8; 16]) -> [u8; 16]
    requires { (c < (field_of q).size) × Below (field_of q).size src.now × (at + 16 ≤ 96) × (q ≡ 8 → ⊥) }
    ensures { result ≡ lanes (λ t. plus (entry a.now t) ((field_of q).times (get_or src.now (at + t) 0) c)) }
{
    let b = lanes::take(src, at);
    if c == 1 {
        lanes::plus(a, &b)
    } else {
        lanes::add_scaled(q, c, a, &b)
    }
}

// Sixteen elements, from at on, of left times g plus right times f.
fn cross(
    q: u8,
    w: usize,
    f: &[u8],
    g: &[u8],
    left: &[u8; 96],
    right: &[u8; 96],
    at: usize,
) -> [u8; 16]
    requires { Crossable (field_of q) w f.now g.now left.now right.now at × (q ≡ 8 → ⊥) }
    ensures { result ≡ lanes (λ t. crossed (field_of q) w (length f.now) f.now g.now
        left.now right.now (at + t)) }
{
    let mut sum = [0u8; 16];
    for i in 0..f.len() {
        let from = at - w * i;
        if g[i] != 0 {
            sum = add(q, g[i], left, from, &sum);
        }
        if f[i] != 0 {
            sum = add(q, f[i], right, from, &sum);
        }
    }
    sum
}

// The first n elements of src, after 32 zeros.
fn place(n: usize, src: &[u8], out: &mut [u8])
    requires n_bound { (n ≤ 64) × ((b : ℕ) → 16 * b < n → 16 * b + 16 ≤ length src.now) × Padded n src.now }
    requires out_value { out.old ≡ replicate 96 0 }
    ensures { Placed n src.now out.new }
{
    // kept: with `copy_from_slice` unencoding takes 1.04 times as long.
    for at in (0..n).step_by(16) {
        let a = lanes::take(src, at);
        let from = 32 + at;
        let end = from + 16;
        rows::copy(16, &a, &mut out[from..end]);
    }
}

// The first n elements of work become those of left times g plus right times f; left and right begin after 32 zeros.
fn write_crossed(
    q: u8,
    w: usize,
    n: usize,
    f: &[u8],
    g: &[u8],
    left: &[u8; 96],
    right: &[u8; 96],
    work: &mut [u8],
)
    requires crossable { Crossable (field_of q) w f.now g.now left.now right.now 32 × (n ≤ 64) × (q ≡ 8 → ⊥) }
    requires by_index { ((b : ℕ) → 16 * b < n → 16 * b + 16 ≤ length work.old) × Below (field_of q).size work.old }
    ensures { Written n (λ p. crossed (field_of q) w (length f.now) f.now g.now
        left.now right.now (32 + p)) work.new
        × Below (field_of q).size work.new }
{
    for at in (0..n).step_by(16) {
        let a = cross(q, w, f, g, left, right, 32 + at);
        let end = at + 16;
        rows::copy(16, &a, &mut work[at..end]);
    }
}

// Joins the two halves of c columns of a short block, the first h and the others, which are joined: each times the vanishing polynomial of
// the other. Copies with zeros around them are read sixteen numbers at a time.
fn combine_by_windows(q: u8, w: usize, h: usize, c: usize, f: &[u8], g: &[u8], work: &mut [u8])
    requires { Halves (field_of q) w h c f.now g.now work.old × (w ≤ 4) × (c ≤ 16) × (q ≡ 8 → ⊥) }
    ensures { Combined (field_of q) w h c f.now g.now work.old work.new }
{
    let half = 16 * h;
    let mut left = [0u8; 96];
    let mut right = [0u8; 96];
    place(w * h, &work[..half], &mut left);
    place(w * (c - h), &work[half..], &mut right);
    write_crossed(q, w, w * c, f, g, &left, &right, work);
}

// Adds to work the first n elements of src times f, of long blocks: f[i] times them, from w·i on.
fn add_product(w: usize, n: usize, f: &[u8], src: &[u8], work: &mut [u8])
    requires n_in_bounds { (n ≤ length src.now) × (w * length f.now + n ≤ length work.old + w) }
    requires below { Below (field_of 8).size f.now × Below (field_of 8).size src.now × Below (field_of 8).size work.old }
    ensures { ProductAdded (field_of 8) w n f.now src.now work.old work.new (length f.now) }
{
    for i in 0..f.len() {
        if f[i] != 0 {
            let at = w * i;
            let end = at + n;
            rows::add_scaled_long(f[i], n, src, &mut work[at..end]);
        }
    }
}

// Joins the two halves of c columns of a long block, row by row. Its arrays are larger than they need be, more than 1024 bytes, with which
// the compiler keeps it a call, and their room out of `join`'s own frames.
fn combine_by_rows(w: usize, h: usize, c: usize, f: &[u8], g: &[u8], work: &mut [u8])
    requires { Halves (field_of 8) w h c f.now g.now work.old }
    ensures { Combined (field_of 8) w h c f.now g.now work.old work.new }
{
    let half = 16 * h;
    let n = w * h;
    let rest = w * (c - h);
    let mut left = [0u8; 512];
    let mut right = [0u8; 528];
    rows::copy(n, work, &mut left);
    rows::copy(rest, &work[half..], &mut right);
    work.fill(0);
    add_product(w, n, g, &left, work);
    add_product(w, rest, f, &right, work);
}

// Multiplies the row of each of two columns or more by the vanishing polynomial of the other columns, and adds them up: by halves, until
// one column is left.
pub fn join(q: u8, w: usize, columns: &[u8], stride: usize, tree: &[u8], at: usize, work: &mut [u8])
    requires joinable { Joinable (field_of q) w columns.now work.old × (2 ≤ length columns.now) × ((q ≡ 8 → ⊥) → (w ≤ 4) × (length columns.now ≤ 16)) }
    requires tree { Tree (field_of q) stride tree.now at columns.now × Below (field_of q).size tree.now }
    requires stride_bound { (stride ≤ 128) × (length tree.now ≤ 1024) }
    ensures { Joined (field_of q) w columns.now work.old work.new }
{
    let c = columns.len();
    let h = c / 2;
    let n = 16 * h;
    let next = at + stride;
    let after = next + 2 * h;
    if 1 < h {
        join(q, w, &columns[..h], stride, tree, next, &mut work[..n]);
    }
    if h + 1 < c {
        join(q, w, &columns[h..], stride, tree, after, &mut work[n..]);
    }
    let mid = at + (c - h + 1);
    let end = mid + (c - h + 1);
    if q == 8 {
        combine_by_rows(w, h, c, &tree[at..mid], &tree[mid..end], work);
    } else {
        combine_by_windows(q, w, h, c, &tree[at..mid], &tree[mid..end], work);
    }
}

// Divides a row of sixteen by v.
fn divide_row(q: u8, v: u8, row: &mut [u8])
    requires { (v < (field_of q).size) × (v ≡ 0 → ⊥) × Below (field_of q).size row.old × (length row.old ≡ 16) }
    ensures { row.new ≡ scaled (field_of q) ((field_of q).inverse v) (length row.old) row.old }
{
    if v == 1 {
        return;
    }
    let c = field::symbol::inverse(q, v);
    let a = lanes::take(row, 0);
    let b = lanes::scale(q, c, &a);
    row.copy_from_slice(&b);
}

// The values of the derivative of the columns' vanishing polynomial at sixteen of the columns, or as many as are left, from number `from` on.
fn slopes(q: u8, columns: &[u8], from: usize, to: usize, vanishing: &[u8]) -> [u8; 16]
    requires below { Below (field_of q).size columns.now × (from < to) × (to ≤ length columns.now) × (to ≤ from + 16) }
    requires vanishing { Vanishing (field_of q) columns.now vanishing.now }
    ensures { SlopesAt (field_of q) columns.now from to result }
{
    let mut places = [0u8; 16];
    rows::copy(to - from, &columns[from..to], &mut places);
    let squares = lanes::multiply(q, &places, &places);
    let n = polynomial::terms(vanishing, 1, 2, (columns.len() + 1) / 2);
    if q == 8 {
        return polynomial::evaluate::<LongBlocks>(q, vanishing, 1, 2, n, &squares);
    }
    polynomial::evaluate::<ShortBlocks>(q, vanishing, 1, 2, n, &squares)
}

// Divides the rows of the columns number from to number to, sixteen at most, by the derivative's values there.
fn divide_rows(q: u8, columns: &[u8], from: usize, to: usize, vanishing: &[u8], rows: &mut [u8])
    requires below { Below (field_of q).size columns.now × (from < to) × (to ≤ length columns.now) × (to ≤ from + 16) × Nodup columns.now }
    requires vanishing { Vanishing (field_of q) columns.now vanishing.now }
    requires rows_len { (length rows.old ≡ 16 * (to - from)) × Below (field_of q).size rows.old }
    ensures { RowsDivided (field_of q) columns.now from (to - from) rows.old rows.new }
{
    let slopes = slopes(q, columns, from, to, vanishing);
    let count = to - from;
    for t in 0..count {
        let at = 16 * t;
        let end = at + 16;
        divide_row(q, slopes[t], &mut rows[at..end]);
    }
}

// Divides the row of each column by the derivative's value there. Sixteen columns or fewer are divided by a call of their own, the second
// one, with which the compiler keeps `divide_rows` a call, and its room out of the frames under `join`.
fn divide(q: u8, columns: &[u8], vanishing: &[u8], work: &mut [u8])
    requires below { Below (field_of q).size columns.now × (1 ≤ length columns.now) × (length columns.now ≤ 64) × Nodup columns.now }
    requires vanishing { Vanishing (field_of q) columns.now vanishing.now }
    requires work_len { (length work.old ≡ 16 * length columns.now) × Below (field_of q).size work.old }
    ensures { Divided (field_of q) columns.now work.old work.new }
{
    let c = columns.len();
    if c <= 16 {
        divide_rows(q, columns, 0, c, vanishing, work);
        return;
    }
    for i in 0..c.div_ceil(16) {
        let from = 16 * i;
        let to = c.min(from + 16);
        let at = 16 * from;
        let end = 16 * to;
        divide_rows(q, columns, from, to, vanishing, &mut work[at..end]);
    }
}

// The polynomials that take at each column the first w numbers of its row.
pub fn interpolate(q: u8, w: usize, columns: &[u8], tree: &[u8], work: &mut [u8])
    requires joinable { Joinable (field_of q) w columns.now work.old × (1 ≤ length columns.now) × Nodup columns.now }
    requires w_bound { (q ≡ 8 → ⊥) → (w ≤ 4) × (length columns.now ≤ 16) }
    requires vanishing_tree { VanishingTree (field_of q) columns.now tree.now }
    ensures { Interpolated (field_of q) 16 w columns.now work.old work.new }
{
    let root = columns.len() + 1;
    divide(q, columns, &tree[..root], work);
    let stride = 2 * columns.len();
    if 1 < columns.len() {
        join(q, w, columns, stride, tree, root, work);
    }
}
