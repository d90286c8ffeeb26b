// Vanishing polynomials of a list of columns of short blocks, and the tree of those of its halves, of the halves of these, and so on.
ghost use Rattle.std.specs.Prelude.{◌≡◌, ℕ, ◌+◌, ◌*◌, ◌≤◌, ◌<◌, length, get_or};
ghost use Rattle.field.proofs.Fields.{field_of};
ghost use Rattle.poly.specs.Inner.Ranges.{Below, writes};
ghost use Rattle.poly.specs.Inner.Linear.{entry};
ghost use Rattle.poly.specs.Inner.Polynomials.{linear, Vanishing};
ghost use Rattle.poly.specs.Inner.Interpolation.{Node, Tree, TreeRoom, Outside, SameOutside, VanishingTree};

use field::symbol::{Product, ShortBlocks};

// The first n coefficients become those of the product by x - a.
fn times_linear(q: u8, a: u8, n: usize, out: &mut [u8])
    requires { (n ≤ length out.old) × (a < (field_of q).size) × Below (field_of q).size out.old × (q ≡ 8 → ⊥) }
    ensures { out.new ≡ writes out.old n (linear (field_of q) a (entry out.old)) }
{
    let mut before = 0u8;
    for x in &mut out[..n] {
        let old = *x;
        *x = ShortBlocks::times(q, a, old) ^ before;
        before = old;
    }
}

// The vanishing polynomial of the columns, and zeros.
fn write_polynomial(q: u8, columns: &[u8], out: &mut [u8])
    requires { Below (field_of q).size columns.now × (length columns.now < length out.old) × (length out.old ≤ 1024) × (q ≡ 8 → ⊥) }
    ensures { Vanishing (field_of q) columns.now out.new }
{
    out.fill(0);
    out[0] = 1;
    for t in (0..columns.len()).rev() {
        let n = columns.len() - t + 1;
        times_linear(q, columns[t], n, out);
    }
}

// The vanishing polynomials of the two halves of two columns or more, from at on.
fn write_node(q: u8, columns: &[u8], at: usize, tree: &mut [u8])
    requires below { Below (field_of q).size columns.now × (2 ≤ length columns.now) × (q ≡ 8 → ⊥) }
    requires columns_in_bounds { (at + 2 * length columns.now ≤ length tree.old) × (length tree.old ≤ 1024) × Below (field_of q).size tree.old }
    ensures node { Node (field_of q) tree.new at columns.now × Below (field_of q).size tree.new }
    ensures by_index { (i : ℕ) → Outside at (2 * length columns.now) i → get_or tree.new i 0 ≡ get_or tree.old i 0 }
{
    let c = columns.len();
    let h = c / 2;
    let mid = at + (c - h + 1);
    let end = mid + (c - h + 1);
    write_polynomial(q, &columns[..h], &mut tree[at..mid]);
    write_polynomial(q, &columns[h..], &mut tree[mid..end]);
}

// Those of the halves of two columns or more, of the halves of these, and so on, until one column is left: what belongs to the two halves
// stands a stride further on, each two numbers a column.
fn write_halves(q: u8, columns: &[u8], stride: usize, at: usize, tree: &mut [u8])
    requires below { Below (field_of q).size columns.now × (2 ≤ length columns.now) × (q ≡ 8 → ⊥) }
    requires tree_room { TreeRoom (length columns.now) stride at (length tree.old) × Below (field_of q).size tree.old }
    ensures tree { Tree (field_of q) stride tree.new at columns.now × Below (field_of q).size tree.new }
    ensures same_outside { SameOutside stride at (2 * length columns.now) tree.old tree.new }
{
    let c = columns.len();
    let h = c / 2;
    write_node(q, columns, at, tree);
    let next = at + stride;
    let after = next + 2 * h;
    if 1 < h {
        write_halves(q, &columns[..h], stride, next, tree);
    }
    if h + 1 < c {
        write_halves(q, &columns[h..], stride, after, tree);
    }
}

// The whole tree of one to sixteen columns.
pub fn tree(q: u8, columns: &[u8]) -> [u8; 160]
    requires { Below (field_of q).size columns.now × (1 ≤ length columns.now) × (length columns.now ≤ 16) × (q ≡ 8 → ⊥) }
    ensures { VanishingTree (field_of q) columns.now result × (length result ≡ 160) }
{
    let mut tree = [0u8; 160];
    let root = columns.len() + 1;
    write_polynomial(q, columns, &mut tree[..root]);
    if 1 < columns.len() {
        write_halves(q, columns, 2 * columns.len(), root, &mut tree);
    }
    tree
}
