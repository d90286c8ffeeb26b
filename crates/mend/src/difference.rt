// Where two words differ.
ghost use Rattle.std.specs.Prelude.{◌≡◌, length};
ghost use Rattle.mend.specs.Mended.{differing, marks_of};

// The number of places where they differ.
pub fn count(a: &[u8], b: &[u8]) -> usize
    requires { length b.now ≡ length a.now }
    ensures { result ≡ differing a.now b.now }
{
    let mut n = 0;
    for p in 0..a.len() {
        if a[p] != b[p] {
            n += 1;
        }
    }
    n
}

// 1 where they differ, and 0 elsewhere.
pub fn mark(a: &[u8], b: &[u8], marks: &mut [u8])
    requires { (length b.now ≡ length a.now) × (length marks.old ≡ length a.now) }
    ensures { marks.new ≡ marks_of a.now b.now }
{
    for p in 0..a.len() {
        marks[p] = if a[p] == b[p] { 0 } else { 1 };
    }
}
