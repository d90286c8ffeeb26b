// Lists of places, and symbols that stand at them.
ghost use Rattle.std.specs.Prelude.{◌≡◌, ℕ, ◌<◌, length, get_or};
ghost use Rattle.systematic.specs.Places.{good_places};
ghost use Rattle.code.proofs.GridEntries.{laid};

// Whether these are k places, strictly ascending, below n.
// kept: beside the same test of columns in `chosen_columns`, where the reason stands.
pub fn are_good(k: usize, n: usize, places: &[u16]) -> bool
    ensures { result ≡ good_places k n places.now }
{
    if places.len() != k {
        return false;
    }
    let mut least = 0;
    for i in 0..places.len() {
        let p = places[i] as usize;
        if p < least {
            return false;
        }
        if n <= p {
            return false;
        }
        least = p + 1;
    }
    true
}

// Stores each symbol at its place.
pub fn place(places: &[u16], symbols: &[u8], word: &mut [u8])
    requires { (length symbols.now ≡ length places.now) × ((i : ℕ) → i < length places.now → get_or places.now i 0 < length word.old) }
    ensures { word.new ≡ laid places.now symbols.now word.old (length places.now) }
{
    for i in 0..places.len() {
        let p = places[i] as usize;
        word[p] = symbols[i];
    }
}
