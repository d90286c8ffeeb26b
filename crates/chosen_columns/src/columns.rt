// Lists of columns of a short block, and words over them as words over all columns.
ghost use Rattle.std.specs.Prelude.{◌≡◌, ◌*◌, length, replicate};
ghost use Rattle.field.specs.Curve.{IsShort};
ghost use Rattle.code.specs.Inner.Recovering.{BrokenOver};
ghost use Rattle.chosen_columns.specs.ColumnLists.{is_column_list};
ghost use Rattle.chosen_columns.specs.Inner.Widening.{Widened};

use code::conversion;

// Whether these are columns of a field of the size, at least one, strictly ascending.
// kept: `systematic` has the same loop over places, which are numbers of 16 bits; the clause of one function for both would speak of the
// numbers of a list of any type, and the definitions of lists of numbers.
pub fn are_good(size: u8, columns: &[u8]) -> bool
    ensures { result ≡ is_column_list size columns.now }
{
    if columns.len() == 0 {
        return false;
    }
    let mut least = 0;
    for i in 0..columns.len() {
        let x = columns[i] as usize;
        if x < least {
            return false;
        }
        if (size as usize) <= x {
            return false;
        }
        least = x + 1;
    }
    true
}

// The same word over all columns, in a list of 255: each of the other columns is missing.
pub fn widen(q: u8, columns: &[u8], word: &[u8], wide: &mut [u8])
    requires { BrokenOver q columns.now 0 word.now × IsShort q × (wide.old ≡ replicate (q * q * q) 255) }
    ensures { Widened q columns.now word.now wide.new }
{
    let numbers = points::columns(q, 1);
    let c = columns.len();
    conversion::move_columns(q, &numbers[..c], columns, word, wide);
}
