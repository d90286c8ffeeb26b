// Encoding and unencoding of long blocks, past the checks. One function for both: with two callers the compiler keeps it a call, and its
// arrays out of the frames of short blocks.
// kept: so it has a flag that says which of the two to run, since the memory is fixed.
ghost use Rattle.std.specs.Prelude.{true, false, ◌≡◌};
ghost use Rattle.points.specs.Series.{columns_of};
ghost use Rattle.code.specs.Answers.{answered};
ghost use Rattle.code.specs.Inner.Encodable.{Encodable};
ghost use Rattle.code.specs.Inner.Readable.{Readable, long_answer};

use crate::{encoding, unencoding};
use field::Outcome;

// The message of a word, where it decodes, and else the word of a message.
pub fn run(decodes: bool, series: u8, m: usize, input: &[u8], output: &mut [u8]) -> Outcome
    requires readable { decodes ≡ true → Readable 8 (columns_of 8 series) m input.now output.old }
    requires encodable { decodes ≡ false → Encodable 8 (columns_of 8 series) m input.now output.old }
    ensures { long_answer decodes series m input.now output.old ≡ answered result output.new }
{
    if decodes {
        return unencoding::read_long_word(series, m, input, output);
    }
    encoding::write_long_word(series, m, input, output);
    Ok(())
}
