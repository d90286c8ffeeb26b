// Recovery of long blocks as C calls it. It is an archive of its own, so that the loops of short blocks are compiled for their vectors of 64
// symbols alone.
#![tactic(auto)]

ghost use Rattle.std.specs.Prelude.{length};
ghost use Rattle.code.specs.Packed.{Packed};
ghost use Rattle.code.specs.RecoveredLong.{recovered_long, KeptUnlessWorked};

use field::outcome;

#[unsafe(no_mangle)]
pub extern "C" fn hermitian_recover_long(
    series: u8,
    m: u16,
    word: &[u8],
    message: &mut [u8],
    work: &mut [u8],
) -> u32
    ensures packed { Packed (recovered_long series m word.now message.old (length work.old)) result message.new }
    ensures kept_unless_worked { KeptUnlessWorked (recovered_long series m word.now message.old (length work.old)).outcome
        work.old work.new }
{
    outcome::packed(recovery::recover_long(series, m, word, message, work))
}
