// Recovery in turns as a C call, for the benchmark in host/bench and for nothing else: what the app calls is in the crate hermitian.
#![tactic(auto)]

ghost use Rattle.std.specs.Prelude.{◌≡◌};
ghost use Rattle.field.specs.Outcomes.{packed};
ghost use Rattle.code.specs.Recovered.{recovered};

use field::outcome;
use job::turns;

#[unsafe(no_mangle)]
pub extern "C" fn bench_recover_in_turns(
    q: u8,
    series: u8,
    m: u16,
    word: &[u8],
    budgets: &[u8],
    message: &mut [u8],
) -> u32
    ensures value { result ≡ packed (recovered q series m word.now message.old).outcome }
    ensures message_after { message.new ≡ (recovered q series m word.now message.old).slice }
{
    outcome::packed(turns::recover_in_turns(q, series, m, word, budgets, message))
}
