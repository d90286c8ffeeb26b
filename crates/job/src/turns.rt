// A whole recovery in turns, however the budgets are chosen.
ghost use Rattle.std.specs.Prelude.{◌≡◌};
ghost use Rattle.code.specs.Answers.{answered};
ghost use Rattle.code.specs.Recovered.{recovered};
ghost use Rattle.job.specs.Task.{stored_word};
ghost use Rattle.job.specs.Sound.{Sound};
ghost use Rattle.job.specs.Inner.Turns.{Carries};

use crate::Job;
use field::Outcome;

// The job after a call with each budget in turn.
fn carry_through(mut job: Job, budgets: &[u8], message: &mut [u8]) -> Job
    requires { Sound job }
    ensures { Carries job.q job.series job.m (stored_word job) message.old result message.new }
{
    for budget in budgets {
        job = job.carry_on(*budget, message).job;
    }
    job
}

// Opens a job, carries it on with each budget in turn and then with 255, which is more than can remain: it answers what recovery in
// one go does, whatever the budgets.
pub fn recover_in_turns(
    q: u8,
    series: u8,
    m: u16,
    word: &[u8],
    budgets: &[u8],
    message: &mut [u8],
) -> Outcome
    ensures { recovered q series m word.now message.old ≡ answered result message.new }
{
    let opening = crate::open(q, series, m, word);
    opening.outcome?;
    let job = carry_through(opening.job, budgets, message);
    let turn = job.carry_on(255, message);
    turn.reply.into()
}
