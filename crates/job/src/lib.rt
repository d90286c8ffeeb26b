// Recovery in slices: a job that is opened from a broken word and carried on by calls, each with a budget of symbols.
#![tactic(auto)]

pub mod bringing;
pub mod testing;
pub mod turns;
pub mod work;

ghost use Rattle.std.specs.Prelude.{true, ◌↔◌, ◌≡◌, ◌*◌, ◌≤◌, ◌<◌, length, IfSome};
ghost use Rattle.linear.specs.Inner.Systems.{flat, rank};
ghost use Rattle.field.specs.Outcomes.{Done};
ghost use Rattle.job.specs.declared.Reply.TheVariants.{Refused, Finished};
ghost use Rattle.job.specs.Task.{task_of};
ghost use Rattle.job.specs.Opened.{opened};
ghost use Rattle.job.specs.Replies.{outcome_of};
ghost use Rattle.job.specs.Carried.{carried, WrittenOnlyWithMessage};
ghost use Rattle.job.specs.Sound.{Sound};
ghost use Rattle.job.specs.Inner.Bringing.{Fresh, complete_after, reply_by};

use bringing::Progress;
use code::term;
use field::{Curve, Outcome, Refusal};

// What a call says: it met 5; it is still working, and no message fits the symbols brought in so far, or Q^r do; or it is
// finished, with what recovery says.
#[derive(Clone, Copy)]
pub enum Reply {
    Refused,
    NoneFits,
    Leaves(u16),
    Finished(Outcome),
}

// q, the strap series, m, a broken word and how far it has been brought in: the places below `next`. While symbols are collected, `work` holds
// their equations; once these are complete, `candidate` is the only message that they leave, and `whole` its word; a clash ends
// both. Places from n on are never read.
#[derive(Clone, Copy)]
pub struct Job {
    pub work: [u8; 4096],
    pub places: [u8; 64],
    pub candidate: [u8; 64],
    pub whole: [u8; 64],
    pub q: u8,
    pub series: u8,
    pub m: u16,
    pub next: u16,
    // kept: two flags for the three stages, which the definitions `Standing`, `Tested` and `Usable` read
    pub complete: bool,
    pub clash: bool,
}

// What an opening hands back.
// kept: a refused opening hands a job back too, that of an all-missing word; the contract of `open` reads both.
#[derive(Clone, Copy)]
pub struct Opening {
    pub job: Job,
    pub outcome: Outcome,
}

// What a call hands back.
// kept: a call hands the job back with the number brought in and its reply; the contract of `carry_on` reads all three.
#[derive(Clone, Copy)]
pub struct Turn {
    pub job: Job,
    pub brought: u8,
    pub reply: Reply,
}

// A job of a word, of which nothing has been brought in. Places after the word are missing.
fn fresh(q: u8, series: u8, m: u16, word: &[u8]) -> Job
    requires { length word.now ≤ 64 }
    ensures { Fresh q series m word.now result }
{
    let mut places = [255u8; 64];
    places[..word.len()].copy_from_slice(word);
    Job {
        work: [0; 4096],
        places,
        candidate: [0; 64],
        whole: [0; 64],
        q,
        series,
        m,
        next: 0,
        complete: false,
        clash: false,
    }
}

// From what recovery takes, without the slice: refusals 1, 17 and 2 to 4.
pub fn open(q: u8, series: u8, m: u16, word: &[u8]) -> Opening
    ensures word_value { opened q series m word.now ≡ record { task = task_of result.job; outcome = result.outcome } }
    ensures sound { Sound result.job }
{
    let outcome = testing::opening(q, series, m, word);
    let job = match outcome {
        Ok(()) => fresh(q, series, m, word),
        Err(_) => fresh(2, 1, 0, &[]),
    };
    Opening { job, outcome }
}

// By what has been brought in: k is the length of a message, n that of the word.
fn tell(k: usize, n: usize, r: Progress) -> Reply
    requires { (k ≤ 65535) × IfSome r.rank (λ rows. rows ≤ k) }
    ensures { result ≡ reply_by k n r }
{
    if r.next < n {
        return match r.rank {
            None => Reply::NoneFits,
            Some(rank) => Reply::Leaves((k - rank) as u16),
        };
    }
    Reply::Finished(match r.rank {
        None => Err(Refusal::NoMessage),
        Some(rank) if rank < k => Err(Refusal::Several((k - rank) as u16)),
        Some(_) => Ok(()),
    })
}

// Whether the rows are complete after a call, by its rows. In a call that finds a clash they are if they were, or if it had completed them before; in
// those after it they aren't.
fn complete_after(k: usize, complete: bool, clash: bool, area: &[u8], rows: Option<usize>) -> bool
    requires { (k < 64) × (length area.now ≡ 4096) }
    ensures { result ≡ complete_after k complete clash (rank k (flat 64 k area.now)) rows }
{
    match rows {
        Some(rows) => rows == k,
        None => !clash && (complete || work::rank(k, area) == k),
    }
}

// Whether a call gives a message, which then stands in the slice.
pub fn is_message(reply: Reply) -> bool
    ensures { (result ≡ true) ↔ (reply ≡ Finished Done) }
{
    matches!(reply, Reply::Finished(Ok(())))
}

// What a reply says, as an outcome: 5; 9 or 10 of a job that is still working; or recovery's.
impl From<Reply> for Outcome {
    ghost from_gives = { λ reply r. r ≡ outcome_of reply };

    fn from(reply: Reply) -> Outcome {
        match reply {
            Reply::Refused => Err(Refusal::BadRoom),
            Reply::NoneFits => Err(Refusal::NoMessage),
            Reply::Leaves(r) => Err(Refusal::Several(r)),
            Reply::Finished(outcome) => outcome,
        }
    }
}

impl Job {
    // Brings in the smaller of the budget and what remains. Any bytes may be in a job that no opening gave: it is tested first.
    pub fn carry_on(mut self, budget: u8, message: &mut [u8]) -> Turn
        ensures written_only_with_message { WrittenOnlyWithMessage self.q self.m result.reply message.old message.new }
        ensures job_value { result.reply ≡ Refused → result.job ≡ self }
        ensures sound { Sound self → Sound result.job × (carried (task_of self) budget message.old
            ≡ record { task = task_of result.job; brought = result.brought; reply = result.reply; slice = message.new }) }
    {
        // kept: the arrays are copied, since a part of a field's array that is lent beside other fields gets no proof.
        let places = self.places;
        let mut candidate = self.candidate;
        let mut whole = self.whole;
        let q = self.q;
        let series = self.series;
        let m = self.m as usize;
        let next = self.next as usize;
        if testing::usable(
            q,
            series,
            self.m,
            next,
            self.complete,
            self.clash,
            &places,
            &candidate,
            &self.work,
        ) {
            let k = term::size(q, m);
            if message.len() == k {
                let curve = Curve::at(q);
                let n = curve.points;
                let r = bringing::bring(
                    q,
                    series,
                    m,
                    k,
                    &places[..n],
                    budget,
                    next,
                    self.complete,
                    self.clash,
                    &mut self.work,
                    &mut candidate[..k],
                    &mut whole[..n],
                );
                self.candidate = candidate;
                self.whole = whole;
                self.next = r.next as u16;
                self.complete = complete_after(k, self.complete, self.clash, &self.work, r.rank);
                self.clash = r.rank.is_none();
                let said = tell(k, n, r);
                if is_message(said) {
                    message.copy_from_slice(&candidate[..k]);
                }
                return Turn {
                    job: self,
                    brought: r.brought,
                    reply: said,
                };
            }
        }
        Turn {
            job: self,
            brought: 0,
            reply: Reply::Refused,
        }
    }
}
