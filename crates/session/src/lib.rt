// A receiving session: opening, arrival and asking.
#![tactic(auto)]

pub mod replay;

ghost use Rattle.std.specs.Prelude.{map, ◌≡◌};
ghost use Rattle.session.specs.Opened.{empty_session, opened};
ghost use Rattle.session.specs.Arrived.{conflict_as_missing, merged, arrival_checks, arrived};
ghost use Rattle.session.specs.Asked.{asked};
ghost use Rattle.session.specs.JobOpened.{job_opened};
ghost use Rattle.session.specs.Inner.WordRead.{word_read};
ghost use Rattle.job.specs.Task.{task_of};
ghost use Rattle.job.specs.Sound.{Sound};

use field::{Curve, Outcome, Refusal};
use job::Opening;

// q, the strap series, m and for each place the symbol of the highest round received there, and that round: 255 and 0 where none was, and 254 where
// two symbols of that round differed, a conflict. Places from n on are never read, nor their rounds.
#[derive(Clone, Copy)]
pub struct Session {
    pub q: u8,
    pub series: u8,
    pub m: u16,
    // kept: two arrays, since recovery reads the places as a slice
    pub places: [u8; 64],
    pub rounds: [u8; 64],
}

// What an opening or an arrival hands back.
// kept: an arrival hands the session back with its outcome, and a refused opening hands one back too; the claim's theorem reads both.
#[derive(Clone, Copy)]
pub struct Reply {
    pub session: Session,
    pub outcome: Outcome,
}

// A session that has received nothing.
fn empty_session(q: u8, series: u8, m: u16) -> Session
    ensures { result ≡ empty_session q series m }
{
    Session {
        q,
        series,
        m,
        places: [255; 64],
        rounds: [0; 64],
    }
}

pub fn open(q: u8, series: u8, m: u16) -> Reply
    ensures { result ≡ opened q series m }
{
    let outcome = code::check::order(field::curve::is_short(q), q, series, m as usize);
    let session = match outcome {
        Ok(()) => empty_session(q, series, m),
        Err(_) => empty_session(2, 1, 0),
    };
    Reply { session, outcome }
}

// What is stored for a place.
#[derive(Clone, Copy)]
struct Stored {
    value: u8,
    round: u8,
}

// What is stored for a place, where `old` of `old_round` was, once a symbol of a round arrives there.
fn merge(old: u8, old_round: u8, symbol: u8, round: u8) -> Stored
    ensures { result ≡ merged old old_round symbol round }
{
    let received = Stored {
        value: symbol,
        round,
    };
    let unchanged = Stored {
        value: old,
        round: old_round,
    };
    let conflict = Stored {
        value: 254,
        round: old_round,
    };
    if old == 255 {
        return received;
    }
    if old_round < round {
        return received;
    }
    if round < old_round {
        return unchanged;
    }
    if old == symbol { unchanged } else { conflict }
}

fn conflict_as_missing(x: u8) -> u8
    ensures { result ≡ conflict_as_missing x }
{
    if x == 254 { 255 } else { x }
}

// Places in conflict become missing ones.
fn clear_conflicts(places: &mut [u8])
    ensures { places.new ≡ map conflict_as_missing places.old }
{
    for place in places.iter_mut() {
        *place = conflict_as_missing(*place);
    }
}

// What the checks and recovery read of a session: n, Q, and the places, of which the first n are the received word.
#[derive(Clone, Copy)]
struct ReceivedWord {
    points: usize,
    symbols: u8,
    places: [u8; 64],
}

impl Session {
    // Where q names no curve of short blocks, n is 0.
    fn received_word(self) -> ReceivedWord
        ensures { result ≡ word_read self }
    {
        let mut places = self.places;
        if !field::curve::is_short(self.q) {
            return ReceivedWord {
                points: 0,
                symbols: 0,
                places,
            };
        }
        let curve = Curve::at(self.q);
        let points = curve.points;
        clear_conflicts(&mut places[..points]);
        ReceivedWord {
            points,
            symbols: curve.symbols,
            places,
        }
    }

    // The checks 1, 17, 2, 4, 6 and 7 of an arrival.
    fn check(self, place: u16, symbol: u8) -> Outcome
        ensures { result ≡ arrival_checks self place symbol }
    {
        code::check::order(
            field::curve::is_short(self.q),
            self.q,
            self.series,
            self.m as usize,
        )?;
        let word = self.received_word();
        let n = word.points;
        let places = word.places;
        code::check::values(true, word.symbols, &places[..n])?;
        if n <= place as usize {
            return Err(Refusal::BadPlace);
        }
        if word.symbols <= symbol {
            return Err(Refusal::BadSymbol);
        }
        Ok(())
    }

    pub fn arrive(mut self, place: u16, symbol: u8, round: u8) -> Reply
        ensures { result ≡ arrived self place symbol round }
    {
        let checked = self.check(place, symbol);
        if checked.is_ok() {
            let at = place as usize;
            let stored = merge(self.places[at], self.rounds[at], symbol, round);
            self.places[at] = stored.value;
            self.rounds[at] = stored.round;
        }
        Reply {
            session: self,
            outcome: checked,
        }
    }

    // Recovery from the stored q, series, m and first n places, one in conflict being missing.
    pub fn ask(self, message: &mut [u8]) -> Outcome
        ensures { asked self message.old ≡ record { outcome = result; slice = message.new } }
    {
        let word = self.received_word();
        let n = word.points;
        let places = word.places;
        recovery::recover(self.q, self.series, self.m, &places[..n], message)
    }

    // A job of recovery from the stored q, series, m and first n places, one in conflict being missing: what asking recovers from.
    pub fn job(self) -> Opening
        ensures self_value { job_opened self ≡ record { task = task_of result.job; outcome = result.outcome } }
        ensures sound { Sound result.job }
    {
        let word = self.received_word();
        let n = word.points;
        let places = word.places;
        job::open(self.q, self.series, self.m, &places[..n])
    }
}
