// A list of arrivals run through a session, from opening to asking.
ghost use Rattle.std.specs.Prelude.{◌≡◌};
ghost use Rattle.session.specs.Claim.{session_from};
ghost use Rattle.session.specs.Replayed.{arrivals, replayed};

use crate::Session;
use field::Outcome;

// The session after the arrivals, which have a place, a symbol and a round each; what one list has more than another is ignored.
fn receive(mut session: Session, places: &[u16], symbols: &[u8], rounds: &[u8]) -> Session
    ensures { result ≡ session_from session (arrivals places.now symbols.now rounds.now) }
{
    let count = places.len().min(symbols.len()).min(rounds.len());
    // kept: over a range: the edit that leaves the first arrival out changes a number alone.
    for i in 0..count {
        session = session.arrive(places[i], symbols[i], rounds[i]).session;
    }
    session
}

// What asking answers after the arrivals, or the opening where it is refused.
pub fn replay(
    q: u8,
    series: u8,
    m: u16,
    places: &[u16],
    symbols: &[u8],
    rounds: &[u8],
    message: &mut [u8],
) -> Outcome
    ensures { replayed q series m places.now symbols.now rounds.now message.old
        ≡ record { outcome = result; slice = message.new } }
{
    let start = crate::open(q, series, m);
    start.outcome?;
    let session = receive(start.session, places, symbols, rounds);
    session.ask(message)
}
