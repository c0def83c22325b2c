//! What is known of timestamps, and which segments are too old by them, or lack them, so that they may be dropped (RFC
//! 7323, 3.2, 4.3 and 5).

ghost use Rattle.std.specs.Prelude.{◌≡◌, false};
ghost use Rattle.std.specs.Option.{option_map, option_map_or};
ghost use Rattle.spec_flights.specs.Clocks.{ahead, are_stamped, clocks_after, clocks_told, dropping_excused};
ghost use Rattle.spec_flights.specs.Clocks.{earns_excused, event_excused, excused_at, excused_by, is_older};
ghost use Rattle.spec_flights.specs.Clocks.{is_outdated, is_unstamped, newest_after, newest_by, newest_come};
ghost use Rattle.spec_flights.specs.Clocks.{newest_sent, no_clocks, recent_after, recent_echoed, recent_sent};
ghost use Rattle.spec_flights.specs.Clocks.{shows_echo, told_most_after, touched_excused};

use crate::numbers::number_sent;
use segment::TimestampPair;
use seqno::Word;
use spec_duties::{
    Arrival, Droppable, Dropping, Event, Observation, Sending, SynChange, TouchedEndpoint, View,
};
use spec_flights::{Clocks, Newest};

/// How many values a clock has.
const TURN: u64 = 1 << 32;

/// A clock that is so far ahead is older.
const HALF_TURN: u64 = 1 << 31;

/// Before any segment.
pub fn no_clocks() -> Clocks
    ensures { result ≡ no_clocks }
{
    Clocks {
        own: false,
        peers: false,
        recent: None,
        most: None,
        told: 0,
        told_most: 0,
        newest: None,
    }
}

/// How far a clock that goes round has to go from one value to the other.
pub(crate) fn ahead(from: Word, upto: Word) -> u64
    ensures { result ≡ ahead from upto }
{
    (u64::from(upto.0) + TURN - u64::from(from.0)) % TURN
}

/// Whether the first of two values of a clock is older.
pub fn is_older(a: Word, b: Word) -> bool
    ensures { result ≡ is_older a b }
{
    HALF_TURN <= ahead(b, a)
}

// Whether a value of a clock is older than what was shown, if something was.
fn is_older_than(a: Word, most: Option<Word>) -> bool
    ensures { result ≡ option_map_or (is_older a) most false }
{
    match most {
        Some(most) => is_older(a, most),
        None => false,
    }
}

// Whether both SYNs had timestamps.
fn are_stamped(clocks: Clocks) -> bool
    ensures { result ≡ are_stamped clocks }
{
    clocks.own && clocks.peers
}

// The newest clock once a segment came: that of the segment, if it isn't older and begins at or below what was
// acknowledged.
fn newest_by(
    told: u64,
    arrival: Arrival,
    stamps: TimestampPair,
    clock: Option<Word>,
) -> Option<Word>
    ensures { result ≡ newest_by told arrival stamps clock }
{
    if !is_older_than(stamps.value, clock) && arrival.pos <= told {
        Some(stamps.value)
    } else {
        clock
    }
}

// The same after a step.
fn newest_come(
    arrival: Option<Arrival>,
    stamps: Option<TimestampPair>,
    told: u64,
    clock: Option<Word>,
) -> Option<Word>
    ensures { result ≡ newest_come arrival stamps told clock }
{
    match (arrival, stamps) {
        (Some(arrival), Some(stamps)) => newest_by(told, arrival, stamps, clock),
        _ => clock,
    }
}

/// Whether the line of a segment shows what it echoes.
pub(crate) fn shows_echo(clocks: Clocks, sending: &Sending) -> bool
    ensures { result ≡ shows_echo clocks sending.now }
{
    sending.flags.ack && !sending.flags.rst && (are_stamped(clocks) || sending.flags.syn)
}

// The clock that an endpoint echoes, after it echoed this.
fn recent_echoed(recent: Option<Word>, stamps: TimestampPair) -> Option<Word>
    ensures { result ≡ recent_echoed recent stamps }
{
    match recent {
        Some(old) if is_older(old, stamps.echo) => Some(stamps.echo),
        Some(_) | None => recent,
    }
}

// The same after it sent a segment.
fn recent_sent(clocks: Clocks, sending: &Sending, stamps: Option<TimestampPair>) -> Option<Word>
    ensures { result ≡ recent_sent clocks sending.now stamps }
{
    match stamps {
        Some(stamps) if shows_echo(clocks, sending) => recent_echoed(clocks.recent, stamps),
        Some(_) | None => clocks.recent,
    }
}

// The same after any step.
fn recent_after(seen: &Observation, event: &Event, clocks: Clocks) -> Option<Word>
    ensures { result ≡ recent_after seen.now event.now clocks }
{
    match event {
        Event::Processes { .. } => {
            newest_come(seen.arrival, seen.stamps, clocks.told, clocks.recent)
        }
        Event::Sends(sending) => recent_sent(clocks, sending, seen.stamps),
        Event::Opens
        | Event::Calls { .. }
        | Event::Drops { .. }
        | Event::Builds(_)
        | Event::Expires(_)
        | Event::Recovers(_) => clocks.recent,
    }
}

// The segment with the greatest number that has shown a timestamp, after that of this number did.
fn newest_sent(number: u32, stamps: TimestampPair, newest: Option<Newest>) -> Option<Newest>
    ensures { result ≡ newest_sent number stamps newest }
{
    match newest {
        Some(old) if number <= old.number => newest,
        Some(_) | None => Some(Newest {
            number,
            value: stamps.value,
        }),
    }
}

// The same after a step.
fn newest_after(seen: &Observation, event: &Event, newest: Option<Newest>) -> Option<Newest>
    ensures { result ≡ newest_after seen.now event.now newest }
{
    match (event, seen.stamps) {
        (Event::Sends(_), Some(stamps)) => {
            newest_sent(number_sent(seen.built_change), stamps, newest)
        }
        _ => newest,
    }
}

// The clock of a segment.
fn value_of(stamps: Option<TimestampPair>) -> Option<Word>
    ensures { result ≡ option_map (λ t. t.value) stamps }
{
    match stamps {
        Some(stamps) => Some(stamps.value),
        None => None,
    }
}

// What is known after a step that does this with a SYN.
fn clocks_told(change: SynChange, stamps: Option<TimestampPair>, clocks: Clocks) -> Clocks
    ensures { result ≡ clocks_told change stamps clocks }
{
    match change {
        SynChange::Sends { .. } => Clocks {
            own: clocks.own || stamps.is_some(),
            ..clocks
        },
        SynChange::Takes { .. } => Clocks {
            peers: stamps.is_some(),
            recent: value_of(stamps),
            most: value_of(stamps),
            ..clocks
        },
        SynChange::Nothing | SynChange::ComesAgain => clocks,
    }
}

// The greatest position that is acknowledged at most after a step.
fn told_most_after(event: &Event, after: &View, told: u64) -> u64
    ensures { result ≡ told_most_after event.now after.now told }
{
    match event {
        Event::Builds(plan) if plan.flags.ack => told.max(after.rcv_nxt),
        Event::Builds(_)
        | Event::Opens
        | Event::Calls { .. }
        | Event::Processes { .. }
        | Event::Drops { .. }
        | Event::Sends(_)
        | Event::Expires(_)
        | Event::Recovers(_) => told,
    }
}

/// After a step.
pub fn clocks_after(seen: &Observation, event: &Event, after: &View, clocks: Clocks) -> Clocks
    ensures { result ≡ clocks_after seen.now event.now after.now clocks }
{
    let noted = Clocks {
        recent: recent_after(seen, event, clocks),
        most: newest_come(seen.arrival, seen.stamps, clocks.told_most, clocks.most),
        told: clocks.told.max(seen.acked),
        told_most: told_most_after(event, after, clocks.told_most),
        newest: newest_after(seen, event, clocks.newest),
        ..clocks
    };
    clocks_told(seen.syn_change, seen.stamps, noted)
}

// Whether the clock of a segment that comes is older than the newest.
fn is_outdated(clocks: Clocks, seen: &Observation) -> bool
    ensures { result ≡ is_outdated clocks seen.now }
{
    are_stamped(clocks)
        && seen.arrival.is_some()
        && match seen.stamps {
            Some(stamps) => is_older_than(stamps.value, clocks.most),
            None => false,
        }
}

// Whether a segment that comes lacks timestamps.
fn is_unstamped(clocks: Clocks, seen: &Observation) -> bool
    ensures { result ≡ is_unstamped clocks seen.now }
{
    are_stamped(clocks) && seen.arrival.is_some() && seen.stamps.is_none()
}

// What a step does, where it drops a segment that is too old, or lacks timestamps.
fn event_excused(outdated: bool, unstamped: bool, event: Event) -> Event
    ensures { result ≡ event_excused outdated unstamped event }
{
    match event {
        Event::Drops { asks, unlimited } => Event::Drops {
            asks: (asks || outdated) && !unstamped,
            unlimited,
        },
        Event::Opens
        | Event::Calls { .. }
        | Event::Processes { .. }
        | Event::Builds(_)
        | Event::Sends(_)
        | Event::Expires(_)
        | Event::Recovers(_) => event,
    }
}

fn touched_excused(outdated: bool, unstamped: bool, touched: TouchedEndpoint) -> TouchedEndpoint
    ensures { result ≡ touched_excused outdated unstamped touched }
{
    TouchedEndpoint {
        event: event_excused(outdated, unstamped, touched.event),
        ..touched
    }
}

fn dropping_excused(excused: bool, dropping: Dropping) -> Dropping
    ensures { result ≡ dropping_excused excused dropping }
{
    if excused {
        Dropping {
            droppable: Droppable::Yes,
            answerable: false,
            ..dropping
        }
    } else {
        dropping
    }
}

// Whether dropping it earns a credit.
fn earns_excused(outdated: bool, unstamped: bool, arrival: Option<Arrival>, earns: bool) -> bool
    ensures { result ≡ earns_excused outdated unstamped arrival earns }
{
    if !unstamped {
        return earns || outdated;
    }
    match arrival {
        Some(arrival) => 0 < arrival.length,
        None => false,
    }
}

fn excused_by(outdated: bool, unstamped: bool, seen: &Observation) -> Observation
    ensures { result ≡ excused_by outdated unstamped seen.now }
{
    Observation {
        touched: match seen.touched {
            Some(touched) => Some(touched_excused(outdated, unstamped, touched)),
            None => None,
        },
        dropping: match seen.dropping {
            Some(dropping) => Some(dropping_excused(outdated || unstamped, dropping)),
            None => None,
        },
        earns: earns_excused(outdated, unstamped, seen.arrival, seen.earns),
        ..*seen
    }
}

/// What duties see of a step that drops a segment.
pub fn excused_at(clocks: Clocks, seen: &Observation) -> Observation
    ensures { result ≡ excused_at clocks seen.now }
{
    if seen.dropping.is_none() {
        return *seen;
    }
    excused_by(is_outdated(clocks, seen), is_unstamped(clocks, seen), seen)
}
