//! Which timestamps the line of a segment may show (RFC 7323, 3.2, 4.3 and 5.2).

ghost use Rattle.std.specs.Prelude.{◌≡◌, false, OnOk};
ghost use Rattle.std.specs.Option.{option_map_or};
ghost use Rattle.spec_flights.specs.Echoes.{clock_falls, echoable_now, echoes_after, echoes_built, is_echoable};
ghost use Rattle.spec_flights.specs.Echoes.{is_wrong_echo, mistimed_by, stamps_untrue};
ghost use Rattle.spec_network.specs.Tables.{settled, waiting};

use crate::clocks::{ahead, is_older, shows_echo};
use crate::numbers::{number_built, number_sent};
use case_forms::OutOfMemory;
use segment::TimestampPair;
use seqno::Word;
use spec_duties::{Event, Observation, Sending, Untruth};
use spec_flights::{Clocks, Echoable, Newest};
use tables::Table;

// What a segment may echo that is built now.
fn echoable_now(clocks: Clocks, recent: Word) -> Echoable
    ensures { result ≡ echoable_now clocks recent }
{
    Echoable {
        from: recent,
        upto: match clocks.most {
            Some(most) => most,
            None => recent,
        },
    }
}

// Notes what the segment may echo that is built under this number.
fn note_built(
    echoes: &mut Table<Option<Echoable>>,
    number: u32,
    clocks: Clocks,
) -> Result<(), OutOfMemory>
    ensures { OnOk result (echoes.new.entries ≡ echoes_built number clocks echoes.old.entries) }
{
    match clocks.recent {
        Some(recent) => echoes.insert(u64::from(number), Some(echoable_now(clocks, recent))),
        None => Ok(()),
    }
}

/// Notes a step at an endpoint of which this was known of timestamps before.
pub fn note_echoes(
    echoes: &mut Table<Option<Echoable>>,
    seen: &Observation,
    event: &Event,
    clocks: Clocks,
) -> Result<(), OutOfMemory>
    ensures { OnOk result (echoes.new.entries ≡ echoes_after seen.now event.now clocks echoes.old.entries) }
{
    match event {
        Event::Builds(_) => note_built(echoes, number_built(seen.built_change), clocks),
        Event::Sends(_) if clocks.recent.is_some() => {
            echoes.insert(u64::from(number_sent(seen.built_change)), None)
        }
        Event::Opens
        | Event::Calls { .. }
        | Event::Processes { .. }
        | Event::Drops { .. }
        | Event::Sends(_)
        | Event::Expires(_)
        | Event::Recovers(_) => Ok(()),
    }
}

// What the segment of this number may echo, if that is known.
fn waiting(echoes: &Table<Option<Echoable>>, number: u32) -> Option<Echoable>
    ensures { result ≡ waiting number echoes.now.entries }
{
    match echoes.get(u64::from(number)) {
        Some(echoable) => *echoable,
        None => None,
    }
}

fn is_echoable(echoable: Echoable, value: Word) -> bool
    ensures { result ≡ is_echoable echoable value }
{
    ahead(echoable.from, value) <= ahead(echoable.from, echoable.upto)
}

// Whether a segment lacks timestamps, or doesn't echo what it may.
fn is_wrong_echo(echoable: Option<Echoable>, is_syn: bool, stamps: Option<TimestampPair>) -> bool
    ensures { result ≡ is_wrong_echo echoable is_syn stamps }
{
    match (stamps, echoable) {
        (Some(stamps), Some(echoable)) => !is_echoable(echoable, stamps.echo),
        (Some(_), None) => false,
        (None, _) => !is_syn,
    }
}

// Whether a segment was built later than the newest and is older, or the other way round.
fn clock_falls(number: u32, stamps: TimestampPair, newest: Newest) -> bool
    ensures { result ≡ clock_falls number stamps newest }
{
    if newest.number < number {
        is_older(stamps.value, newest.value)
    } else {
        is_older(newest.value, stamps.value)
    }
}

// The same, if it has a timestamp, and another one had.
fn falls(number: u32, stamps: Option<TimestampPair>, newest: Option<Newest>) -> bool
    ensures { result ≡ option_map_or (λ t. option_map_or (clock_falls number t) newest false) stamps false }
{
    match (stamps, newest) {
        (Some(stamps), Some(newest)) => clock_falls(number, stamps, newest),
        _ => false,
    }
}

// What the line of the segment of this number shows that may not be.
fn stamps_untrue(
    number: u32,
    echoable: Option<Echoable>,
    sending: &Sending,
    stamps: Option<TimestampPair>,
    clocks: Clocks,
) -> Option<Untruth>
    ensures { result ≡ stamps_untrue number echoable sending.now stamps clocks }
{
    if shows_echo(clocks, sending) && is_wrong_echo(echoable, sending.flags.syn, stamps) {
        return Some(Untruth::Echo);
    }
    if falls(number, stamps, clocks.newest) {
        return Some(Untruth::Clock);
    }
    None
}

/// What the line of a segment shows of timestamps that may not be, if a step is one.
pub fn mistimed_by(
    seen: &Observation,
    event: &Event,
    clocks: Clocks,
    echoes: &Table<Option<Echoable>>,
) -> Option<Untruth>
    ensures { result ≡ mistimed_by seen.now event.now clocks echoes.now.entries }
{
    let Event::Sends(sending) = event else {
        return None;
    };
    let number = number_sent(seen.built_change);
    stamps_untrue(
        number,
        waiting(echoes, number),
        sending,
        seen.stamps,
        clocks,
    )
}
