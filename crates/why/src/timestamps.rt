//! The timestamps of a segment, and which ones it may have (RFC 7323).

use crate::late::describe_touched;
use crate::scene::{Scene, first_extra};
use case_forms::{Event, Host, Label, Wire};
use plain_words::Sheet;
use segment::{TimestampPair, timestamps};
use seqno::Word;
use spec_flights::{Clocks, Echoable};
use spec_tcp::Emission;

// The timestamps of the segment that a line shows.
fn stamps_of(wire: &Wire) -> Option<TimestampPair> {
    timestamps(wire.bytes.as_slice())
}

/// Writes what a segment echoes, and what it may echo. `number`: the number under which it was built.
pub(crate) fn echo(out: &mut Sheet, scene: &Scene, made: &Emission, number: u32, wire: &Wire) {
    describe_touched(out, scene);
    let Some(TimestampPair { echo, .. }) = stamps_of(wire) else {
        return out.put("it has no timestamps, though both SYNs had them\n");
    };
    match scene.flights.echoable(made.sender, number) {
        Some(echoable) => say_echoable(out, scene, made, echo, echoable),
        None => {}
    }
}

// Writes which timestamps a segment may echo that echoes this one.
fn say_echoable(out: &mut Sheet, scene: &Scene, made: &Emission, echo: Word, echoable: Echoable) {
    let (echo, from, upto) = (echo.0, echoable.from, echoable.upto);
    out.say(
        "it echoes the timestamp {}; when it was built, the endpoint had taken ",
        &[u64::from(echo)],
    );
    say_come(out, scene, made, from);
    if from != upto {
        out.put(", and what it had dropped may be echoed, too, up to ");
        say_come(out, scene, made, upto);
    }
    out.put("\n");
}

// Writes a timestamp, and the line in which it came to the sender of a segment, if one is found.
fn say_come(out: &mut Sheet, scene: &Scene, made: &Emission, value: Word) {
    let number = value.0;
    match come_in(scene, made, value) {
        Some(line) => out.say("{} (line {})", &[u64::from(number), line]),
        None => out.number(u64::from(number)),
    }
}

// The last line before the step that shows this timestamp in a segment for the sender of another one.
fn come_in(scene: &Scene, made: &Emission, value: Word) -> Option<u64> {
    let mut found = None;
    for line in scene.lines() {
        if let Event::Came(host, wire) = &line.event
            && is_for(made, *host, wire)
            && stamps_of(wire).is_some_and(|stamps| stamps.value == value)
            && scene.used_by(line.number).is_some()
        {
            found = Some(line.number);
        }
    }
    found
}

// Whether a segment that reaches a host is meant for the sender of another one.
fn is_for(made: &Emission, host: Host, wire: &Wire) -> bool {
    host == made.sender.host && wire.seg.dst == made.lport && wire.seg.src == made.rport
}

/// Writes the timestamps of two segments of which the one that was built later has the older. `number`: the number
/// under which the one of the step was built.
pub(crate) fn clock(out: &mut Sheet, scene: &Scene, made: &Emission, number: u32, wire: &Wire) {
    describe_touched(out, scene);
    let (Some(stamps), Some(newest)) = (stamps_of(wire), clocks_of(scene, made).newest) else {
        return;
    };
    let (own, other) = (stamps.value.0, newest.value.0);
    let order = if newest.number < number {
        "before"
    } else {
        "after"
    };
    out.say(
        "its timestamp is {}, and {} is that of a segment that was built ",
        &[u64::from(own), u64::from(other)],
    );
    out.put(order);
    out.put(" it");
    match sent_in(scene, newest.number) {
        Some(line) => out.say(" (line {})\n", &[line]),
        None => out.put("\n"),
    }
}

// What is known of timestamps at the sender of a segment.
fn clocks_of(scene: &Scene, made: &Emission) -> Clocks {
    let id = made.sender;
    scene.flights.clocks_at(id.host, id.number)
}

// The line that shows the segment of this number as sent.
fn sent_in(scene: &Scene, number: u32) -> Option<u64> {
    for step in scene.before {
        if let Label::L(named) = &step.label
            && first_extra(named.extras) == number
            && let Event::Sent(..) = &scene.line(named.number)?.event
        {
            return Some(named.number);
        }
    }
    None
}

/// Writes why the timestamp of a segment is no reason for an endpoint to drop it, if both SYNs had one. A reset may not
/// be dropped for its timestamp at all.
pub(crate) fn not_outdated(out: &mut Sheet, scene: &Scene, m: &Emission) {
    let Some(id) = scene.touched else {
        return;
    };
    let clocks = scene.flights.clocks_at(id.host, id.number);
    let stamps = timestamps(m.bytes.as_slice());
    match (clocks.most, stamps) {
        (Some(most), Some(stamps)) if clocks.own && clocks.peers && !m.flags.rst => out.say(
            "its timestamp {} is no reason to drop it: it isn't older than the newest that came, which is {}\n",
            &[u64::from(stamps.value.0), u64::from(most.0)],
        ),
        _ => {}
    }
}
