//! Events and event lines.

ghost use Rattle.line_fields.specs.Reading.{Gives};
ghost use Rattle.line_fields.specs.Choice.{kind_field};
ghost use Rattle.trace_reader.specs.Events.{letter_name, all_letters};
ghost use Rattle.trace_reader.specs.EventFields.{host_wire, expired_fields, event_field};
ghost use Rattle.trace_reader.specs.EventLines.{line_of};

use crate::calls::call;
use crate::wires::wire;
use case_forms::{Event, GREATEST_MOMENT, Host, Line, Version, Wire};
use line_fields::{FaultKind, Fields, Span, TextFault, answer, checked_fields, timer};
use std::alloc::Global;

// The letter of an event.
#[derive(Clone, Copy)]
enum Letter {
    B,
    E,
    O,
    I,
    T,
}

// The next field, which is the letter of an event.
fn event_letter(fields: &mut Fields) -> Result<Letter, TextFault>
    ensures { Gives (λ letter. (letter, fields.new)) result (kind_field letter_name all_letters fields.old) }
{
    let name = fields.next()?;
    if name.is("B") {
        Ok(Letter::B)
    } else if name.is("E") {
        Ok(Letter::E)
    } else if name.is("O") {
        Ok(Letter::O)
    } else if name.is("I") {
        Ok(Letter::I)
    } else if name.is("T") {
        Ok(Letter::T)
    } else {
        Err(name.fault(FaultKind::Field))
    }
}

// A host, and a segment that was observed there.
#[tactic(auto, unfolding(crate::specs::EventFields::host_wire))]
fn host_wire(
    alloc: Global,
    version: Version,
    fields: &mut Fields,
) -> Result<(Host, Wire), TextFault>
    ensures { Gives (λ seen. (seen, fields.new)) result (host_wire version fields.old) }
{
    let host = fields.host(version)?;
    let wire = wire(alloc, fields)?;
    Ok((host, wire))
}

// What follows `T`: the host, the local and the remote port, and the timer.
#[tactic(auto, unfolding(crate::specs::EventFields::expired_fields))]
fn expiry(version: Version, fields: &mut Fields) -> Result<Event, TextFault>
    ensures { Gives (λ event. (event, fields.new)) result (expired_fields version fields.old) }
{
    let host = fields.host(version)?;
    let local = fields.port()?;
    let remote = fields.port()?;
    let timer = timer(version, fields)?;
    Ok(Event::Expired(host, local, remote, timer))
}

// An event, the last of its line.
#[tactic(auto, unfolding(crate::specs::EventFields::event_field))]
fn event(alloc: Global, version: Version, fields: &mut Fields) -> Result<Event, TextFault>
    ensures { Gives (λ event. (event, fields.new)) result (event_field version fields.old) }
{
    match event_letter(fields)? {
        Letter::B => Ok(Event::CallBegin(call(alloc, version, fields)?)),
        Letter::E => Ok(Event::CallEnd(answer(alloc, fields)?)),
        Letter::O => {
            let (host, wire) = host_wire(alloc, version, fields)?;
            Ok(Event::Sent(host, wire))
        }
        Letter::I => {
            let (host, wire) = host_wire(alloc, version, fields)?;
            Ok(Event::Came(host, wire))
        }
        Letter::T => expiry(version, fields),
    }
}

/// The event line with that number in a text of this version, whose bytes are given with the line's end. `before` is
/// the moment of the event line before it, in microseconds, or 0 if there is none; a moment below it is MomentFalls at
/// its field. Fields are checked from left to right; a field too many is found last.
#[tactic(auto, unfolding(crate::specs::EventLines::line_of))]
#[inline(always)]
pub fn event_line(
    alloc: Global,
    version: Version,
    before: u64,
    number: u64,
    raw: &[u8],
) -> Result<Line, TextFault>
    ensures { Gives (λ line. line) result (line_of version (before, number) raw.now) }
{
    let mut fields = checked_fields(number, raw)?;
    let stop = fields.stop();
    let moment = fields.rising(before, GREATEST_MOMENT)?;
    let thread = fields.number32()?;
    let event = event(alloc, version, &mut fields)?;
    fields.end()?;
    let span = Span {
        line: number,
        start: 0,
        stop,
    };
    Ok(Line {
        number,
        moment,
        thread,
        event,
        span,
    })
}
