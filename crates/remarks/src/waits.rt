//! An endpoint's timers, and its waits with nothing sent: timers that are past their time, open windows, and a SYN that
//! is given up too early. Times and moments are microseconds.

use crate::found::{Found, Time, Who};
use crate::notes::Note;
use crate::review::{Review, endpoint_at};
use case_forms::{OutOfMemory, State, Timer};
use endpoint_state::World;
use line_fields::timer_name;
use spec_tcp::{Endpoint, EndpointId};
use std::fmt;

// No stack needs to expire earlier than after a second (RFC 6298, 2.4).
const SHORTEST: u64 = 1_000_000;

// Before the first sample of a round trip, a stack may still have a timeout of 3 seconds (RFC 6298, 2.1).
const FIRST: u64 = 3_000_000;

// No back-off has to go beyond a minute (RFC 6298, 2.5).
const LONGEST: u64 = 60_000_000;

// A SYN is retransmitted for at least 3 minutes (RFC 9293, 3.8.3).
const SYN_LASTS: u64 = 180_000_000;

// Data waits at most a second for a fuller segment (RFC 9293, 3.8.6.2.1). A window that opens later than that is
// remarked on, too, though no RFC says when it has to open.
const OVERRIDE: u64 = 1_000_000;

/// A timer that is armed.
#[derive(Clone, Copy)]
pub(crate) struct Clock {
    pub timer: Timer,
    /// Since when it is armed.
    pub armed: u64,
    /// Since when it runs with something to send.
    pub since: u64,
    /// After how long it is due.
    pub time: u64,
}

/// The probes of a window since it closed.
#[derive(Clone, Copy, Default)]
pub(crate) struct Probes {
    /// How many were due, also with no line for an expiry.
    count: u32,
    /// The longest wait before one of them.
    wait: u64,
    /// The greatest retransmission timeout.
    rto: u64,
}

impl Probes {
    /// The probes while the retransmission timeout is this one.
    pub(crate) fn with(mut self, rto: u64) -> Probes {
        self.rto = rto.max(self.rto);
        self
    }

    /// The probes with one more, after a wait.
    pub(crate) fn longer(mut self, wait: u64) -> Probes {
        self.count = self.count.saturating_add(1);
        self.wait = wait.max(self.wait);
        self
    }

    // After how long the next one is due: no back-off has to go beyond the limit, but it may go on to double.
    fn time(self) -> u64 {
        let longest = LONGEST.max(self.wait.saturating_mul(2));
        backed_off(self.rto, self.count, longest)
    }
}

impl Note {
    /// The timer of an endpoint at a moment: the persist timer if it is armed, otherwise the retransmission timer.
    /// None: it is off, or there is nothing to probe for.
    pub(crate) fn clock_of(&self, endpoint: &Endpoint, moment: u64) -> Option<Clock> {
        let timers = &endpoint.timers;
        let Some(armed) = timers.persist_armed else {
            return self.rto_clock(endpoint, moment);
        };
        if endpoint.flight() == 0 && waiting_bytes(endpoint) == 0 {
            return None;
        }
        let before = self
            .armed(Timer::Persist)
            .filter(|clock| clock.armed == armed);
        Some(Clock {
            timer: Timer::Persist,
            armed,
            since: before.map_or(moment, |clock| clock.since),
            time: self.probes.time(),
        })
    }

    // The retransmission timer after all its expiries, of which the last ones are in no line. While the window was
    // closed, the persist timer ran instead, although a probe is outstanding.
    fn rto_clock(&self, endpoint: &Endpoint, moment: u64) -> Option<Clock> {
        let timers = &endpoint.timers;
        let armed = timers.rto_armed?;
        let before = self.armed(Timer::Rto).filter(|clock| clock.armed == armed);
        let was_closed = self.armed(Timer::Persist).is_some();
        let since = if was_closed { moment } else { armed };
        let time = backed_off(timers.rto, self.unseen, LONGEST);
        Some(Clock {
            timer: Timer::Rto,
            armed,
            since: before.map_or(since, |clock| clock.since),
            time: match timers.srtt {
                Some(_) => time,
                None => time.max(backed_off(FIRST, self.expiries, LONGEST)),
            },
        })
    }

    /// The stall of an endpoint at a moment.
    pub(crate) fn stall_of(&self, endpoint: &Endpoint, moment: u64) -> Option<Stall> {
        let bytes = waiting_bytes(endpoint);
        let room = u64::from(endpoint.window.snd_wnd);
        if !may_send(endpoint.state) || endpoint.flight() != 0 || bytes == 0 || room == 0 {
            return None;
        }
        let since = self.stall.map_or(moment, |stall| stall.since);
        Some(Stall { since, bytes, room })
    }

    /// Since when the window is closed, at a moment, although all that was received was delivered. None: it isn't.
    pub(crate) fn shut_of(&self, endpoint: &Endpoint, moment: u64) -> Option<u64> {
        let is_offered = self.edge == 0 || endpoint.rcv_nxt() < self.edge;
        if is_offered || !may_receive(endpoint.state) || endpoint.stream.receive.has_waiting() {
            return None;
        }
        Some(self.shut.unwrap_or(moment))
    }
}

// A timeout that doubled so many times (RFC 6298, 5.5; RFC 9293, 3.8.6.1), at most the longest.
fn backed_off(rto: u64, times: u32, longest: u64) -> u64 {
    let factor = 1_u64.checked_shl(times);
    let doubled = factor.map_or(longest, |factor| rto.saturating_mul(factor));
    doubled.min(longest).max(SHORTEST)
}

// How many bytes a send accepted and no segment carries yet.
fn waiting_bytes(endpoint: &Endpoint) -> u64 {
    let end = endpoint.stream.accepted.end();
    end.saturating_sub(endpoint.snd_max().max(1))
}

/// Bytes wait although the window is open and nothing is in flight.
#[derive(Clone, Copy)]
pub(crate) struct Stall {
    pub since: u64,
    pub bytes: u64,
    /// The window that the peer offers.
    pub room: u64,
}

impl fmt::Display for Stall {
    fn fmt<W: fmt::Write>(&self, f: &mut fmt::Formatter<W>) -> fmt::Result {
        match self.bytes {
            1 => write!(f, "1 byte waits")?,
            bytes => write!(f, "{bytes} bytes wait")?,
        }
        write!(f, ", the window is {}", self.room)
    }
}

// Whether bytes may be sent in a state.
fn may_send(state: State) -> bool {
    matches!(
        state,
        State::Established | State::FinWait1 | State::CloseWait | State::Closing | State::LastAck
    )
}

// Whether bytes may come in a state.
fn may_receive(state: State) -> bool {
    matches!(
        state,
        State::Established | State::FinWait1 | State::FinWait2
    )
}

/// The wait that back-off requires after one of `before` (RFC 6298, 5.5). A minute is always enough.
pub(crate) fn required_wait(before: u64) -> u64 {
    before.saturating_mul(2).min(LONGEST)
}

/// Whether a wait before a retransmission is too short after one of `before`. An eighth of what is required and a
/// clock's granularity are left to late timers.
pub(crate) fn is_short(wait: u64, before: u64, grain: u64) -> bool {
    let doubled = before.saturating_mul(2);
    let least = (doubled - doubled / 8).saturating_sub(grain);
    wait < least.min(LONGEST)
}

/// Up to when nothing was sent: a line, a moment, and by whom.
#[derive(Clone, Copy)]
pub(crate) struct Now {
    pub line: u64,
    pub moment: u64,
    pub who: Who,
}

impl Review<'_> {
    /// A timer of an endpoint expired with a line.
    pub(crate) fn expire(
        &mut self,
        world: &World,
        id: EndpointId,
        timer: Timer,
        line: u64,
    ) -> Result<(), OutOfMemory> {
        let Some(endpoint) = endpoint_at(world, id) else {
            return Ok(());
        };
        let (una, who) = (
            endpoint.stream.snd_una,
            Who::from_endpoint(id.host, endpoint),
        );
        let moment = self.moment;
        let now = Now { line, moment, who };
        let note = self.note(id)?;
        note.expire(timer, now, una);
        let begun = note.begun;
        if let (Timer::Giveup, Some(begun), 0) = (timer, begun, una) {
            let grain = self.case.trace.header.grain;
            say_given_up(&mut self.found, now, begun, grain)?;
        }
        self.touch(world, id, line)
    }

    /// Compares an endpoint after a step with what is remembered of it. What ends there ends with this line.
    pub(crate) fn touch(
        &mut self,
        world: &World,
        id: EndpointId,
        line: u64,
    ) -> Result<(), OutOfMemory> {
        let moment = self.moment;
        let Some(endpoint) = endpoint_at(world, id) else {
            return Ok(());
        };
        let who = Who::from_endpoint(id.host, endpoint);
        let note = self.note(id)?;
        let before = *note;
        note.see(endpoint, moment);
        let after = *note;
        say_ended(&mut self.found, Now { line, moment, who }, &before, &after)
    }
}

// Remarks on the waits that ended.
fn say_ended(found: &mut Found, now: Now, before: &Note, after: &Note) -> Result<(), OutOfMemory> {
    let runs_on = match (before.clock, after.clock) {
        (Some(was), Some(is)) => was.timer as u8 == is.timer as u8 && was.since == is.since,
        _ => false,
    };
    if !runs_on {
        say_late(found, now, before)?;
    }
    if after.stall.is_none() {
        say_stall(found, now, before.stall)?;
    }
    if after.shut.is_none() {
        say_shut(found, now, before.shut)?;
    }
    Ok(())
}

// Remarks on a SYN that was first sent at a moment, and is given up too early. A clock's granularity is tolerated.
fn say_given_up(found: &mut Found, now: Now, begun: u64, grain: u64) -> Result<(), OutOfMemory> {
    let lasted = now.moment.saturating_sub(begun);
    if SYN_LASTS <= lasted.saturating_add(grain) {
        return Ok(());
    }
    let instead = "instead of at least 3 minutes (RFC 9293, 3.8.3)";
    let what = &format_args!("its SYN after {} {instead}", Time(lasted));
    found.add(now.line, now.who, "gives up", what)
}

/// Remarks on a timer that ran for more than twice its time with nothing sent, unless rules judge that.
pub(crate) fn say_late(found: &mut Found, now: Now, note: &Note) -> Result<(), OutOfMemory> {
    let Some(clock) = note.clock.filter(|_| !found.covered.duties) else {
        return Ok(());
    };
    let ran = now.moment.saturating_sub(clock.since.max(note.last_sent));
    let late = ran.saturating_sub(clock.time);
    if late <= clock.time {
        return Ok(());
    }
    let (timer, time, late) = (timer_name(clock.timer), Time(clock.time), Time(late));
    let what = &format_args!("its {timer} timer ({time}) is {late} overdue");
    found.add(now.line, now.who, "sends nothing:", what)
}

/// Remarks on a window that is open for long, unless a rule judges that.
pub(crate) fn say_stall(
    found: &mut Found,
    now: Now,
    stall: Option<Stall>,
) -> Result<(), OutOfMemory> {
    let Some(stall) = stall.filter(|_| !found.covered.duties) else {
        return Ok(());
    };
    let time = now.moment.saturating_sub(stall.since);
    if time <= OVERRIDE {
        return Ok(());
    }
    let what = &format_args!("{} with the window open: {stall}", Time(time));
    found.add(now.line, now.who, "sends nothing for", what)
}

/// Remarks on a window that was closed for long, since a moment, with nothing left to deliver.
pub(crate) fn say_shut(found: &mut Found, now: Now, since: Option<u64>) -> Result<(), OutOfMemory> {
    let Some(since) = since else {
        return Ok(());
    };
    let time = now.moment.saturating_sub(since);
    if time <= OVERRIDE {
        return Ok(());
    }
    let what = &format_args!("{} although all bytes were delivered", Time(time));
    found.add(now.line, now.who, "keeps its window closed for", what)
}
