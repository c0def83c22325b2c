//! Acknowledgments that are sent again and again: at most one for each segment that arrives, other than to update the
//! window (RFC 5681, 4.2).

use crate::found::{Found, Lines, Who};
use crate::notes::Note;
use crate::review::{Review, endpoint_of};
use crate::waits::Now;
use case_forms::{Host, OutOfMemory, SegmentPlan, Version};
use endpoint_state::World;
use spec_tcp::{Arrived, Emission, Endpoint};
use std::fmt;

// So many more than segments asked for are no remark: the lines may lack arrivals, or have a whole burst of them before
// its first acknowledgment.
const TOLERATED: u64 = 100;

/// A segment that acknowledges a position, and does nothing else.
#[derive(Clone, Copy)]
pub(crate) struct PureAck {
    ack: u64,
    /// Its window field.
    window: u16,
}

impl PureAck {
    /// The segment of a plan. None: it does something else, or begins with an acknowledged position, as keep-alives and
    /// probes without data do (RFC 9293, 3.8.4).
    pub(crate) fn from_plan(endpoint: &Endpoint, plan: &SegmentPlan) -> Option<PureAck> {
        let (flags, window) = (plan.flags, plan.window);
        let carries = flags.syn || flags.fin || flags.rst || plan.len != 0;
        if carries || !flags.ack || plan.pos < endpoint.stream.snd_una {
            return None;
        }
        let ack = endpoint.rcv_nxt();
        Some(PureAck { ack, window })
    }
}

/// Equal acknowledgments of an endpoint, with no other one between them.
#[derive(Clone, Copy)]
pub(crate) struct EqualAcks {
    who: Who,
    pure_ack: PureAck,
    times: u64,
    lines: Lines,
}

impl fmt::Display for EqualAcks {
    fn fmt<W: fmt::Write>(&self, f: &mut fmt::Formatter<W>) -> fmt::Result {
        let (times, ack) = (self.times, self.pure_ack.ack);
        write!(f, "{times} equal acknowledgments of {ack}")
    }
}

impl EqualAcks {
    fn is_of(&self, pure_ack: PureAck) -> bool {
        self.pure_ack.ack == pure_ack.ack && self.pure_ack.window == pure_ack.window
    }

    // The acknowledgments with one more.
    fn longer(mut self, line: u64) -> EqualAcks {
        self.times = self.times.saturating_add(1);
        self.lines = Lines(self.lines.0, line);
        self
    }
}

impl Note {
    /// Takes an acknowledgment that is sent. If it differs from those before it, they have come to an end. Of what
    /// asked until then and wasn't answered, as much as is tolerated is left for it.
    pub(crate) fn acknowledge(
        &mut self,
        found: &mut Found,
        pure_ack: PureAck,
        now: Now,
    ) -> Result<(), OutOfMemory> {
        if let Some(equal_acks) = self.equal_acks {
            if equal_acks.is_of(pure_ack) {
                self.equal_acks = Some(equal_acks.longer(now.line));
                return Ok(());
            }
            self.say_equal_acks(found)?;
        }
        let answered = self.equal_acks.map_or(0, |equal_acks| equal_acks.times);
        self.asked = self.asked.saturating_sub(answered).min(TOLERATED);
        self.equal_acks = Some(EqualAcks {
            who: now.who,
            pure_ack,
            times: 1,
            lines: Lines(now.line, now.line),
        });
        Ok(())
    }

    /// Remarks on the last equal acknowledgments, if they are too many.
    pub(crate) fn say_equal_acks(&self, found: &mut Found) -> Result<(), OutOfMemory> {
        let Some(equal_acks) = self.equal_acks else {
            return Ok(());
        };
        if equal_acks.times <= self.asked.saturating_add(TOLERATED) {
            return Ok(());
        }
        let asked = "more than were asked for (RFC 5681, 4.2)";
        let what = &format_args!("{equal_acks}, over {TOLERATED} {asked}");
        found.add_at(equal_acks.lines, equal_acks.who, "sends", what)
    }
}

impl Review<'_> {
    /// A segment arrives with a line, and may ask for an acknowledgment.
    pub(crate) fn count_asked(
        &mut self,
        world: &World,
        host: Host,
        line: u64,
    ) -> Result<(), OutOfMemory> {
        let Some(segment) = world.waiting(host, line) else {
            return Ok(());
        };
        let receiver = endpoint_of(world, host, segment.rport, segment.lport);
        if let Some((id, endpoint)) = receiver
            && asks(self.case.trace.header.version, endpoint, segment)
        {
            let note = self.note(id)?;
            note.asked = note.asked.saturating_add(1);
        }
        Ok(())
    }
}

// Whether a segment asks for an acknowledgment: it carries something, its number isn't the next one expected, or it
// acknowledges what isn't outstanding.
fn asks(version: Version, endpoint: &Endpoint, segment: &Emission) -> bool {
    let Some(read) = Arrived::checked_read(version, endpoint, segment) else {
        return true;
    };
    let flags = segment.flags;
    let carries = flags.syn || flags.fin || flags.rst || !segment.payload.is_empty();
    let una = endpoint.stream.snd_una;
    let is_outstanding = una <= read.ack() && read.ack() <= endpoint.snd_max();
    carries || read.pos() != endpoint.rcv_nxt() || !is_outstanding
}
