//! Round trips that a host may not have measured.
//!
//! RFC 6298, 3 lets a host measure one round trip at a time. Then the segments that are sent while it measures one
//! aren't measured.

use crate::alternatives::{Known, REACH};
use crate::candidates::Candidates;
use crate::choices::{Change, Fate};
use crate::key::EndpointKey;
use crate::together::{HALF, Kind, end_of};
use case_forms::{Event, Line, OutOfMemory, Wire};
use segment::Flag;

// What a host measures that measures one round trip at a time.
#[derive(Clone, Copy)]
struct Timing {
    /// The number after all that was sent.
    max: Option<u32>,
    /// The number after the segment that is measured.
    timed: Option<u32>,
}

impl Timing {
    // A segment is sent. It's measured if none is, and if it's no retransmission; a retransmission ends the measurement
    // (RFC 6298, 3: Karn's algorithm).
    fn send(&mut self, wire: &Wire) {
        let end = end_of(wire).wrapping_add(u32::from(wire.seg.has(Flag::Syn)));
        let is_new = self
            .max
            .is_none_or(|max| end != max && end.wrapping_sub(max) < HALF);
        if end == wire.seg.seq.0 {
            return;
        }
        if is_new {
            self.max = Some(end);
            self.timed = self.timed.or(Some(end));
        } else {
            self.timed = None;
        }
    }

    // A segment arrives. The result is whether it acknowledges what is measured.
    fn receive(&mut self, wire: &Wire) -> bool {
        let ack = wire.seg.ack.0;
        let is_measured = self
            .timed
            .is_some_and(|timed| ack.wrapping_sub(timed) < HALF);
        if is_measured {
            self.timed = None;
        }
        is_measured
    }

    // Whether a line shows an arrival at an endpoint that measures nothing.
    fn passes(&mut self, line: &Line, at: EndpointKey) -> bool {
        match &line.event {
            Event::Sent(host, wire) if EndpointKey::sender(*host, wire) == at => {
                self.send(wire);
                false
            }
            Event::Came(_, wire) if EndpointKey::of_line(line) == Some(at) => {
                wire.seg.has(Flag::Ack) && !self.receive(wire)
            }
            Event::Sent(..)
            | Event::Came(..)
            | Event::CallBegin(_)
            | Event::CallEnd(_)
            | Event::Expired(..) => false,
        }
    }
}

impl Known<'_> {
    /// Two candidates: an endpoint measured one round trip at a time, or none.
    pub(crate) fn measure_less(
        &self,
        out: &mut Candidates,
        at: EndpointKey,
    ) -> Result<(), OutOfMemory> {
        let mut timing = Timing {
            max: None,
            timed: None,
        };
        let first = self.failure.place.saturating_sub(REACH);
        for place in first..self.failure.place {
            let line = self.lines.get(place);
            if line.is_some_and(|line| timing.passes(line, at)) {
                out.add(place, Change::Fate(Fate::Unmeasured))?;
            }
        }
        out.end()?;
        self.gather(out, Kind::Has(Flag::Ack), Fate::Unmeasured)
    }
}
