//! Several choices at once before a line that no step explains.

use crate::alternatives::{Known, NEAR, REACH};
use crate::candidates::Candidates;
use crate::choices::{Change, Fate, Remedy};
use crate::key::EndpointKey;
use case_forms::{Event, OutOfMemory, Wire};
use segment::Flag;
use verdict::Rule;

// How many choices are made at once before a failure, at most, and how many after it.
const TOGETHER: usize = 256;

/// Half of all sequence numbers: the farthest that a number may be ahead.
pub(crate) const HALF: u32 = 0x8000_0000;

/// Which arrivals are chosen at once.
#[derive(Clone, Copy)]
pub(crate) enum Kind {
    /// They have this flag.
    Has(Flag),
    /// They carry bytes or a FIN.
    HasLength,
    /// They carry the byte that the failing line acknowledges next.
    Covers,
    /// They carry more than the failing line acknowledges.
    EndsBeyond,
}

// A side of the failing line.
#[derive(Clone, Copy)]
enum Side {
    Before,
    After,
}

/// How many numbers a segment's bytes and its FIN have.
pub(crate) fn length_of(wire: &Wire) -> u32 {
    let len = u32::try_from(wire.seg.payload.len()).unwrap_or(u32::MAX);
    len.saturating_add(u32::from(wire.seg.has(Flag::Fin)))
}

/// The number after those of a segment's bytes and its FIN.
pub(crate) fn end_of(wire: &Wire) -> u32 {
    wire.seg.seq.0.wrapping_add(length_of(wire))
}

// Whether a segment carries the byte, or the FIN, of this number.
fn covers(wire: &Wire, number: u32) -> bool {
    number.wrapping_sub(wire.seg.seq.0) < length_of(wire)
}

// Whether a segment carries bytes, or a FIN, at this number or after it.
fn ends_beyond(wire: &Wire, number: u32) -> bool {
    let ahead = end_of(wire).wrapping_sub(number);
    length_of(wire) > 0 && ahead > 0 && ahead < HALF
}

impl Known<'_> {
    // The acknowledgment number of the failing line. None: it has none.
    fn shown_ack(&self) -> Option<u32> {
        match &self.lines.get(self.failure.place)?.event {
            Event::Sent(_, wire) if wire.seg.has(Flag::Ack) => Some(wire.seg.ack.0),
            _ => None,
        }
    }

    /// Adds choices at several lines at once, and arrivals beyond the window.
    pub(crate) fn together(&self, out: &mut Candidates) -> Result<(), OutOfMemory> {
        if self.failure.rule == Rule::BytesDiffer {
            self.gather(out, Kind::Covers, Fate::NotKept)?;
            self.gather(out, Kind::EndsBeyond, Fate::NotKept)?;
            self.hurry_all(out)?;
            return self.widen(out);
        }
        self.hurry_all(out)?;
        self.widen(out)?;
        self.drop_all(out)?;
        match (self.failure.rule, self.failure.key) {
            (Rule::OldData | Rule::Resent, Some(at)) => {
                self.expire_each(out, at)?;
                self.measure_less(out, at)
            }
            (Rule::ExpiryLate, Some(at)) => {
                self.expire_in_time(out, at, Remedy::Rto)?;
                self.expire_each(out, at)?;
                self.measure_less(out, at)
            }
            (Rule::ProbeLate, Some(at)) => self.expire_in_time(out, at, Remedy::Persist),
            (Rule::CallAnswer | Rule::TimerOff | Rule::ResendLate, Some(at)) => {
                self.expire_each(out, at)
            }
            (Rule::TimerEarly, Some(at)) => self.measure_less(out, at),
            _ => Ok(()),
        }
    }

    // One candidate: the last arrivals that were processed late are processed at once.
    fn hurry_all(&self, out: &mut Candidates) -> Result<(), OutOfMemory> {
        let places = self.findings.late.iter().rev().take(REACH);
        let places = places.filter(|place| self.is_at_failing_endpoint(**place));
        for place in places.take(TOGETHER) {
            out.add(*place, Change::Fate(Fate::Prompt))?;
        }
        out.end()
    }

    // The last arrivals that end beyond the window: an unseen segment that need not be sent advertised a larger one.
    fn widen(&self, out: &mut Candidates) -> Result<(), OutOfMemory> {
        let places = self.findings.beyond.iter().rev().take(REACH);
        let places = places.filter(|place| self.is_at_failing_endpoint(**place));
        let places = places.filter(|place| !self.must_be_sent(**place));
        for place in places.take(NEAR) {
            out.push(*place, Change::Fate(Fate::Widened))?;
        }
        Ok(())
    }

    // Resets, SYNs or FINs are dropped. A host that ignores one reset may ignore a flood of them, so the resets after
    // the failure are dropped, too.
    fn drop_all(&self, out: &mut Candidates) -> Result<(), OutOfMemory> {
        let resets = Kind::Has(Flag::Rst);
        self.add(out, resets, Fate::Dropped, Side::Before)?;
        self.add(out, resets, Fate::Dropped, Side::After)?;
        out.end()?;
        self.gather(out, Kind::Has(Flag::Syn), Fate::Dropped)?;
        self.gather(out, Kind::Has(Flag::Fin), Fate::Dropped)
    }

    // One candidate: the retransmission timer expires before each retransmission, if it may.
    fn expire_each(&self, out: &mut Candidates, at: EndpointKey) -> Result<(), OutOfMemory> {
        let mut end: Option<u32> = None;
        let first = self.failure.place.saturating_sub(REACH);
        for place in first..=self.failure.place {
            let Some(wire) = self.sent_by(at, place) else {
                continue;
            };
            match end {
                Some(end) if HALF <= wire.seg.seq.0.wrapping_sub(end) => {
                    out.add(place, Change::Before(at, Remedy::Rto))?
                }
                _ => end = Some(end_of(wire)),
            }
        }
        out.end()
    }

    // The moment of the line at a place, in microseconds.
    fn moment_at(&self, place: usize) -> u64 {
        self.lines.get(place).map_or(0, |line| line.moment)
    }

    // A timer expires before the failure, as early as the slack permits if its segment is sent then.
    fn expire_in_time(
        &self,
        out: &mut Candidates,
        at: EndpointKey,
        remedy: Remedy,
    ) -> Result<(), OutOfMemory> {
        let Some(line) = self.lines.get(self.failure.place) else {
            return Ok(());
        };
        let first = line.moment.saturating_sub(self.longest_wait);
        let places = (1..=REACH).map_while(|distance| self.place_at(Side::Before, distance));
        let near = places.take_while(|place| first <= self.moment_at(*place));
        match near.last() {
            Some(place) => out.push(place, Change::Before(at, remedy)),
            None => Ok(()),
        }
    }

    // The segment with bytes or a FIN that an endpoint sends with the line at a place.
    fn sent_by(&self, key: EndpointKey, place: usize) -> Option<&Wire> {
        match &self.lines.get(place)?.event {
            Event::Sent(host, wire)
                if EndpointKey::sender(*host, wire) == key && length_of(wire) > 0 => { Some(wire) }
            _ => None,
        }
    }

    /// One candidate: all arrivals of a kind before the failure have this fate.
    pub(crate) fn gather(
        &self,
        out: &mut Candidates,
        kind: Kind,
        fate: Fate,
    ) -> Result<(), OutOfMemory> {
        self.add(out, kind, fate, Side::Before)?;
        out.end()
    }

    // The arrivals of a kind on one side of the failure have this fate, the nearest first.
    fn add(
        &self,
        out: &mut Candidates,
        kind: Kind,
        fate: Fate,
        side: Side,
    ) -> Result<(), OutOfMemory> {
        let places = (1..=REACH).map_while(|distance| self.place_at(side, distance));
        let places = places.filter(|place| self.is_arrival_of(*place, kind));
        for place in places.take(TOGETHER) {
            out.add(place, Change::Fate(fate))?;
        }
        Ok(())
    }

    // The place at a distance from the failure.
    fn place_at(&self, side: Side, distance: usize) -> Option<usize> {
        match side {
            Side::Before => self.failure.place.checked_sub(distance),
            Side::After => self.failure.place.checked_add(distance),
        }
    }

    // Whether a line applies to the endpoint of the failure, or that endpoint isn't known.
    fn is_at_failing_endpoint(&self, place: usize) -> bool {
        match (self.lines.get(place), self.failure.key) {
            (Some(line), Some(key)) => EndpointKey::of_line(line) == Some(key),
            (Some(_), None) => true,
            (None, _) => false,
        }
    }

    /// Whether a line shows an arrival of this kind at the endpoint of the failure.
    pub(crate) fn is_arrival_of(&self, place: usize, kind: Kind) -> bool {
        let event = self.lines.get(place).map(|line| &line.event);
        let Some(Event::Came(_, wire)) = event else {
            return false;
        };
        self.is_at_failing_endpoint(place)
            && match (kind, self.shown_ack()) {
                (Kind::Has(flag), _) => wire.seg.has(flag),
                (Kind::HasLength, _) => length_of(wire) > 0,
                (Kind::Covers, Some(ack)) => covers(wire, ack),
                (Kind::EndsBeyond, Some(ack)) => ends_beyond(wire, ack),
                (Kind::Covers | Kind::EndsBeyond, None) => false,
            }
    }
}
