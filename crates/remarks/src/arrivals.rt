//! What arrives: dropped although it may be processed, or processed and not kept.

use crate::found::{Stretch, Who};
use crate::notes::{Permit, position_key};
use crate::review::{Review, endpoint_of};
use case_forms::{Flags, Host, OutOfMemory, Step, TakeChoice};
use endpoint_state::World;
use replayed::{Replay, ReplayFault};
use seqno::number;
use spec_tcp::{Arrived, Emission, Endpoint, EndpointId};
use std::fmt;

// The choice with which a segment may be processed if it may be with any.
const LEAST: TakeChoice = TakeChoice {
    cwnd: 0,
    keep: true,
    sample: false,
};

/// A segment that waits in the inbox of a host, and the endpoint that it is for.
#[derive(Clone, Copy)]
pub(crate) struct Arrival<'w> {
    host: Host,
    /// The line with which it arrived.
    line: u64,
    segment: &'w Emission,
    /// None: there was never an endpoint with its ports.
    receiver: Option<(EndpointId, &'w Endpoint)>,
}

/// A reset that arrived.
#[derive(Clone, Copy)]
pub(crate) struct Reset {
    /// The line with which it arrived.
    pub line: u64,
    /// The endpoint was to send a reset before that.
    pub was_due: bool,
}

// The bytes of a segment, and the position of its FIN.
#[derive(Clone, Copy)]
struct Carried {
    bytes: Option<Stretch>,
    fin: Option<u64>,
}

impl Carried {
    // What a segment carries whose number has this position.
    fn new(segment: &Emission, position: u64) -> Carried {
        let first = position.saturating_add(u64::from(segment.flags.syn));
        let end = first.saturating_add(segment.payload.len() as u64);
        Carried {
            bytes: Stretch::up_to(first, end),
            fin: segment.flags.fin.then_some(end),
        }
    }

    // What of it lies in the receive window of an endpoint and wasn't received in order.
    fn fresh(&self, endpoint: &Endpoint) -> Carried {
        let (next, edge) = (endpoint.rcv_nxt(), endpoint.window.rcv_adv);
        Carried {
            bytes: self.bytes.and_then(|bytes| bytes.within(next, edge)),
            fin: self.fin.filter(|fin| next <= *fin && *fin <= edge),
        }
    }
}

impl Carried {
    // The positions of all of it. None: it is nothing.
    fn stretch(&self) -> Option<Stretch> {
        let fin = self.fin.map(|fin| Stretch {
            first: fin,
            end: fin.saturating_add(1),
        });
        match (self.bytes, fin) {
            (Some(bytes), Some(fin)) => Stretch::up_to(bytes.first, fin.end),
            (bytes, fin) => bytes.or(fin),
        }
    }

    // Whether its first byte, or its FIN if it has none, is at a position.
    fn begins_at(&self, position: u64) -> bool {
        match self.bytes {
            Some(bytes) => bytes.first == position,
            None => self.fin == Some(position),
        }
    }
}

impl fmt::Display for Carried {
    fn fmt<W: fmt::Write>(&self, f: &mut fmt::Formatter<W>) -> fmt::Result {
        match (self.bytes, self.fin) {
            (Some(bytes), Some(fin)) => write!(f, "{bytes} and its FIN (position {fin})"),
            (Some(bytes), None) => write!(f, "{bytes}"),
            (None, Some(fin)) => write!(f, "its FIN (position {fin})"),
            (None, None) => Ok(()),
        }
    }
}

// A segment that may be processed.
#[derive(Clone, Copy)]
struct Acceptable {
    flags: Flags,
    carried: Carried,
    /// The position that it acknowledges.
    ack: u64,
}

impl fmt::Display for Acceptable {
    fn fmt<W: fmt::Write>(&self, f: &mut fmt::Formatter<W>) -> fmt::Result {
        if self.flags.rst {
            return write!(f, "an acceptable reset");
        }
        if self.flags.syn {
            return write!(f, "an acceptable SYN");
        }
        match (self.carried.bytes, self.carried.fin) {
            (Some(bytes), Some(fin)) => write!(f, "acceptable {bytes} and a FIN (position {fin})"),
            (Some(bytes), None) => write!(f, "acceptable {bytes}"),
            (None, Some(fin)) => write!(f, "an acceptable FIN (position {fin})"),
            (None, None) if self.flags.ack => {
                write!(f, "an acceptable acknowledgment of {}", self.ack)
            }
            (None, None) => write!(f, "an acceptable segment"),
        }
    }
}

impl Review<'_> {
    /// A host processes the segment of a line, and keeps what it carries or not.
    pub(crate) fn process(
        &mut self,
        replay: &mut Replay<'_>,
        step: &Step,
        (host, line): (Host, u64),
        keeps: bool,
    ) -> Result<(), ReplayFault> {
        let Some(arrival) = self.arrive(replay.world(), host, line)? else {
            return Ok(());
        };
        self.receive(&arrival, keeps)?;
        self.keep(&arrival, keeps)?;
        let (lport, rport) = (arrival.segment.rport, arrival.segment.lport);
        let was_shut = arrival
            .receiver
            .is_some_and(|(_, endpoint)| endpoint.timers.persist_armed.is_some());
        replay.apply(step)?;
        let world = replay.world();
        if let Some((id, endpoint)) = endpoint_of(world, host, lport, rport) {
            let is_open = !endpoint.state.is_closed() && endpoint.window.snd_wnd != 0;
            if was_shut && is_open {
                self.note(id)?.permits.add(Permit::Opening(line));
            }
            self.touch(world, id, line)?;
        }
        Ok(())
    }

    /// Remembers that the segment of a line arrived. None: no segment waits with this line.
    pub(crate) fn arrive<'w>(
        &mut self,
        world: &'w World,
        host: Host,
        line: u64,
    ) -> Result<Option<Arrival<'w>>, OutOfMemory> {
        let Some(segment) = world.waiting(host, line) else {
            return Ok(None);
        };
        let (lport, rport) = (segment.rport, segment.lport);
        let receiver = endpoint_of(world, host, lport, rport);
        let ports = (host as u8, lport, rport);
        if segment.flags.rst {
            let was_due = receiver.is_some_and(|(_, endpoint)| endpoint.reset_due);
            self.resets.insert(ports, Reset { line, was_due })?;
        } else {
            self.resets.remove(&ports);
        }
        if let Some((id, _)) = receiver {
            self.note(id)?.heard = true;
        }
        Ok(Some(Arrival {
            host,
            line,
            segment,
            receiver,
        }))
    }

    /// A host drops a segment, which a rule may judge.
    pub(crate) fn drop_arrival(
        &mut self,
        world: &World,
        arrival: &Arrival<'_>,
    ) -> Result<(), OutOfMemory> {
        if self.found.covered.duties {
            return Ok(());
        }
        match self.met(world, arrival) {
            Some((who, what)) => self.found.add(arrival.line, who, "drops", &what),
            None => Ok(()),
        }
    }

    // Who drops what. None: nobody is to process it, or a full queue or a challenge is a reason to drop it.
    fn met(&self, world: &World, arrival: &Arrival<'_>) -> Option<(Who, Acceptable)> {
        let Arrival { host, segment, .. } = *arrival;
        let admitted = world.admits_taking(host, self.moment, arrival.line, LEAST);
        admitted.ok()?;
        let version = self.case.trace.header.version;
        let (who, position, ack) = match arrival.receiver {
            Some((_, endpoint)) if !endpoint.state.is_closed() => {
                if may_challenge(endpoint, segment) {
                    return None;
                }
                let read = Arrived::checked_read(version, endpoint, segment)?;
                (Who::from_endpoint(host, endpoint), read.pos(), read.ack())
            }
            _ => (self.listener_with_room(world, host, segment.rport)?, 0, 0),
        };
        let what = Acceptable {
            flags: segment.flags,
            carried: Carried::new(segment, position),
            ack,
        };
        Some((who, what))
    }

    // The listener on a port. None: there is none, or its queue is full.
    fn listener_with_room(&self, world: &World, host: Host, port: u16) -> Option<Who> {
        let body = world.body(host);
        let listener = body.listener_at(body.listener_on(port)?)?;
        let extra = u64::from(self.case.trace.header.extra);
        let room = u64::from(listener.backlog).saturating_add(extra);
        ((listener.queue.len() as u64) < room).then_some(Who::Listener { host, port })
    }

    /// Remembers which positions a segment brings to an endpoint, and which of its bytes are kept beyond a gap.
    pub(crate) fn receive(
        &mut self,
        arrival: &Arrival<'_>,
        keeps: bool,
    ) -> Result<(), OutOfMemory> {
        let (version, segment) = (self.case.trace.header.version, arrival.segment);
        let Some((id, endpoint)) = arrival.receiver.filter(|_| version.says_sender()) else {
            return Ok(());
        };
        let Some(read) = Arrived::checked_read(version, endpoint, segment) else {
            return Ok(());
        };
        let Some(came) = Carried::new(segment, read.pos()).stretch() else {
            return Ok(());
        };
        let fresh = self.fresh(arrival).filter(|_| keeps);
        let bytes = fresh.and_then(|(_, _, fresh)| fresh.bytes);
        let beyond = bytes.filter(|bytes| endpoint.rcv_nxt() < bytes.first);
        let (alloc, moment) = (self.alloc, self.moment);
        self.came(id)?.add(alloc, came, beyond, moment)
    }

    // Remarks on what an endpoint doesn't keep, unless a rule judges that, and remembers what it keeps beyond a gap.
    fn keep(&mut self, arrival: &Arrival<'_>, keeps: bool) -> Result<(), OutOfMemory> {
        let Some((id, endpoint, fresh)) = self.fresh(arrival) else {
            return Ok(());
        };
        let who = Who::from_endpoint(id.host, endpoint);
        if keeps {
            return self.hold(id, arrival.line, who, fresh, endpoint.rcv_nxt());
        }
        if self.found.covered.duties && fresh.begins_at(endpoint.rcv_nxt()) {
            return Ok(());
        }
        let lost = self.not_held(id, fresh);
        if lost.bytes.is_none() && lost.fin.is_none() {
            return Ok(());
        }
        let does = "processes a segment but discards";
        self.found.add(arrival.line, who, does, &lost)
    }

    // What a segment would bring to its endpoint. None: it may keep nothing.
    fn fresh<'w>(&self, arrival: &Arrival<'w>) -> Option<(EndpointId, &'w Endpoint, Carried)> {
        let (segment, (id, endpoint)) = (arrival.segment, arrival.receiver?);
        let may_keep = !endpoint.state.is_closed() && !endpoint.state.is_syn_sent();
        if !may_keep || endpoint.stream.receive.is_ended() || segment.flags.rst {
            return None;
        }
        let read = Arrived::checked_read(self.case.trace.header.version, endpoint, segment)?;
        let fresh = Carried::new(segment, read.pos()).fresh(endpoint);
        Some((id, endpoint, fresh))
    }

    // Remarks on bytes that an endpoint keeps beyond the windows that lines show, and remembers what it keeps beyond a
    // gap, before which it expects the position `next`.
    fn hold(
        &mut self,
        id: EndpointId,
        line: u64,
        who: Who,
        fresh: Carried,
        next: u64,
    ) -> Result<(), OutOfMemory> {
        let edge = self.note(id)?.edge;
        if let Some(bytes) = fresh.bytes.and_then(|bytes| bytes.within(edge, u64::MAX)) {
            let but = "but the segments it sent advertise only up to";
            let what = &format_args!("{bytes}, {but} {}", edge.saturating_sub(1));
            self.found.add(line, who, "keeps", what)?;
        }
        if let Some(bytes) = fresh.bytes.filter(|bytes| next < bytes.first) {
            let held = self.held.entry(position_key(id, bytes.first))?.or_default();
            *held = bytes.end.max(*held);
        }
        if let Some(fin) = fresh.fin {
            self.held
                .insert(position_key(id, fin), fin.saturating_add(1))?;
        }
        Ok(())
    }

    // The position after what is kept beyond a gap from a position on, or 0.
    fn held_up_to(&self, id: EndpointId, first: u64) -> u64 {
        let end = self.held.get(&position_key(id, first));
        end.copied().unwrap_or(0)
    }

    // What of this isn't kept beyond a gap.
    fn not_held(&self, id: EndpointId, Carried { bytes, fin }: Carried) -> Carried {
        Carried {
            bytes: bytes.filter(|bytes| self.held_up_to(id, bytes.first) < bytes.end),
            fin: fin.filter(|fin| self.held_up_to(id, *fin) <= *fin),
        }
    }
}

// Whether an endpoint may answer a reset with a challenge instead of processing it: one that hasn't exactly the next
// expected number (RFC 5961, 3.2).
fn may_challenge(endpoint: &Endpoint, segment: &Emission) -> bool {
    let next = endpoint.irs.map(|irs| number(irs, endpoint.rcv_nxt()));
    let is_next = next.is_some_and(|next| next.0 == segment.seq.0);
    segment.flags.rst && !endpoint.state.is_syn_sent() && !is_next
}
