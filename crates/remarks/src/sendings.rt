//! What is made and sent, and what is sent again.

use crate::acknowledgments::PureAck;
use crate::blocks::BlockFault;
use crate::bursts::beyond_loss_window;
use crate::found::{Found, Lines, Repeats, Stretch, Time, Who};
use crate::notes::{Again, Note, Permit, Permits, position_key};
use crate::review::{Review, endpoint_of};
use crate::waits::{Now, say_late};
use case_forms::{Host, OutOfMemory, SegmentPlan, Timer};
use endpoint_state::World;
use replayed::Replay;
use spec_tcp::{Endpoint, EndpointId, window_in};

// For how many microseconds a segment may wait after it was built. A capture shows a segment after its stack built it,
// on a busy machine a few milliseconds later.
const WAIT: u64 = 5_000;

/// A segment that an endpoint made.
#[derive(Clone, Copy)]
pub(crate) struct Sending {
    id: EndpointId,
    who: Who,
    /// When it was made.
    made: u64,
    /// The position of its number, and the position after it.
    pub position: u64,
    pub end: u64,
    /// Its first position was made before.
    is_again: bool,
    is_syn_ack: bool,
    /// It is empty and begins with an acknowledged position: a keep-alive, or a probe of a closed window.
    is_probe: bool,
    /// Of a reset, the line of the reset that it follows.
    reset: Option<u64>,
    /// The oldest position that was not acknowledged when it was made.
    pub una: u64,
    /// What allowed it to be sent again, and how many times anything did until then.
    pub permits: Permits,
    /// Something arrived since the endpoint last sent.
    pub answers: bool,
    /// Its bytes beyond the window that an expiry left.
    pub beyond: Option<Stretch>,
    /// What it acknowledges, if it does nothing else.
    pure_ack: Option<PureAck>,
    block_fault: BlockFault,
    /// The retransmission timeout, in microseconds.
    rto: u64,
}

impl Sending {
    // The segment of a plan, before an endpoint makes it.
    fn new(id: EndpointId, endpoint: &Endpoint, plan: &SegmentPlan, note: &Note) -> Sending {
        let controls = u64::from(plan.flags.syn) + u64::from(plan.flags.fin);
        let end = plan.pos.saturating_add(u64::from(plan.len) + controls);
        let mut permits = note.permits;
        if endpoint.recover <= plan.pos && !matches!(permits.last, Permit::Pto(_)) {
            permits.last = Permit::Nothing;
        }
        Sending {
            id,
            who: Who::from_endpoint(id.host, endpoint),
            made: 0,
            position: plan.pos,
            end,
            is_again: plan.pos < end && plan.pos < endpoint.snd_max(),
            is_syn_ack: plan.flags.syn && plan.flags.ack,
            is_probe: plan.pos == end && plan.pos < endpoint.stream.snd_una,
            reset: None,
            una: endpoint.stream.snd_una,
            permits,
            answers: note.heard,
            beyond: beyond_loss_window(endpoint, plan, note),
            pure_ack: PureAck::from_plan(endpoint, plan),
            block_fault: BlockFault::Nothing,
            rto: endpoint.timers.rto,
        }
    }

    /// Its retransmissions: none so far.
    pub(crate) fn repeats(&self) -> Repeats {
        Repeats {
            who: self.who,
            position: self.position,
            is_syn_ack: self.is_syn_ack,
            times: 0,
            lines: Lines(0, 0),
        }
    }

    // Remarks on a segment that was built long before it is sent, unless rules judge that.
    fn say_wait(&self, found: &mut Found, now: Now) -> Result<(), OutOfMemory> {
        let waited = now.moment.saturating_sub(self.made);
        if waited <= WAIT || found.covered.duties {
            return Ok(());
        }
        let what = &format_args!("{} after building it", Time(waited));
        found.add(now.line, now.who, "sends this segment", what)
    }

    /// Whether a timeout, less a clock's granularity, went by since a moment.
    pub(crate) fn is_late(&self, since: u64, moment: u64, grain: u64) -> bool {
        self.rto.saturating_sub(grain) <= moment.saturating_sub(since)
    }
}

// The position after the window that a segment with ACK advertises.
fn edge_of(endpoint: &Endpoint, plan: &SegmentPlan) -> u64 {
    let scaling = endpoint.is_scaling();
    let window = window_in(scaling, plan.flags.syn, endpoint.shift, plan.window);
    endpoint.rcv_nxt().saturating_add(u64::from(window))
}

impl Review<'_> {
    /// A host makes a segment.
    pub(crate) fn make(
        &mut self,
        replay: &Replay<'_>,
        host: Host,
        plan: &SegmentPlan,
    ) -> Result<(), OutOfMemory> {
        let world = replay.world();
        let Some((id, endpoint)) = endpoint_of(world, host, plan.lport, plan.rport) else {
            return Ok(());
        };
        let number = world.count().saturating_add(1);
        let is_shown = self.shown.contains_key(&number);
        let reset = self.reset_before(host, plan, endpoint);
        let block_fault = self.block_fault(replay.flights(), id, endpoint, plan, number);
        let note = self.note(id)?;
        if is_shown && plan.flags.ack {
            note.edge = note.edge.max(edge_of(endpoint, plan));
        }
        let mut sending = Sending::new(id, endpoint, plan, note);
        sending.reset = reset;
        sending.block_fault = block_fault;
        sending.made = self.moment;
        self.made.insert(number, sending)?;
        Ok(())
    }

    // The line of the reset that a reset follows. None: there is none, or what the reset is due for came after it.
    fn reset_before(&self, host: Host, plan: &SegmentPlan, endpoint: &Endpoint) -> Option<u64> {
        if !plan.flags.rst {
            return None;
        }
        let reset = self.resets.get(&(host as u8, plan.lport, plan.rport))?;
        (reset.was_due || !endpoint.reset_due).then_some(reset.line)
    }

    /// The made segment of this number is sent with a line.
    pub(crate) fn send(
        &mut self,
        world: &World,
        number: u32,
        line: u64,
    ) -> Result<(), OutOfMemory> {
        let Some(sending) = self.made.get(&number).copied() else {
            return Ok(());
        };
        let (who, moment) = (sending.who, self.moment);
        let now = Now { line, moment, who };
        sending.say_wait(&mut self.found, now)?;
        let mut note = *self.note(sending.id)?;
        if sending.position < sending.end {
            say_late(&mut self.found, now, &note)?;
            if sending.is_again {
                self.send_again(&mut note, &sending, now)?;
            }
            note.send(&sending, moment);
        } else if sending.is_probe && note.armed(Timer::Persist).is_some() {
            say_late(&mut self.found, now, &note)?;
            note.count_probe(&sending, moment);
        }
        if let Some(pure_ack) = sending.pure_ack {
            note.acknowledge(&mut self.found, pure_ack, now)?;
        }
        note.take_blocks(&mut self.found, sending.block_fault, now)?;
        if let Some(reset) = sending.reset {
            let does = "sends a reset after the reset of line";
            self.found.add(line, who, does, &reset)?;
        }
        *self.note(sending.id)? = note;
        self.touch(world, sending.id, line)
    }

    // Counts a retransmission, and remarks on those before it that have come to an end.
    fn send_again(
        &mut self,
        note: &mut Note,
        sending: &Sending,
        now: Now,
    ) -> Result<(), OutOfMemory> {
        note.count_probe(sending, now.moment);
        self.count_again(sending, now.line)?;
        if let Some(burst) = note.count_burst(sending, now) {
            burst.say(&mut self.found)?;
        }
        let grain = self.case.trace.header.grain;
        if let Some(chain) = note.retransmit(sending, now, grain) {
            chain.say(&mut self.found)?;
        }
        Ok(())
    }

    // Counts the retransmissions from a position. A SYN may be sent again for each one that arrives. After a whole
    // timeout, the timer may have expired with no line.
    fn count_again(&mut self, sending: &Sending, line: u64) -> Result<(), OutOfMemory> {
        if sending.position == 0 && sending.answers {
            return Ok(());
        }
        let grain = self.case.trace.header.grain;
        let first = Again {
            permits: sending.permits,
            moment: self.moment,
            repeats: sending.repeats(),
        };
        let key = position_key(sending.id, sending.position);
        let again = self.again.entry(key)?.or_insert(first);
        let is_late = sending.is_late(again.moment, self.moment, grain);
        if again.permits.count != sending.permits.count || is_late {
            again.say(&mut self.found)?;
            *again = first;
        }
        again.moment = self.moment;
        again.repeats.add(line);
        Ok(())
    }
}
