//! A segment is built when its line shows that it was sent.

use super::Pass;
use crate::choices::Unseen;
use crate::copies::Sending;
use crate::key::EndpointKey;
use crate::later_lines::Shown;
use crate::progress::{Progress, Will};
use crate::stop::Stop;
use case_forms::{Flags, Host, POSITIONS, SegmentPlan, Timer, Wire};
use endpoint_state::Endpoint;
use segment::{Flag, Segment};
use seqno::{Word, read_near};
use verdict::Rule;

// How many remedies are tried so that a segment may be built.
const REMEDIES: usize = 20;

// The number of no segment.
const UNBUILT: u32 = 0;

/// The position at which a segment of an endpoint begins, near what it built.
pub(crate) fn position_of(endpoint: &Endpoint, seq: Word) -> Option<u64> {
    let near = endpoint.snd_max();
    if near >= POSITIONS {
        return None;
    }
    read_near(near, endpoint.iss?, seq)
}

fn flags_of(seg: &Segment) -> Flags {
    Flags {
        ack: seg.has(Flag::Ack),
        rst: seg.has(Flag::Rst),
        syn: seg.has(Flag::Syn),
        fin: seg.has(Flag::Fin),
    }
}

// The shift that a segment carries, of which more than 14 counts as 14.
fn shift_of(seg: &Segment) -> Option<u8> {
    seg.scale.map(|shift| shift.min(14))
}

// The position after a segment's bytes and its FIN.
fn end_of(plan: &SegmentPlan) -> u64 {
    let len = u64::from(plan.len).saturating_add(u64::from(plan.flags.fin));
    plan.pos.saturating_add(len)
}

// Whether a segment contains the oldest position that isn't acknowledged, and was sent before.
fn holds_oldest(endpoint: &Endpoint, plan: &SegmentPlan) -> bool {
    let una = endpoint.stream.snd_una;
    plan.pos <= una && una < end_of(plan) && una < endpoint.snd_max()
}

// Whether a segment has neither bytes nor a SYN or FIN.
fn is_mere(wire: &Wire) -> bool {
    wire.seg.payload.is_empty() && !wire.seg.has(Flag::Syn) && !wire.seg.has(Flag::Fin)
}

impl Progress {
    /// The segment that a line shows, as its endpoint has to build it.
    pub(crate) fn plan_of(&self, key: EndpointKey, wire: &Wire) -> SegmentPlan {
        let seg = &wire.seg;
        let flags = flags_of(seg);
        let endpoint = self.endpoint(key);
        let pos = endpoint.and_then(|endpoint| position_of(endpoint, seg.seq));
        let is_first = flags.syn && endpoint.is_none_or(|endpoint| endpoint.iss.is_none());
        let is_scaled = is_first && self.world().header().version.scales();
        SegmentPlan {
            lport: key.lport,
            rport: key.rport,
            pos: if flags.syn { 0 } else { pos.unwrap_or(0) },
            len: u16::try_from(seg.payload.len()).unwrap_or(u16::MAX),
            flags,
            window: seg.window,
            iss: is_first.then_some(seg.seq),
            shift: if is_scaled { shift_of(seg) } else { None },
        }
    }

    // Builds the segment that a line shows. If that isn't permitted, the witness ends with this step.
    fn make_at_last(&mut self, key: EndpointKey, wire: &Wire) -> Result<u32, Stop> {
        let (host, plan) = (key.host(), self.plan_of(key, wire));
        self.make(host, plan, Will::Insist)
    }

    // After one expiry, or if retransmissions aren't judged, a SYN may be built again without another expiry. Its timer
    // may have expired all the same.
    fn expire_before_syn(&mut self, key: EndpointKey) -> Result<(), Stop> {
        let endpoint = self.endpoint(key);
        if endpoint.is_some_and(|endpoint| endpoint.iss.is_some() && endpoint.snd_max() > 0) {
            self.add_expiry(key, Timer::Rto)?;
        }
        Ok(())
    }

    // After one expiry, or if retransmissions aren't judged, the oldest segment may be sent again without another.
    // A duty requires one all the same.
    fn expire_before_oldest(&mut self, key: EndpointKey, wire: &Wire) -> Result<(), Stop> {
        if !self.has_expiry_due(key) {
            return Ok(());
        }
        let plan = self.plan_of(key, wire);
        let endpoint = self.endpoint(key);
        let is_oldest = endpoint.is_some_and(|endpoint| holds_oldest(endpoint, &plan));
        if is_oldest && self.admits_making(key.host(), &plan) {
            self.add_expiry(key, Timer::Rto)?;
        }
        Ok(())
    }

    // Adds a line that makes a probe due, if one is permitted now: from version 6 on, what was sent last may be sent
    // again as a probe for its loss (RFC 8985, 7.3). The result is whether it was added.
    fn add_probe(&mut self, key: EndpointKey, plan: &SegmentPlan) -> Result<bool, Stop> {
        let endpoint = self.endpoint(key);
        let is_last = endpoint.is_some_and(|endpoint| end_of(plan) == endpoint.snd_max());
        if !is_last || !self.world().header().version.says_sender() {
            return Ok(false);
        }
        self.add_expiry(key, Timer::Pto)
    }

    // Does what permits old data to be sent again in a segment.
    fn permit_old_data(&mut self, key: EndpointKey, plan: &SegmentPlan) -> Result<bool, Stop> {
        let endpoint = self.endpoint(key);
        let is_closed = endpoint.is_some_and(|endpoint| endpoint.window.snd_wnd == 0);
        if is_closed && self.add_expiry(key, Timer::Persist)? || self.add_probe(key, plan)? {
            return Ok(true);
        }
        if self.recovers_first(key) {
            return Ok(self.try_recovery(key)? || self.expire_any(key)?);
        }
        Ok(self.expire_any(key)? || self.try_recovery(key)?)
    }

    // Whether fast recovery is tried before an expiry: from version 6 on, only after a duplicate acknowledgment.
    fn recovers_first(&self, key: EndpointKey) -> bool {
        let endpoint = self.endpoint(key);
        !self.world().header().version.says_sender()
            || endpoint.is_some_and(|endpoint| 0 < endpoint.control.values.dup)
    }

    // A timer expires: the retransmission timer, or else the persist timer.
    fn expire_any(&mut self, key: EndpointKey) -> Result<bool, Stop> {
        if self.add_expiry(key, Timer::Rto)? {
            return Ok(true);
        }
        self.add_expiry(key, Timer::Persist)
    }
}

impl<'t> Pass<'t> {
    /// The current line shows a segment sent: it is built, unless it was before.
    pub(crate) fn send(&mut self, host: Host, wire: &'t Wire) -> Result<(), Stop> {
        let key = EndpointKey::sender(host, wire);
        let place = self.progress.log.place();
        let made = match self.outgoing.start_sending(Shown { key, place, wire })? {
            Some(made) => made,
            None => {
                if self.answers_what_is_late(key, wire) {
                    self.discard_late(key)?;
                }
                self.make_shown(key, wire)?
            }
        };
        self.answer_late(key, wire)?;
        let line = self.progress.send(host, made, wire)?;
        let moment = self.progress.moment();
        let sent = self.copies.sent_by(host);
        sent.add(wire.bytes.as_slice(), Sending { line, moment })?;
        if wire.seg.has(Flag::Syn) {
            self.outgoing.syns.insert(key, wire.seg.seq)?;
        }
        self.catch_up(key)
    }

    // Builds the segment that a line shows. If that isn't permitted yet, remedies come first. If no step can build it,
    // the line is refused, since it names no segment that was built.
    fn make_shown(&mut self, key: EndpointKey, wire: &Wire) -> Result<u32, Stop> {
        if !key.can_build() {
            return Ok(UNBUILT);
        }
        let host = key.host();
        if wire.seg.has(Flag::Syn) {
            self.progress.expire_before_syn(key)?;
        }
        self.progress.expire_before_oldest(key, wire)?;
        for _ in 0..REMEDIES {
            let plan = self.progress.plan_of(key, wire);
            let made = self.progress.make(host, plan, Will::Try);
            if made.is_ok() && plan.flags.rst {
                // A reset closes its endpoint, for which calls may wait.
                self.wake_endpoint(key)?;
            }
            let Err(Stop::Broken(rule)) = made else {
                return made;
            };
            if !self.remedy_or_hurry(key, plan, rule)? {
                break;
            }
        }
        self.progress.make_at_last(key, wire)
    }

    // Does what may permit a segment that breaks this rule, or processes what is late. The result is whether something
    // was done.
    fn remedy_or_hurry(
        &mut self,
        key: EndpointKey,
        plan: SegmentPlan,
        rule: Rule,
    ) -> Result<bool, Stop> {
        if self.remedy(key, plan, rule)? {
            return Ok(true);
        }
        self.hurry(key)
    }

    // Does what may permit a segment that breaks this rule. The result is whether something was done.
    fn remedy(&mut self, key: EndpointKey, plan: SegmentPlan, rule: Rule) -> Result<bool, Stop> {
        let endpoint = self.progress.endpoint(key);
        let is_after_gap = endpoint.is_some_and(|endpoint| endpoint.snd_max() < plan.pos);
        match rule {
            // What precedes the segment was built, and no line shows it.
            Rule::OldData if is_after_gap => self.make_unseen(key, Unseen::One, plan.pos),
            Rule::OldData | Rule::Resent => self.progress.permit_old_data(key, &plan),
            Rule::Offered => self.progress.add_expiry(key, Timer::Persist),
            Rule::State | Rule::NoEndpoint if plan.flags.syn && !plan.flags.ack => self.reopen(key),
            Rule::PayloadRange | Rule::State | Rule::NoEndpoint => self.suppose_at(key),
            _ => Ok(false),
        }
    }

    // A SYN is sent: the TIME-WAIT of an older endpoint is over, or a call opens the ports again.
    fn reopen(&mut self, key: EndpointKey) -> Result<bool, Stop> {
        let is_over = self.progress.add_expiry(key, Timer::Msl2)?;
        let is_opened = self.open_again(key)?;
        if is_over || is_opened {
            return Ok(true);
        }
        self.suppose_at(key)
    }

    // Whether a segment that isn't built yet may answer what is late at its endpoint, in version 6 with a slack.
    fn answers_what_is_late(&self, key: EndpointKey, wire: &Wire) -> bool {
        self.progress.slack().is_some()
            && self.sought.header.version.says_sender()
            && is_mere(wire)
            && self.late.count(key) > 0
    }

    // An acknowledgment answers an arrival: if all others are answered, one that is late is processed.
    fn answer_late(&mut self, key: EndpointKey, wire: &Wire) -> Result<(), Stop> {
        if is_mere(wire) && self.progress.is_all_answered(key) {
            self.hurry(key)?;
        }
        Ok(())
    }

    fn suppose_at(&mut self, key: EndpointKey) -> Result<bool, Stop> {
        match self.progress.meant_at(key) {
            Some(meant) => self.suppose(meant),
            None => Ok(false),
        }
    }
}
