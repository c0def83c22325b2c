//! Segments that were built, and that no line shows: they were lost before the capture.

use super::Pass;
use crate::choices::Unseen;
use crate::key::EndpointKey;
use crate::progress::{Progress, Will};
use crate::stop::{Stop, permitted};
use case_forms::{Flags, Host, SegmentPlan, State};
use endpoint_state::Endpoint;
use segment::Flag;
use seqno::Word;

// How many segments are built at once.
const MOST: usize = 64;

// The most bytes that a segment carries.
const MOST_BYTES: u64 = 65_515;

// The segment without bytes that an endpoint can build next, if it has no flag but this acknowledgment.
fn bare(endpoint: &Endpoint, window: u16, ack: bool) -> SegmentPlan {
    SegmentPlan {
        lport: endpoint.lport,
        rport: endpoint.rport,
        pos: endpoint.snd_max(),
        len: 0,
        flags: Flags {
            ack,
            rst: false,
            syn: false,
            fin: false,
        },
        window,
        iss: None,
        shift: None,
    }
}

// A SYN, with its number if that isn't given yet.
fn syn(endpoint: &Endpoint, number: Word) -> SegmentPlan {
    let mut plan = bare(endpoint, u16::MAX, endpoint.rcv_nxt() >= 1);
    plan.flags.syn = true;
    plan.pos = 0;
    plan.iss = endpoint.iss.is_none().then_some(number);
    plan
}

// The next bytes that weren't built, at most up to a position, and the FIN if it follows them. None: there are none.
fn new_bytes(endpoint: &Endpoint, window: u16, to: u64) -> Option<SegmentPlan> {
    let mut plan = bare(endpoint, window, true);
    let end = endpoint.stream.accepted.end();
    let most = u64::from(endpoint.control.values.smss).min(MOST_BYTES);
    let len = end.min(to).saturating_sub(plan.pos).min(most);
    plan.flags.fin = endpoint.stream.ended && plan.pos.saturating_add(len) == end && end < to;
    if len == 0 && !plan.flags.fin {
        return None;
    }
    plan.len = u16::try_from(len).ok()?;
    Some(plan)
}

// The window field that reaches up to a position. None: it is reached already, or beyond every window.
fn window_up_to(endpoint: &Endpoint, end: u64) -> Option<u16> {
    if end <= endpoint.window.rcv_adv {
        return None;
    }
    let size = end.saturating_sub(endpoint.rcv_nxt());
    let shift = if endpoint.is_scaling() {
        endpoint.shift?
    } else {
        0
    };
    let unit = 1_u64.checked_shl(u32::from(shift))?;
    u16::try_from(size.div_ceil(unit)).ok()
}

impl Progress {
    /// Advertises a window that reaches to the end of an arrival, in a segment that no line shows.
    pub(crate) fn widen(&mut self, host: Host, line: u64) -> Result<(), Stop> {
        if let Some(plan) = self.widening(host, line) {
            permitted(self.make(host, plan, Will::Try))?;
        }
        Ok(())
    }

    /// The segment that advertises such a window. None: the window reaches there, or none can.
    pub(crate) fn widening(&self, host: Host, line: u64) -> Option<SegmentPlan> {
        let (key, m) = self.waiting(host, line)?;
        let (endpoint, read) = self.read(key, m)?;
        let len = (m.payload.len() as u64).max(1);
        let window = window_up_to(endpoint, read.pos().saturating_add(len))?;
        Some(bare(endpoint, window, true))
    }

    // Builds a segment. The result is whether that's permitted.
    fn try_plan(&mut self, host: Host, plan: SegmentPlan) -> Result<bool, Stop> {
        Ok(permitted(self.make(host, plan, Will::Try))?.is_some())
    }
}

impl Pass<'_> {
    /// An endpoint builds what no line shows, of its bytes at most those below a position. The result is whether it
    /// built any.
    pub(crate) fn make_unseen(
        &mut self,
        key: EndpointKey,
        unseen: Unseen,
        to: u64,
    ) -> Result<bool, Stop> {
        if !self.may_be_unseen(key, unseen) {
            return Ok(false);
        }
        let most = if unseen == Unseen::All { MOST } else { 1 };
        let mut is_made = false;
        for _ in 0..most {
            let Some(plan) = self.unseen_plan(key, unseen, to) else {
                break;
            };
            if !self.progress.try_plan(key.host(), plan)? {
                break;
            }
            is_made = true;
            if plan.flags.syn || plan.flags.rst {
                break;
            }
        }
        if is_made && unseen == Unseen::Reset {
            self.wake_endpoint(key)?;
        }
        Ok(is_made)
    }

    // Whether no duty requires that such a segment is sent. A reset that is built in TIME-WAIT need not be.
    fn may_be_unseen(&self, key: EndpointKey, unseen: Unseen) -> bool {
        let endpoint = self.progress.endpoint(key);
        let is_over = endpoint.is_some_and(|endpoint| endpoint.state.is_time_wait());
        self.may_stay_unsent() || unseen == Unseen::Reset && is_over
    }

    // The next segment that an endpoint can build. None: it has nothing to send.
    fn unseen_plan(&self, key: EndpointKey, unseen: Unseen, to: u64) -> Option<SegmentPlan> {
        let endpoint = self.progress.endpoint(key)?;
        let next = self.outgoing.next(key).map(|shown| shown.wire);
        let window = next.map_or(u16::MAX, |wire| wire.seg.window);
        if unseen == Unseen::Reset {
            let mut plan = bare(endpoint, window, endpoint.rcv_nxt() >= 1);
            plan.flags.rst = true;
            return Some(plan);
        }
        match endpoint.state {
            State::SynSent | State::SynReceived => Some(self.unseen_syn(key, endpoint)),
            _ => new_bytes(endpoint, window, to),
        }
    }

    // The SYN that the endpoint sends next, or one like it.
    fn unseen_syn(&self, key: EndpointKey, endpoint: &Endpoint) -> SegmentPlan {
        let number = match self.outgoing.next(key).map(|shown| shown.wire) {
            Some(wire) if wire.seg.has(Flag::Syn) && !wire.seg.has(Flag::Rst) => {
                return self.progress.plan_of(key, wire);
            }
            Some(wire) => Word(wire.seg.seq.0.wrapping_sub(1)),
            None => self.outgoing.syns.get(&key).copied().unwrap_or(Word(0)),
        };
        syn(endpoint, number)
    }
}
