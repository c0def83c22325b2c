//! What a core remembers of each endpoint so that it chooses well. The model decides each time whether a step is
//! permitted; no contract depends on anything here. Positions and windows count bytes.

use case_forms::{Answer, Expired, OutOfMemory, SegmentPlan};
use endpoint_state::Endpoint;
use std::alloc::Global;
use std::collections::VecDeque;

/// Positions to retransmit: from `next` on, up to `end`.
#[derive(Clone, Copy)]
pub(crate) struct Again {
    pub(crate) next: u64,
    pub(crate) end: u64,
}

/// What a core remembers of an endpoint.
#[derive(Clone, Copy)]
pub(crate) struct SendState {
    /// It owes its peer an acknowledgment.
    pub(crate) acknowledges: bool,
    /// What seems lost.
    pub(crate) again: Option<Again>,
    /// How many bytes its threads read.
    pub(crate) read: u64,
    /// It is listed among those at which something may be made.
    listed: bool,
}

// Nothing is owed yet.
const NOTHING: SendState = SendState {
    acknowledges: false,
    again: None,
    read: 0,
    listed: false,
};

/// What a core remembers of its endpoints, by their places; and the places at which something may be made, the next
/// first.
#[derive(Drop)]
pub(crate) struct SendStates {
    all: Vec<SendState>,
    listed: VecDeque<u32>,
}

impl SendStates {
    /// Nothing is remembered yet.
    pub(crate) fn new(alloc: Global) -> SendStates {
        SendStates {
            all: Vec::new(alloc),
            listed: VecDeque::new(alloc),
        }
    }

    /// Makes room for one more endpoint, and for each in the list. The error is that memory ran out.
    pub(crate) fn make_room(&mut self) -> Result<(), OutOfMemory> {
        self.all.reserve(1)?;
        let missing = self.all.len().saturating_sub(self.listed.len());
        self.listed.reserve(missing.saturating_add(1))?;
        Ok(())
    }

    /// What is remembered of the endpoint at a place.
    pub(crate) fn at(&self, place: u32) -> SendState {
        self.all.get(place as usize).copied().unwrap_or(NOTHING)
    }

    /// Remembers this of the endpoint at a place, where something may be made. If there is no room for it, it is
    /// forgotten.
    pub(crate) fn set(&mut self, place: u32, send_state: SendState) {
        let place_index = place as usize;
        for _ in self.all.len()..place_index.saturating_add(1) {
            if self.all.push(NOTHING).is_err() {
                return;
            }
        }
        if let Some(slot) = self.all.get_mut(place_index) {
            let listed = slot.listed || self.listed.push_back(place).is_ok();
            *slot = send_state;
            slot.listed = listed;
        }
    }

    /// How many places are listed.
    pub(crate) fn count(&self) -> usize {
        self.listed.len()
    }

    /// The place that is listed first.
    pub(crate) fn first(&self) -> Option<u32> {
        self.listed.front().copied()
    }

    /// The first one leaves the list.
    pub(crate) fn leave(&mut self) {
        if let Some(place) = self.listed.pop_front() {
            if let Some(slot) = self.all.get_mut(place as usize) {
                slot.listed = false;
            }
        }
    }
}

/// What is remembered of an endpoint before a segment arrives.
#[derive(Clone, Copy)]
pub(crate) struct Seen {
    snd_una: u64,
    snd_wnd: u32,
    fast: bool,
}

impl Seen {
    /// What is remembered of this endpoint now.
    pub(crate) fn new(endpoint: &Endpoint) -> Seen {
        Seen {
            snd_una: endpoint.stream.snd_una,
            snd_wnd: endpoint.window.snd_wnd,
            fast: endpoint.control.values.fast,
        }
    }
}

/// What is noted before a segment arrives.
#[derive(Clone, Copy)]
pub(crate) struct Before {
    /// The place of the endpoint of its ports, and what is remembered of it.
    pub(crate) place: Option<u32>,
    pub(crate) seen: Option<Seen>,
    /// The greatest congestion window that the segment allows there.
    pub(crate) window: u32,
    /// The segment takes positions, and is no reset.
    pub(crate) asks: bool,
    /// It has a SYN.
    pub(crate) syn: bool,
}

impl SendState {
    /// Called once a segment for the endpoint at this place arrived. What takes positions is acknowledged, whether it
    /// was taken or not (RFC 9293, 3.10.7.4). Fast recovery retransmits the first outstanding segment (RFC 5681, 3.2).
    /// All outstanding data is retransmitted if a window of 0 opened, and a SYN if the peer's SYN arrived once more.
    pub(crate) fn after_arrival(
        mut self,
        place: u32,
        before: &Before,
        now: &Endpoint,
    ) -> SendState {
        let snd_una = now.stream.snd_una;
        if before.asks {
            self.acknowledges = true;
        }
        if let Some(seen) = before.seen {
            let partly = seen.fast && seen.snd_una < snd_una && snd_una < now.recover;
            if before.place != Some(place) {
                self.again = None;
            } else if (now.control.values.fast && !seen.fast) || partly {
                let end = snd_una.saturating_add(u64::from(now.control.values.smss));
                self.again = Some(Again { next: snd_una, end });
            } else if seen.snd_wnd == 0 && 0 < now.window.snd_wnd {
                self.again = Some(all_outstanding(now));
            }
        }
        if before.syn && snd_una == 0 && 0 < now.snd_max() {
            self.again = Some(Again { next: 0, end: 1 });
        }
        self
    }

    /// Called once a segment was made.
    pub(crate) fn after_making(mut self, plan: &SegmentPlan) -> SendState {
        if plan.flags.ack {
            self.acknowledges = false;
        }
        if let Some(again) = self.again {
            let end = end_of(plan);
            if again.next < end {
                self.again = if end < again.end {
                    Some(Again {
                        next: end,
                        end: again.end,
                    })
                } else {
                    None
                };
            }
        }
        self
    }

    /// Called once a timer expired: all outstanding data is retransmitted (RFC 6298, 5.4).
    pub(crate) fn after_expiry(mut self, now: &Endpoint, expired: Expired) -> SendState {
        match expired {
            Expired::Rto(_) | Expired::Persist => self.again = Some(all_outstanding(now)),
            Expired::Msl2 | Expired::Giveup | Expired::Pto => {}
        }
        self
    }

    /// Called once a call had its effect: a read may open the window so far that the peer is notified (RFC 9293,
    /// 3.8.6.2.2).
    pub(crate) fn after_call(mut self, now: &Endpoint, answer: &Answer, ring: u16) -> SendState {
        if let Answer::Bytes(bytes) = answer {
            self.read = self.read.saturating_add(bytes.len() as u64);
            let edge = now.rcv_nxt().saturating_add(self.room(now, ring));
            let least = u64::from(ring / 2)
                .min(u64::from(now.control.values.smss))
                .max(1);
            if now.window.rcv_adv.saturating_add(least) <= edge {
                self.acknowledges = true;
            }
        }
        self
    }

    /// How many bytes there is room for: the ring minus what was taken in order and not read.
    pub(crate) fn room(&self, now: &Endpoint, ring: u16) -> u64 {
        let waiting = now.rcv_nxt().saturating_sub(1).saturating_sub(self.read);
        u64::from(ring).saturating_sub(waiting)
    }
}

// All that is outstanding.
fn all_outstanding(now: &Endpoint) -> Again {
    Again {
        next: now.stream.snd_una,
        end: now.snd_max(),
    }
}

// The position after what a segment takes.
fn end_of(plan: &SegmentPlan) -> u64 {
    let flags = u64::from(plan.flags.syn) + u64::from(plan.flags.fin);
    plan.pos.saturating_add(u64::from(plan.len) + flags)
}
