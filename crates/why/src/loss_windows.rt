//! The windows of stacks that leave out one change of RFC 5681 at a loss.

use crate::changes::{Change, Values, grown};
use plain_words::Known;
use window_rules::{Congestion, SlowStart};

/// What an endpoint's window would be if a stack left out one change. All values are bytes.
#[derive(Clone, Copy)]
pub(crate) struct LossWindows {
    /// How much greater cwnd is if the end of the last fast recovery doesn't deflate it (RFC 5681, 3.2, step 6). 0: no
    /// fast recovery ended since the last loss, or the stack kept to cwnd since.
    inflation: u32,
    /// How much greater cwnd is if the last expiry doesn't reduce it (RFC 5681, 3.1). 0: another loss followed, or the
    /// stack kept to cwnd since.
    unreduced: u32,
    /// The window if no loss sets ssthresh (RFC 5681, 3.1), so that it grows by slow start. None: the stack kept to
    /// cwnd since the last loss.
    unset: Option<Congestion>,
}

impl LossWindows {
    pub(crate) fn new() -> LossWindows {
        LossWindows {
            inflation: 0,
            unreduced: 0,
            unset: None,
        }
    }

    /// The windows after a step, which changed an endpoint's values from those before to those after it.
    pub(crate) fn after(
        &self,
        change: Change,
        before: &Values,
        after: &Values,
        slow: SlowStart,
    ) -> LossWindows {
        let lowered = before.congestion.cwnd.saturating_sub(after.congestion.cwnd);
        let is_fast = before.congestion.fast;
        LossWindows {
            inflation: self.inflation_after(change, is_fast, lowered),
            unreduced: self.unreduced_after(change, before.backoffs, lowered),
            unset: self.unset_after(change, is_fast, after, slow),
        }
    }

    fn inflation_after(&self, change: Change, is_fast: bool, lowered: u32) -> u32 {
        match change {
            Change::Acknowledged(_) if is_fast => lowered,
            Change::Begins | Change::Timeout | Change::Recovery => 0,
            Change::Acknowledged(_) | Change::Duplicate | Change::Other => self.inflation,
        }
    }

    // After a second expiry, cwnd would still be that before the first one.
    fn unreduced_after(&self, change: Change, backoffs: u32, lowered: u32) -> u32 {
        match change {
            Change::Timeout if backoffs == 0 => lowered,
            Change::Timeout => self.unreduced.saturating_add(lowered),
            Change::Begins | Change::Recovery => 0,
            Change::Acknowledged(_) | Change::Duplicate | Change::Other => self.unreduced,
        }
    }

    fn unset_after(
        &self,
        change: Change,
        is_fast: bool,
        after: &Values,
        slow: SlowStart,
    ) -> Option<Congestion> {
        match change {
            Change::Acknowledged(acked) if !is_fast => Some(grown(slow, &self.unset?, acked)),
            Change::Duplicate | Change::Other if !is_fast => self.unset,
            _ => Some(Congestion {
                ssthresh: u32::MAX,
                fast: false,
                ..after.congestion
            }),
        }
    }

    /// The windows into which a segment of SMSS bytes that waits doesn't fit. A stack that had any other would have
    /// sent it.
    pub(crate) fn without_fitting(&self, now: &Values) -> LossWindows {
        let mut left = *self;
        if self.has_room(now, Known::NotDeflated) {
            left.inflation = 0;
        }
        if self.has_room(now, Known::NotReduced) {
            left.unreduced = 0;
        }
        if self.has_room(now, Known::ThresholdKept) {
            left.unset = None;
        }
        left
    }

    // Whether a segment of SMSS bytes that follows everything sent fits the greater window.
    fn has_room(&self, now: &Values, known: Known) -> bool {
        match self.greater(&now.congestion, known) {
            Some(cwnd) => now.next_end() <= now.una.saturating_add(u64::from(cwnd)),
            None => false,
        }
    }

    /// The greater cwnd of a stack that leaves out a change, in bytes. None: it isn't greater, or ssthresh isn't set.
    pub(crate) fn greater(&self, now: &Congestion, known: Known) -> Option<u32> {
        let cwnd = match known {
            Known::NotDeflated => now.cwnd.saturating_add(self.inflation),
            Known::NotReduced => now.cwnd.saturating_add(self.unreduced),
            Known::ThresholdKept if now.ssthresh < u32::MAX => self.unset?.cwnd,
            _ => 0,
        };
        if now.cwnd < cwnd { Some(cwnd) } else { None }
    }
}
