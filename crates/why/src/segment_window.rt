//! A congestion window that counts segments of any size, like that of Linux.

use crate::changes::{Change, Values};
use case_forms::OutOfMemory;
use std::alloc::Global;

/// RFC 5681 with counts in segments. In slow start, the window grows by all segments that an acknowledgment covers.
#[derive(Drop)]
pub(crate) struct SegmentWindow {
    /// The congestion window.
    window: u64,
    /// The slow start threshold.
    threshold: u64,
    /// The segments acknowledged in congestion avoidance that haven't increased the window yet.
    counted: u64,
    /// The end of each segment sent, in the order of positions.
    ends: Vec<u64>,
    /// How many of them are acknowledged.
    acknowledged: usize,
}

impl SegmentWindow {
    pub(crate) fn new(alloc: Global) -> SegmentWindow {
        SegmentWindow {
            window: 0,
            threshold: u64::MAX,
            counted: 0,
            ends: Vec::new(alloc),
            acknowledged: 0,
        }
    }

    /// Follows an endpoint through a change from the values before a step to those after it.
    pub(crate) fn follow(
        &mut self,
        change: Change,
        before: &Values,
        after: &Values,
    ) -> Result<(), OutOfMemory> {
        if after.sent < before.sent {
            // A new connection begins with no segment.
            self.ends.clear();
            self.acknowledged = 0;
        } else if before.sent < after.sent {
            self.ends.push(after.sent)?;
        }
        let covered = self.cover(after.una);
        self.change(change, before, after, covered);
        Ok(())
    }

    // Changes the window for one step, which acknowledged `covered` segments.
    fn change(&mut self, change: Change, before: &Values, after: &Values, covered: u64) {
        match change {
            Change::Begins => {
                let smss = after.congestion.smss.max(1);
                self.window = u64::from(after.congestion.cwnd / smss);
                self.threshold = u64::MAX;
                self.counted = 0;
            }
            Change::Acknowledged(_) if before.congestion.fast => self.window = self.threshold,
            Change::Acknowledged(_) => self.grow(covered),
            Change::Duplicate if before.congestion.fast => {
                self.window = self.window.saturating_add(1);
            }
            Change::Timeout => {
                if before.backoffs == 0 && before.una != 0 {
                    self.threshold = self.half();
                }
                self.window = 1;
                self.counted = 0;
            }
            Change::Recovery => {
                self.threshold = self.half();
                let duplicates = u64::from(before.congestion.dup);
                self.window = self.threshold.saturating_add(duplicates);
            }
            Change::Duplicate | Change::Other => {}
        }
    }

    /// How many segments are in flight.
    pub(crate) fn flight(&self) -> u64 {
        self.ends.len().saturating_sub(self.acknowledged) as u64
    }

    /// The window in segments, with the two that limited transmit adds (RFC 5681, 3.2, step 1).
    pub(crate) fn allowed(&self, now: &Values) -> u64 {
        let limited = !now.congestion.fast && matches!(now.congestion.dup, 1 | 2);
        self.window.saturating_add(if limited { 2 } else { 0 })
    }

    // Counts the segments that end at or below `una` as acknowledged, and returns their number.
    fn cover(&mut self, una: u64) -> u64 {
        let unacknowledged = self.ends.get(self.acknowledged..).unwrap_or(&[]);
        let covered = unacknowledged.iter().take_while(|end| **end <= una).count();
        self.acknowledged = self.acknowledged.saturating_add(covered);
        covered as u64
    }

    // This many segments are newly acknowledged.
    fn grow(&mut self, covered: u64) {
        let slow = covered.min(self.threshold.saturating_sub(self.window));
        self.window = self.window.saturating_add(slow);
        self.counted = self.counted.saturating_add(covered.saturating_sub(slow));
        if self.window <= self.counted {
            self.counted = self.counted.saturating_sub(self.window);
            self.window = self.window.saturating_add(1);
        }
    }

    // Half of the flight, or two segments.
    fn half(&self) -> u64 {
        (self.flight() / 2).max(2)
    }
}
