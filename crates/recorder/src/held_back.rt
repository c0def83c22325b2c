//! Segments that are held back until further ones of their host were sent.

use std::alloc::{AllocError, Global};
use std::collections::BTreeMap;

/// The segments held back. `T` is a segment in transit.
#[derive(Drop)]
pub struct HeldBack<T> {
    // Sorted by the count of pumped segments at which each is due, then by that at which it was pumped.
    waiting: BTreeMap<(u64, u64), T, Global>,
    // How many segments were pumped.
    pumped: u64,
}

impl<T: Drop> HeldBack<T> {
    /// An empty queue.
    pub fn new(alloc: Global) -> HeldBack<T> {
        HeldBack {
            waiting: BTreeMap::new(alloc),
            pumped: 0,
        }
    }

    /// Counts one more pumped segment.
    pub fn count(&mut self) {
        self.pumped = self.pumped.saturating_add(1);
    }

    /// Holds the segment that was pumped last until this many further ones were. The error means that memory ran out;
    /// then the segment is dropped.
    pub fn hold(&mut self, further: u32, segment: T) -> Result<(), AllocError> {
        let due = self.pumped.saturating_add(u64::from(further));
        let pumped = self.pumped;
        self.waiting.insert((due, pumped), segment)?;
        Ok(())
    }

    /// How many are held.
    pub fn len(&self) -> usize {
        self.waiting.len()
    }

    /// The next segment that is due. `None` if there is none.
    pub fn take_due(&mut self) -> Option<T> {
        let ((due, _), _) = self.waiting.first_key_value()?;
        if *due > self.pumped {
            return None;
        }
        let (_, segment) = self.waiting.pop_first()?;
        Some(segment)
    }
}
