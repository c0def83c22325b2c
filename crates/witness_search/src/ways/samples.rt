//! Which round trips are measured (RFC 6298, 3).

use super::WayWords;
use crate::key::EndpointKey;
use case_forms::OutOfMemory;
use std::alloc::Global;
use std::collections::BTreeMap;

/// Which round trips are measured.
#[derive(Clone, Copy, PartialEq, Eq)]
pub(crate) enum Samples {
    /// At each acknowledgment that permits it: the usual way.
    Each,
    /// One at a time: that of the first segment that is sent while none is measured.
    First,
    /// One at a time: that of the last segment that was sent.
    Last,
}

const FIRST: WayWords = WayWords {
    name: "one-sample",
    does: "measures one round trip at a time (RFC 6298, 3)",
};

const LAST: WayWords = WayWords {
    name: "last-sample",
    does: "measures the round trip of the last segment of a flight (RFC 6298, 3)",
};

impl Samples {
    /// What the way is called. None: it's the usual one.
    pub(crate) fn words(self) -> Option<WayWords> {
        match self {
            Samples::Each => None,
            Samples::First => Some(FIRST),
            Samples::Last => Some(LAST),
        }
    }

    /// The way that has this name.
    pub(crate) fn named(name: &str) -> Option<Samples> {
        if name == FIRST.name {
            Some(Samples::First)
        } else if name == LAST.name {
            Some(Samples::Last)
        } else {
            None
        }
    }

    /// The other ways.
    pub(crate) fn others(self) -> [Samples; 2] {
        match self {
            Samples::Each => [Samples::First, Samples::Last],
            Samples::First => [Samples::Each, Samples::Last],
            Samples::Last => [Samples::Each, Samples::First],
        }
    }
}

/// A segment that is built.
#[derive(Clone, Copy)]
pub(crate) struct Building {
    /// The position after all that was built before.
    pub max: u64,
    /// The positions of the segment: its first one, and the one after its last.
    pub start: u64,
    pub end: u64,
}

/// For each endpoint that measures one round trip at a time, the position after the segment that it measures.
#[derive(Drop)]
pub(crate) struct Timings(BTreeMap<EndpointKey, u64>);

impl Timings {
    /// Nothing is measured.
    pub(crate) fn new(alloc: Global) -> Timings {
        Timings(BTreeMap::new(alloc))
    }

    /// An endpoint builds a segment. A retransmission ends a measurement (RFC 6298, 3: Karn's algorithm).
    pub(crate) fn build(
        &mut self,
        way: Samples,
        at: EndpointKey,
        building: Building,
    ) -> Result<(), OutOfMemory> {
        let Building { max, start, end } = building;
        if start == end {
            return Ok(());
        }
        if start < max {
            self.0.remove(&at);
            return Ok(());
        }
        match way {
            Samples::Each => Ok(()),
            Samples::First if self.0.contains_key(&at) => Ok(()),
            Samples::First | Samples::Last => {
                self.0.insert(at, end)?;
                Ok(())
            }
        }
    }

    /// Whether an endpoint measures a round trip if a segment arrives that acknowledges what is below a position.
    pub(crate) fn measures(&self, way: Samples, at: EndpointKey, ack: u64) -> bool {
        match way {
            Samples::Each => true,
            Samples::First | Samples::Last => self.0.get(&at).is_some_and(|timed| *timed <= ack),
        }
    }

    /// What is below a position is acknowledged.
    pub(crate) fn acknowledge(&mut self, at: EndpointKey, ack: u64) {
        if self.0.get(&at).is_some_and(|timed| *timed <= ack) {
            self.0.remove(&at);
        }
    }
}
