//! When fast recovery ends.

use super::WayWords;
use crate::key::EndpointKey;
use case_forms::OutOfMemory;
use std::alloc::Global;
use std::collections::BTreeMap;
use window_rules::Congestion;

/// When fast recovery ends.
#[derive(Clone, Copy, PartialEq, Eq)]
pub(crate) enum Leaving {
    /// At the first new acknowledgment (RFC 5681, 3.2, step 6): the usual way.
    FirstAck,
    /// Once all is acknowledged that was sent before it began (RFC 6582, 3.2). Until then, the window doesn't grow.
    WholeFlight,
}

const WHOLE_FLIGHT: WayWords = WayWords {
    name: "newreno",
    does: "ends fast recovery once all is acknowledged that was sent before it (RFC 6582, 3.2)",
};

impl Leaving {
    /// What the way is called. None: it's the usual one.
    pub(crate) fn words(self) -> Option<WayWords> {
        match self {
            Leaving::FirstAck => None,
            Leaving::WholeFlight => Some(WHOLE_FLIGHT),
        }
    }

    /// The way that has this name.
    pub(crate) fn named(name: &str) -> Option<Leaving> {
        (name == WHOLE_FLIGHT.name).then_some(Leaving::WholeFlight)
    }

    /// The other way.
    pub(crate) fn other(self) -> Leaving {
        match self {
            Leaving::FirstAck => Leaving::WholeFlight,
            Leaving::WholeFlight => Leaving::FirstAck,
        }
    }
}

/// For each endpoint whose fast recovery ends in that way and didn't yet, the position after what was sent before it.
#[derive(Drop)]
pub(crate) struct Recoveries(BTreeMap<EndpointKey, u64>);

impl Recoveries {
    /// No fast recovery began.
    pub(crate) fn new(alloc: Global) -> Recoveries {
        Recoveries(BTreeMap::new(alloc))
    }

    /// Fast recovery begins at an endpoint that sent what is below a position.
    pub(crate) fn begin(
        &mut self,
        way: Leaving,
        at: EndpointKey,
        max: u64,
    ) -> Result<(), OutOfMemory> {
        if way == Leaving::WholeFlight {
            self.0.insert(at, max)?;
        }
        Ok(())
    }

    /// The congestion window after an acknowledgment that permits at most this one, in bytes: during fast recovery, a
    /// new acknowledgment doesn't let it grow.
    pub(crate) fn window(
        &self,
        at: EndpointKey,
        values: &Congestion,
        is_new: bool,
        greatest: u32,
    ) -> u32 {
        if is_new && self.0.contains_key(&at) {
            greatest.min(values.cwnd)
        } else {
            greatest
        }
    }

    /// What is below a position is acknowledged.
    pub(crate) fn acknowledge(&mut self, at: EndpointKey, ack: u64) {
        if self.0.get(&at).is_some_and(|max| *max <= ack) {
            self.0.remove(&at);
        }
    }

    /// A timeout ends fast recovery, or it is undone.
    pub(crate) fn end(&mut self, at: EndpointKey) {
        self.0.remove(&at);
    }
}
