//! Arrivals that a host processes late.

use crate::key::EndpointKey;
use case_forms::{Host, OutOfMemory};
use std::alloc::Global;
use std::collections::{BTreeMap, VecDeque};

/// An arrival that isn't processed yet.
#[derive(Clone, Copy)]
pub(crate) struct Waiting {
    /// The place of its line.
    pub place: usize,
    pub host: Host,
    /// The number of its line in the trace with added lines.
    pub line: u64,
    /// When it arrived, in microseconds.
    pub moment: u64,
}

/// For each endpoint, the arrivals that it processes late, in their order.
#[derive(Drop)]
pub(crate) struct Late(BTreeMap<EndpointKey, VecDeque<Waiting>>);

impl Late {
    /// No arrival is late.
    pub(crate) fn new(alloc: Global) -> Late {
        Late(BTreeMap::new(alloc))
    }

    /// The first arrival that an endpoint has to process. None: no arrival is late there.
    pub(crate) fn first(&self, key: EndpointKey) -> Option<Waiting> {
        self.0.get(&key)?.front().copied()
    }

    /// How many arrivals an endpoint has to process.
    pub(crate) fn count(&self, key: EndpointKey) -> usize {
        self.0.get(&key).map_or(0, |all| all.len())
    }

    /// An endpoint processes an arrival after all others.
    pub(crate) fn put(&mut self, key: EndpointKey, waiting: Waiting) -> Result<(), OutOfMemory> {
        self.0.entry(key)?.or_default().push_back(waiting)?;
        Ok(())
    }

    /// Removes the first arrival of an endpoint.
    pub(crate) fn remove_first(&mut self, key: EndpointKey) {
        if let Some(all) = self.0.get_mut(&key) {
            all.pop_front();
        }
    }
}
