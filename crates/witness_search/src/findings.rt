//! What a pass finds: a witness, and the lines that it adds.

use crate::key::EndpointKey;
use case_forms::{Steps, Timer};
use std::alloc::Global;
use verdict::Rule;

/// An added line: a timer expires.
#[derive(Clone, Copy)]
pub(crate) struct Added {
    /// The place of the event line that follows it.
    pub before: usize,
    pub moment: u64,
    pub key: EndpointKey,
    pub timer: Timer,
}

/// A call, by the place of its beginning, and the endpoint that it means.
#[derive(Clone, Copy)]
pub(crate) struct MeantCall {
    pub place: usize,
    pub key: EndpointKey,
}

/// A step that only a duty refuses, and that was done all the same.
#[derive(Clone, Copy)]
pub(crate) struct Forgiven {
    /// How many steps precede it, and how many lines were added before it.
    pub before: usize,
    pub added: usize,
    /// The place of the line at which it was done.
    pub place: usize,
    pub rule: Rule,
}

/// What a pass finds.
#[derive(Drop)]
pub(crate) struct Findings {
    /// The witness.
    pub steps: Steps,
    /// The lines that are added to the trace.
    pub added: Vec<Added>,
    /// What calls mean, in the order of their beginnings.
    pub meant: Vec<MeantCall>,
    /// The places of arrivals that ended beyond the window.
    pub beyond: Vec<usize>,
    /// The places of arrivals that were processed late.
    pub late: Vec<usize>,
    /// The first step that a duty refuses. None: no duty refuses any.
    pub forgiven: Option<Forgiven>,
    /// How many choices did something.
    pub effective: u64,
}

impl Findings {
    /// Nothing yet.
    pub(crate) fn new(alloc: Global) -> Findings {
        Findings {
            steps: Steps::new(alloc),
            added: Vec::new(alloc),
            meant: Vec::new(alloc),
            beyond: Vec::new(alloc),
            late: Vec::new(alloc),
            forgiven: None,
            effective: 0,
        }
    }
}
