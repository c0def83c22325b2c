//! The world after the steps so far, what its hosts owe, and the log of these steps.
//!
//! - `steps`: methods that do a step and write it down
//! - `owed`: what endpoints owe, and what is late at the end

mod owed;
mod steps;

use crate::key::EndpointKey;
use crate::log::Log;
use crate::pass::Sought;
use crate::watch::Beside;
use case_forms::Host;
use endpoint_state::{Endpoint, World};
pub(crate) use owed::Overdue;
use spec_flights::Clocks;
use spec_tcp::{Arrived, Emission};

/// Whether something else may be done instead of a step.
#[derive(Clone, Copy)]
pub(crate) enum Will {
    Try,
    /// Nothing else is left to do. If the step is refused, it is written down: the witness then ends with it.
    Insist,
}

/// The world after the steps so far, what is kept beside it, and these steps.
#[derive(Drop)]
pub(crate) struct Progress {
    world: World,
    beside: Beside,
    pub log: Log,
}

/// The number, or the greatest of 32 bits if it's above.
pub(crate) fn saturated(number: u64) -> u32 {
    u32::try_from(number).unwrap_or(u32::MAX)
}

impl Progress {
    /// Before the first line.
    pub(crate) fn new(sought: &Sought<'_>) -> Progress {
        let (alloc, header) = (sought.alloc, sought.header);
        Progress {
            world: World::start(alloc, header),
            beside: Beside::start(alloc),
            log: Log::new(sought),
        }
    }

    pub(crate) fn world(&self) -> &World {
        &self.world
    }

    pub(crate) fn moment(&self) -> u64 {
        self.log.moment
    }

    /// How late a host may be with what it must do, in microseconds. None: no duty is judged.
    pub(crate) fn slack(&self) -> Option<u64> {
        self.world.header().slack
    }

    /// An endpoint. None: it doesn't exist.
    pub(crate) fn endpoint(&self, key: EndpointKey) -> Option<&Endpoint> {
        let body = self.world.body(key.host());
        body.endpoint_of(key.lport, key.rport)
    }

    /// A segment that arrived with a line and waits, and the endpoint for which it is meant.
    pub(crate) fn waiting(&self, host: Host, line: u64) -> Option<(EndpointKey, &Emission)> {
        let m = self.world.waiting(host, line)?;
        Some((EndpointKey::receiver(host, m), m))
    }

    /// What is known of timestamps at an endpoint. None: it doesn't exist, or the version is 1 to 5.
    pub(crate) fn clocks(&self, key: EndpointKey) -> Option<Clocks> {
        if !self.world.header().version.says_sender() {
            return None;
        }
        let place = self.world.body(key.host()).place_of(key.lport, key.rport)?;
        Some(self.beside.clocks(key.host(), place))
    }

    /// An endpoint, and a segment as the endpoint reads it. None: it doesn't exist, or is CLOSED or beyond all
    /// positions.
    pub(crate) fn read<'m>(
        &self,
        key: EndpointKey,
        m: &'m Emission,
    ) -> Option<(&Endpoint, Arrived<'m>)> {
        let endpoint = self.endpoint(key)?;
        if endpoint.state.is_closed() {
            return None;
        }
        let read = Arrived::checked_read(self.world.header().version, endpoint, m)?;
        Some((endpoint, read))
    }
}
