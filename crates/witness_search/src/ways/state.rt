//! What the ways of both hosts depend on.

use super::recovery::Recoveries;
use super::samples::{Building, Timings};
use super::{HostWays, Ways};
use crate::key::EndpointKey;
use case_forms::{OutOfMemory, SegmentPlan};
use endpoint_state::Endpoint;
use spec_tcp::Arrived;
use std::alloc::Global;

/// The ways of both hosts, and what they depend on.
#[derive(Drop)]
pub(crate) struct WayState {
    ways: Ways,
    timings: Timings,
    recoveries: Recoveries,
}

// The position after a segment.
fn end_of(plan: &SegmentPlan) -> u64 {
    plan.pos
        .saturating_add(u64::from(plan.len))
        .saturating_add(u64::from(plan.flags.syn))
        .saturating_add(u64::from(plan.flags.fin))
}

impl WayState {
    /// Before the first line.
    pub(crate) fn new(alloc: Global, ways: Ways) -> WayState {
        WayState {
            ways,
            timings: Timings::new(alloc),
            recoveries: Recoveries::new(alloc),
        }
    }

    fn of(&self, at: EndpointKey) -> HostWays {
        self.ways.of_host(at.host())
    }

    /// An endpoint that built all below a position builds a segment.
    pub(crate) fn build(
        &mut self,
        at: EndpointKey,
        max: u64,
        plan: &SegmentPlan,
    ) -> Result<(), OutOfMemory> {
        let building = Building {
            max,
            start: plan.pos,
            end: end_of(plan),
        };
        let way = self.of(at).samples;
        self.timings.build(way, at, building)
    }

    /// Fast recovery begins at an endpoint that built all below a position.
    pub(crate) fn recover(&mut self, at: EndpointKey, max: u64) -> Result<(), OutOfMemory> {
        let way = self.of(at).leaving;
        self.recoveries.begin(way, at, max)
    }

    /// An endpoint undoes its recovery.
    pub(crate) fn undo(&mut self, at: EndpointKey) {
        self.recoveries.end(at);
    }

    /// The retransmission timer of an endpoint expires.
    pub(crate) fn expire(&mut self, at: EndpointKey) {
        self.recoveries.end(at);
    }

    /// An endpoint processed an acknowledgment of what is below a position.
    pub(crate) fn acknowledge(&mut self, at: EndpointKey, ack: u64) {
        self.timings.acknowledge(at, ack);
        self.recoveries.acknowledge(at, ack);
    }

    /// Whether an endpoint measures a round trip if it processes an acknowledgment of what is below a position.
    pub(crate) fn measures(&self, at: EndpointKey, ack: u64) -> bool {
        self.timings.measures(self.of(at).samples, at, ack)
    }

    /// The congestion window of an endpoint after a segment that permits at most this one, in bytes.
    pub(crate) fn window(
        &self,
        at: EndpointKey,
        endpoint: &Endpoint,
        read: &Arrived<'_>,
        greatest: u32,
    ) -> u32 {
        let values = &endpoint.control.values;
        let is_new = read.flags().ack && endpoint.stream.snd_una < read.ack();
        let greatest = self.recoveries.window(at, values, is_new, greatest);
        self.of(at).growth.window(values, greatest)
    }
}
