//! What reaches an endpoint, as that reads it; the timestamps of a segment; and what one acknowledges that is built or
//! sent.
//! `lib.rt` says why functions here are inlined.

ghost use Rattle.std.specs.Prelude.{◌≡◌};
ghost use Rattle.endpoint_state.specs.Kept.{AreReadable};
ghost use Rattle.spec_duties.specs.Arrivals.{acked_at_ports, acked_built, acked_sent, arrival_at, arrival_of};
ghost use Rattle.spec_duties.specs.Arrivals.{stamps_read};
ghost use Rattle.watched.specs.Targets.{taker_at};

use crate::blocks::reads_blocks;
use case_forms::{SegmentPlan, Version, Wire};
use duties::Target;
use endpoint::{is_before_text, raised_at};
use endpoint_state::HostTcp;
use segment::{TimestampPair, timestamps};
use spec_duties::Arrival;
use spec_tcp::{Arrived, Emission, Endpoint};

/// The timestamps of a segment with these bytes. Versions 1 to 5 don't ask.
#[inline(always)]
pub(crate) fn stamps_read(version: Version, bytes: &[u8]) -> Option<TimestampPair>
    ensures { result ≡ stamps_read version bytes.now }
{
    if version.says_sender() {
        timestamps(bytes)
    } else {
        None
    }
}

fn arrival_of(m: &Arrived<'_>) -> Arrival
    ensures { result ≡ arrival_of m.now }
{
    Arrival {
        pos: m.pos(),
        ack: m.ack(),
        length: m.length(),
    }
}

/// What reaches an endpoint that knows the peer's SYN, but for resets. Versions 1 to 5 don't ask.
#[tactic(auto, using(endpoint_state::proofs::Readable::una_at))]
#[inline(always)]
pub(crate) fn arrival_at(
    version: Version,
    b: &HostTcp,
    m: &Emission,
    target: Target,
) -> Option<Arrival>
    requires { AreReadable b.now.endpoints }
    ensures { result ≡ arrival_at version m.now (taker_at b.now target) }
{
    let Target::Endpoint(place) = target else {
        return None;
    };
    let Some(e) = b.endpoint_at(place) else {
        return None;
    };
    if reads_blocks(version, e, m) {
        Some(arrival_of(&Arrived::read(version, e, m)))
    } else {
        None
    }
}

// The position that a segment acknowledges at least which an endpoint builds at a moment, in microseconds.
fn acked_built(e: &Endpoint, plan: &SegmentPlan, moment: u64) -> u64
    ensures { result ≡ acked_built e.now plan.now moment }
{
    if plan.flags.ack {
        e.rcv_nxt().saturating_sub(raised_at(e, plan, moment))
    } else {
        0
    }
}

/// The same at the endpoint of its ports. Versions 1 to 5 don't ask.
#[inline(always)]
pub(crate) fn acked_at_ports(version: Version, b: &HostTcp, plan: &SegmentPlan, moment: u64) -> u64
    ensures { result ≡ acked_at_ports version b.now plan.now moment }
{
    if !version.says_sender() {
        return 0;
    }
    let Some(place) = b.place_of(plan.lport, plan.rport) else {
        return 0;
    };
    match b.endpoint_at(place) {
        Some(e) => acked_built(e, plan, moment),
        None => 0,
    }
}

/// The position that the line of a segment shows as acknowledged. Versions 1 to 5 don't ask.
#[inline(always)]
pub(crate) fn acked_sent(version: Version, wire: &Wire, m: &Emission) -> u64
    ensures { result ≡ acked_sent version wire.now m.now }
{
    if !version.says_sender() || !m.flags.ack {
        return 0;
    }
    if is_before_text(wire, m) {
        m.ack.saturating_sub(m.raised)
    } else {
        m.ack
    }
}
