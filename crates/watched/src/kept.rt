//! Which positions of its peer's stream an endpoint keeps of a segment, and whether what it sends reports others.
//! `lib.rt` says why functions here are inlined.

ghost use Rattle.std.specs.Prelude.{◌≡◌};
ghost use Rattle.spec_network.specs.Tables.{pick};
ghost use Rattle.spec_tcp.specs.Bounds.{IsSmallEmission};
ghost use Rattle.endpoint_state.specs.Kept.{AreReadable};
ghost use Rattle.spec_cases.specs.Cases.{shows_untrue, untrue_from, untrue_sent};
ghost use Rattle.spec_duties.specs.Kept.{kept_at, kept_of, nothing_kept};
ghost use Rattle.watched.specs.Targets.{taker_at};

use crate::blocks::reads_blocks;
use case_forms::{Host, TakeChoice, TakenLine, Version, Wire};
use duties::Target;
use endpoint::{kept_end, kept_start};
use endpoint_state::{HostTcp, World};
use flights::Flights;
use spec_duties::{Kept, Observation, Untruth};
use spec_tcp::{Arrived, Emission, Endpoint, EndpointId};

/// Nothing is kept.
#[inline(always)]
pub(crate) fn nothing_kept() -> Kept
    ensures { result ≡ nothing_kept }
{
    Kept { from: 0, upto: 0 }
}

fn kept_of(how: TakeChoice, e: &Endpoint, m: &Arrived<'_>) -> Kept
    requires { IsSmallEmission m.now }
    ensures { result ≡ kept_of how e.now m.now }
{
    Kept {
        from: kept_start(e, m),
        upto: kept_end(e, how, m),
    }
}

/// Which positions are kept of a segment that is processed.
#[tactic(auto, using(endpoint_state::proofs::Readable::una_at))]
#[inline(always)]
pub(crate) fn kept_at(
    version: Version,
    b: &HostTcp,
    how: TakeChoice,
    m: &Emission,
    target: Target,
) -> Kept
    requires readable { AreReadable b.now.endpoints }
    requires small { IsSmallEmission m.now }
    ensures { result ≡ kept_at version how m.now (taker_at b.now target) }
{
    let Target::Endpoint(place) = target else {
        return nothing_kept();
    };
    let Some(e) = b.endpoint_at(place) else {
        return nothing_kept();
    };
    if !reads_blocks(version, e, m) {
        return nothing_kept();
    }
    kept_of(how, e, &Arrived::read(version, e, m))
}

#[inline(always)]
fn untrue_from(flights: &Flights, host: Host, b: &HostTcp, wire: &Wire, m: &Emission) -> bool
    ensures { result ≡ untrue_from flights.now host b.now wire.now m.now }
{
    if m.is_reset_reply {
        return false;
    }
    match b.endpoint_at(m.sender.number) {
        Some(e) => {
            let number = m.sender.number;
            flights.sends_untrue(EndpointId { host, number }, e, wire.bytes.as_slice())
        }
        None => false,
    }
}

// Whether a host sends a selective acknowledgment that isn't true: the segment that it built under this number, which
// its line shows like this.
#[inline(always)]
fn untrue_sent(world: &World, flights: &Flights, host: Host, number: u32, wire: &Wire) -> bool
    ensures { result ≡ untrue_sent flights.now host (pick world.now.world.hosts host) number wire.now }
{
    match world.made(host, number) {
        Some(made) => untrue_from(flights, host, world.body(host), wire, made.emission()),
        None => false,
    }
}

/// What the line of the segment shows that may not be, if this is seen of the step: its blocks, or its timestamps.
/// Versions 1 to 5 don't ask.
#[inline(always)]
pub(crate) fn shows_untrue(
    world: &World,
    flights: &Flights,
    host: Host,
    number: u32,
    wire: &Wire,
    seen: &Observation,
) -> Option<Untruth>
    ensures { result ≡ shows_untrue world.now.header flights.now host (pick world.now.world.hosts host) number wire.now
        seen.now }
{
    let header = world.header();
    if !header.version.says_sender() {
        return None;
    }
    if untrue_sent(world, flights, host, number, wire) {
        return Some(Untruth::Blocks);
    }
    flights.mistimed(header, seen)
}

/// The same for a step that takes a line.
pub fn untrue_at(
    world: &World,
    flights: &Flights,
    line: &TakenLine,
    seen: &Observation,
) -> Option<Untruth> {
    match line {
        TakenLine::Sent {
            host,
            made,
            wire,
            ..
        } => shows_untrue(world, flights, *host, *made, wire, seen),
        TakenLine::CallBegin { .. }
        | TakenLine::CallEnd { .. }
        | TakenLine::Came { .. }
        | TakenLine::Heard { .. }
        | TakenLine::Expired { .. } => None,
    }
}
