//! What may process a segment, which rules that would break, and whether it need not be processed.
//! `lib.rt` says why `discards_at` is inlined.

ghost use Rattle.std.specs.Prelude.{◌≡◌, ◌<◌, ◌^◌};
ghost use Rattle.std.specs.Option.{option_map_or};
ghost use Rattle.std.specs.Result.{result_err};
ghost use Rattle.endpoint_state.specs.Kept.{AreReadable};
ghost use Rattle.spec_tcp.specs.Arrives.{AtListener, Nobody, taker};
ghost use Rattle.spec_tcp.specs.HostTcp.{listener_on};
ghost use Rattle.spec_duties.specs.Dropped.{answering_breaks, discards_at, droppable_at_listener, droppable_by};
ghost use Rattle.spec_duties.specs.Dropped.{droppable_at_endpoint, is_old, taking_breaks};
ghost use Rattle.watched.specs.Targets.{taker_at};

use case_forms::{Host, TakeChoice, Version};
use duties::{
    Target, acknowledges_less, discards, is_below_irs, is_challenged, meets_closed_window,
    reads_old_numbers,
};
use endpoint_state::{HostTcp, World};
use spec_duties::Droppable;
use spec_tcp::{Arrived, Emission, Endpoint};
use verdict::Rule;

fn target_on(b: &HostTcp, port: u16) -> Target
    ensures { taker_at b.now result ≡ option_map_or (λ l. AtListener l) (listener_on b.now port) Nobody }
{
    match b.listener_on(port) {
        Some(place) => Target::Listener(place),
        None => Target::Nobody,
    }
}

/// What may process a segment (RFC 9293, 3.10.7).
pub(crate) fn target_of(b: &HostTcp, m: &Emission) -> Target
    ensures { taker_at b.now result ≡ taker b.now m.now }
{
    let Some(place) = b.place_of(m.rport, m.lport) else {
        return target_on(b, m.rport);
    };
    let Some(endpoint) = b.endpoint_at(place) else {
        return target_on(b, m.rport);
    };
    if endpoint.state.is_closed() {
        target_on(b, m.rport)
    } else {
        Target::Endpoint(place)
    }
}

/// Whether the model permits processing the segment, with nothing chosen. The error is the first broken rule.
pub(crate) fn admits_processing(
    world: &World,
    moment: u64,
    host: Host,
    line: u64,
) -> Result<(), Rule>
    ensures { result_err result ≡ taking_breaks world.now.header moment world.now.world host line }
{
    let bare = TakeChoice {
        cwnd: 0,
        keep: false,
        sample: false,
    };
    world.admits_taking(host, moment, line, bare)
}

/// Whether the model permits a reset in answer. The error is the first broken rule.
pub(crate) fn admits_answering(world: &World, host: Host, line: u64) -> Result<(), Rule>
    ensures { result_err result ≡ answering_breaks world.now.header world.now.world host line }
{
    world.admits_reset(host, line)
}

fn droppable_at_listener(b: &HostTcp, place: u32) -> Droppable
    ensures { result ≡ droppable_at_listener b.now place }
{
    match b.listener_at(place) {
        Some(listener) => Droppable::IfFull {
            listener: place,
            backlog: listener.backlog,
        },
        None => Droppable::No,
    }
}

// The same at an endpoint.
fn droppable_at(version: Version, m: &Emission, place: u32, e: &Endpoint) -> Droppable
    requires { e.now.stream.snd_una < 2 ^ 63 }
    ensures { result ≡ droppable_at_endpoint version m.now place e.now }
{
    if is_challenged(e, m) || meets_closed_window(e, m) {
        return Droppable::Yes;
    }
    let read = Arrived::read(version, e, m);
    if !acknowledges_less(version, e, &read) {
        return Droppable::No;
    }
    Droppable::IfStale {
        place,
        behind: e.stream.snd_una - read.ack(),
    }
}

#[tactic(auto, using(endpoint_state::proofs::Readable::una_at))]
fn droppable_at_endpoint(version: Version, b: &HostTcp, m: &Emission, place: u32) -> Droppable
    requires { AreReadable b.now.endpoints }
    ensures { result ≡ droppable_by version b.now m.now (taker_at b.now (Target.Endpoint place)) }
{
    match b.endpoint_at(place) {
        Some(e) => droppable_at(version, m, place, e),
        None => Droppable::No,
    }
}

/// Whether what could be processed need not be.
pub(crate) fn droppable_by(version: Version, b: &HostTcp, m: &Emission, target: Target) -> Droppable
    requires { AreReadable b.now.endpoints }
    ensures { result ≡ droppable_by version b.now m.now (taker_at b.now target) }
{
    match target {
        Target::Nobody => Droppable::No,
        Target::Listener(place) => droppable_at_listener(b, place),
        Target::Endpoint(place) => droppable_at_endpoint(version, b, m, place),
    }
}

/// Whether a segment's number is an old one, below the peer's initial one.
pub(crate) fn is_old(version: Version, b: &HostTcp, m: &Emission, target: Target) -> bool
    ensures { result ≡ is_old version m.now (taker_at b.now target) }
{
    let Target::Endpoint(place) = target else {
        return false;
    };
    match b.endpoint_at(place) {
        Some(e) => reads_old_numbers(version) && is_below_irs(e, m),
        None => false,
    }
}

/// Whether processing a segment discards what is next in order.
#[tactic(auto, using(endpoint_state::proofs::Readable::una_at))]
#[inline(always)]
pub(crate) fn discards_at(
    version: Version,
    b: &HostTcp,
    how: TakeChoice,
    m: &Emission,
    target: Target,
) -> bool
    requires { AreReadable b.now.endpoints }
    ensures { result ≡ discards_at version how m.now (taker_at b.now target) }
{
    let Target::Endpoint(place) = target else {
        return false;
    };
    match b.endpoint_at(place) {
        Some(e) => discards(how, e, &Arrived::read(version, e, m)),
        None => false,
    }
}
