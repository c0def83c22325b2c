//! All that duties read of the world at a step.
//! `lib.rt` says why functions here are inlined.

ghost use Rattle.std.specs.Prelude.{◌≡◌, ◌<◌, ◌^◌, suc, length, nat_eq};
ghost use Rattle.std.specs.Map.{lookup};
ghost use Rattle.std.specs.Result.{result_err};
ghost use Rattle.spec_network.specs.Hosts as network;
ghost use Rattle.spec_network.specs.Tables.{on, pick};
ghost use Rattle.spec_tcp.specs.Bounds.{most_steps};
ghost use Rattle.spec_tcp.specs.Steps.{line_step};
ghost use Rattle.spec_step.specs.Acts.{step_hidden};
ghost use Rattle.spec_duties.specs.Arrivals.{acked_sent, stamps_read};
ghost use Rattle.spec_duties.specs.Dropped.{has_content};
ghost use Rattle.spec_duties.specs.Observations.{at_drop, at_next, at_place, at_ports, at_sender, at_target};
ghost use Rattle.spec_duties.specs.Observations.{processing_of};
ghost use Rattle.spec_duties.specs.Observations.{observe, sending_of, syn_sent, touching, unseen, view_in};
ghost use Rattle.spec_duties.specs.Views as views;
ghost use Rattle.spec_duties.specs.declared.observations.BuiltChange.TheVariants as built_change;
ghost use Rattle.spec_duties.specs.declared.observations.InboxChange.TheVariants as inbox_change;
ghost use Rattle.watched.specs.Targets.{taker_at};

use crate::arrivals::{acked_at_ports, acked_sent, arrival_at, stamps_read};
use crate::blocks::{blocks_taken, no_blocks};
use crate::calls::observe_effect;
use crate::credits::{earns_by_dropping, earns_by_taking};
use crate::dropped::{
    admits_answering, admits_processing, discards_at, droppable_by, is_old, target_of,
};
use crate::kept::{kept_at, nothing_kept};
use crate::sampling::sampling_at;
use crate::syns::{syn_dropped, syn_sent, syn_taken};
use crate::waiting::{observe_begin, observe_end};
use case_forms::{Host, Ports, SegmentPlan, TakeChoice, TakenLine, Version, Wire};
use duties::{
    Target, asks, dropping_of, has_content, processing_place, reads_old_numbers, unborn, view_of,
};
use endpoint::is_before_text;
use endpoint_state::{HostTcp, World};
use spec_duties::{
    BuiltChange, CallChange, Event, InboxChange, Observation, Queueing, Sampling, Sending,
    SocketChange, SynChange, TouchedEndpoint, View,
};
use spec_step::Hidden;
use spec_tcp::Emission;
use verdict::Rule;

/// Nothing that duties watch.
#[inline(always)]
pub(crate) fn unseen() -> Observation
    ensures { result ≡ unseen }
{
    Observation {
        touched: None,
        inbox_change: InboxChange::Nothing,
        built_change: BuiltChange::Nothing,
        queueing: Queueing::Nothing,
        dropping: None,
        discards: false,
        sampling: Sampling::Nothing,
        earns: false,
        syn_change: SynChange::Nothing,
        blocks: no_blocks(),
        kept: nothing_kept(),
        stamps: None,
        arrival: None,
        acked: 0,
        call_change: CallChange::Nothing,
        socket_change: SocketChange::Nothing,
    }
}

#[inline(always)]
pub(crate) fn touching(touched: Option<TouchedEndpoint>) -> Observation
    ensures { result ≡ touching touched }
{
    Observation {
        touched,
        ..unseen()
    }
}

/// A step touches the endpoint at a place.
#[inline(always)]
pub(crate) fn at_place(host: Host, b: &HostTcp, event: Event, place: u32) -> Option<TouchedEndpoint>
    ensures { result ≡ at_place host b.now event place }
{
    match b.endpoint_at(place) {
        Some(endpoint) => Some(TouchedEndpoint {
            host,
            place,
            event,
            before: view_of(endpoint),
        }),
        None => None,
    }
}

#[inline(always)]
fn at_ports(
    host: Host,
    b: &HostTcp,
    event: Event,
    lport: u16,
    rport: u16,
) -> Option<TouchedEndpoint>
    ensures { result ≡ at_ports host b.now event lport rport }
{
    match b.place_of(lport, rport) {
        Some(place) => at_place(host, b, event, place),
        None => None,
    }
}

/// A new endpoint, in the next place.
#[inline(always)]
pub(crate) fn at_next(host: Host, b: &HostTcp, event: Event) -> Option<TouchedEndpoint>
    requires { length b.now.endpoints < 2 ^ 32 }
    ensures { result ≡ at_next host b.now event }
{
    Some(born_at(host, event, b.endpoint_count() as u32))
}

// A step creates the endpoint at a place.
#[inline(always)]
fn born_at(host: Host, event: Event, place: u32) -> TouchedEndpoint
    ensures { result ≡ record { host = host; place = place; event = event; before = views.unborn } }
{
    TouchedEndpoint {
        host,
        place,
        event,
        before: unborn(),
    }
}

#[inline(always)]
fn sending_of(wire: &Wire, m: &Emission) -> Event
    ensures { result ≡ sending_of wire.now m.now }
{
    Event::Sends(Sending {
        flags: m.flags,
        pos: m.pos,
        length: m.length(),
        before_text: is_before_text(wire, m),
    })
}

#[inline(always)]
fn at_sender(host: Host, b: &HostTcp, wire: &Wire, m: &Emission) -> Option<TouchedEndpoint>
    ensures { result ≡ at_sender host b.now wire.now m.now }
{
    if m.is_reset_reply {
        None
    } else {
        at_place(host, b, sending_of(wire, m), m.sender.number)
    }
}

#[inline(always)]
fn processing_of(m: &Emission) -> Event
    ensures { result ≡ processing_of m.now }
{
    Event::Processes {
        length: m.length(),
        rst: m.flags.rst,
    }
}

#[inline(always)]
fn at_target(host: Host, b: &HostTcp, m: &Emission, target: Target) -> Option<TouchedEndpoint>
    requires { length b.now.endpoints < 2 ^ 32 }
    ensures { result ≡ at_target host b.now m.now (taker_at b.now target) }
{
    let place = processing_place(target, b.endpoint_count() as u32)?;
    match target {
        Target::Nobody | Target::Listener(_) => Some(born_at(host, processing_of(m), place)),
        Target::Endpoint(_) => at_place(host, b, processing_of(m), place),
    }
}

#[inline(always)]
fn at_drop(
    version: Version,
    host: Host,
    b: &HostTcp,
    m: &Emission,
    processing: Result<(), Rule>,
    target: Target,
) -> Option<TouchedEndpoint>
    ensures { result ≡ at_drop version host b.now m.now (result_err processing) (taker_at b.now target) }
{
    let Target::Endpoint(place) = target else {
        return None;
    };
    let Some(endpoint) = b.endpoint_at(place) else {
        return None;
    };
    let event = Event::Drops {
        asks: asks(reads_old_numbers(version), m, processing, endpoint),
        unlimited: has_content(m),
    };
    at_place(host, b, event, place)
}

// A host drops what waits under this line.
#[tactic(auto, using(endpoint_state::proofs::Readable::kept_reads))]
#[inline(always)]
fn observe_drop(world: &World, host: Host, line: u64, moment: u64) -> Observation
    ensures { result ≡ observe world.now.header moment world.now.world (network.At host (network.Drops line)) }
{
    let Some(m) = world.waiting(host, line) else {
        return unseen();
    };
    world.is_kept();
    let body = world.body(host);
    let processing = admits_processing(world, moment, host, line);
    let answering = admits_answering(world, host, line);
    let (version, target) = (world.header().version, target_of(body, m));
    let droppable = droppable_by(version, body, m, target);
    let old = is_old(version, body, m, target);
    Observation {
        touched: at_drop(version, host, body, m, processing, target),
        inbox_change: InboxChange::Leaves(line),
        dropping: Some(dropping_of(host, processing, answering, droppable, old)),
        earns: earns_by_dropping(version, body, m, processing, target),
        syn_change: syn_dropped(version, body, m, target),
        stamps: stamps_read(version, m.bytes.as_slice()),
        arrival: arrival_at(version, body, m, target),
        ..unseen()
    }
}

/// A host processes what waits under this line.
#[tactic(auto, using(crate::proofs::PlaceLemmas::places_fit, endpoint_state::proofs::Readable::kept_reads))]
#[inline(always)]
pub(crate) fn observe_taking(
    world: &World,
    host: Host,
    line: u64,
    how: TakeChoice,
    moment: u64,
) -> Observation
    requires { world.now.steps < most_steps }
    ensures { result ≡ observe world.now.header moment world.now.world (network.At host (network.Takes line how)) }
{
    let Some(m) = world.waiting(host, line) else {
        return unseen();
    };
    world.is_kept();
    let body = world.body(host);
    let (version, target) = (world.header().version, target_of(body, m));
    Observation {
        touched: at_target(host, body, m, target),
        inbox_change: InboxChange::Leaves(line),
        discards: discards_at(version, body, how, m, target),
        sampling: sampling_at(version, body, how, m, target),
        earns: earns_by_taking(version, body, m, target),
        syn_change: syn_taken(version, body, m, target),
        blocks: blocks_taken(version, body, m, target),
        kept: kept_at(version, body, how, m, target),
        stamps: stamps_read(version, m.bytes.as_slice()),
        arrival: arrival_at(version, body, m, target),
        ..unseen()
    }
}

/// A host builds a segment.
#[inline(always)]
pub(crate) fn observe_making(
    world: &World,
    host: Host,
    plan: &SegmentPlan,
    moment: u64,
) -> Observation
    requires { world.now.steps < most_steps }
    ensures { result ≡ observe world.now.header moment world.now.world (network.At host (network.Makes plan.now)) }
{
    let event = Event::Builds(*plan);
    Observation {
        touched: at_ports(host, world.body(host), event, plan.lport, plan.rport),
        built_change: BuiltChange::Builds(fresh(world)),
        acked: acked_at_ports(world.header().version, world.body(host), plan, moment),
        ..unseen()
    }
}

// A host answers by a reset what waits under this line.
#[inline(always)]
fn observe_reset(world: &World, host: Host, line: u64, moment: u64) -> Observation
    requires { world.now.steps < most_steps }
    ensures { result ≡ observe world.now.header moment world.now.world (network.At host (network.Answers line)) }
{
    Observation {
        inbox_change: InboxChange::Leaves(line),
        built_change: BuiltChange::Builds(fresh(world)),
        ..unseen()
    }
}

// The number of the next segment to be built.
#[tactic(auto, using(crate::proofs::PlaceLemmas::count_fits))]
#[inline(always)]
fn fresh(world: &World) -> u32
    requires { world.now.steps < most_steps }
    ensures { result ≡ suc world.now.world.count }
{
    world.is_kept();
    world.count() + 1
}

/// A host sends the segment that it built under this number, and its line shows it like this.
#[inline(always)]
pub(crate) fn observe_sending(world: &World, host: Host, number: u32, wire: &Wire) -> Observation
    ensures { result ≡ on (lookup (nat_eq number) (pick world.now.world.hosts host).made) unseen
        (λ m. record unseen {
          touched = at_sender host (pick world.now.world.hosts host).body wire.now m.emission;
          built_change = built_change.Sends number;
          syn_change = syn_sent world.now.header.version m.emission wire.now.bytes;
          stamps = stamps_read world.now.header.version wire.now.bytes;
          acked = acked_sent world.now.header.version wire.now m.emission;
        }) }
{
    match world.made(host, number) {
        Some(made) => Observation {
            touched: at_sender(host, world.body(host), wire, made.emission()),
            built_change: BuiltChange::Sends(number),
            syn_change: syn_sent(world.header().version, made.emission(), &wire.bytes),
            stamps: stamps_read(world.header().version, wire.bytes.as_slice()),
            acked: acked_sent(world.header().version, wire, made.emission()),
            ..unseen()
        },
        None => unseen(),
    }
}

#[inline(always)]
fn observe_arrival(line: u64) -> Observation
    ensures { result ≡ record unseen { inbox_change = inbox_change.Enters line } }
{
    Observation {
        inbox_change: InboxChange::Enters(line),
        ..unseen()
    }
}

#[inline(always)]
fn observe_at_ports(world: &World, host: Host, event: Event, ports: Ports) -> Observation
    ensures { result ≡ touching (at_ports host (pick world.now.world.hosts host).body event ports.lport ports.rport) }
{
    touching(at_ports(host, world.body(host), event, ports.lport, ports.rport))
}

/// What duties read of the world at a step that takes a line.
pub fn observe_line(world: &World, moment: u64, line: &TakenLine) -> Observation
    ensures { result ≡ observe world.now.header moment world.now.world (line_step line.now) }
{
    match line {
        TakenLine::CallBegin { thread, call, .. } => observe_begin(world.header(), *thread, call),
        TakenLine::CallEnd { thread, .. } => observe_end(world.header(), *thread),
        TakenLine::Sent {
            host,
            made,
            wire,
            ..
        } => observe_sending(world, *host, *made, wire),
        TakenLine::Came { line, .. } | TakenLine::Heard { line, .. } => observe_arrival(*line),
        TakenLine::Expired {
            host,
            ports,
            expired,
            ..
        } => observe_at_ports(world, *host, Event::Expires(expired.timer()), *ports),
    }
}

/// What duties read of the world at a step that takes none.
pub fn observe_hidden(world: &World, moment: u64, step: &Hidden<'_>) -> Observation
    requires { world.now.steps < most_steps }
    ensures { result ≡ observe world.now.header moment world.now.world (step_hidden step.now) }
{
    match *step {
        Hidden::Effect { thread, answer } => observe_effect(world, moment, thread, answer),
        Hidden::Build { host, plan } => observe_making(world, host, plan, moment),
        Hidden::Process { host, line, choice } => {
            observe_taking(world, host, line, choice, moment)
        }
        Hidden::Drop { host, line } => observe_drop(world, host, line, moment),
        Hidden::Reset { host, line } => observe_reset(world, host, line, moment),
        Hidden::Recover { host, recovery } => {
            let ports = Ports {
                lport: recovery.lport,
                rport: recovery.rport,
            };
            observe_at_ports(world, host, Event::Recovers(recovery.change), ports)
        }
    }
}

/// The endpoint that a step touched, as it is in this world.
#[inline(always)]
pub fn view_in(world: &World, touched: &Option<TouchedEndpoint>) -> View
    ensures { result ≡ view_in world.now.world touched.now }
{
    match touched {
        Some(touched) => match world.body(touched.host).endpoint_at(touched.place) {
            Some(endpoint) => view_of(endpoint),
            None => unborn(),
        },
        None => unborn(),
    }
}
