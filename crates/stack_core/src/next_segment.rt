//! What a core makes next.

ghost use Rattle.std.specs.Prelude.{◌≡◌, ◌<◌, ◌≤◌, ◌^◌, true, false, length, slice_get, IfNone, None, Some};
ghost use Rattle.std.specs.List.{All};
ghost use Rattle.std.specs.Option.{IfSome};
ghost use Rattle.spec_network.specs.Tables.{pick};
ghost use Rattle.streams.specs.Sent.{end_of};
ghost use Rattle.spec_tcp.specs.Bounds.{greatest_position, most_steps};
ghost use Rattle.spec_tcp.specs.Endpoints.{snd_max};
ghost use Rattle.stack_core.specs.Outgoing.{greatest_payload};
ghost use Rattle.verdict.specs.Rules.{first_broken};
ghost use Rattle.spec_tcp.specs.declared.endpoint.Endpoint.{Endpoint};
ghost use Rattle.spec_tcp.specs.Makes.{making_rules};
ghost use Rattle.endpoint_state.specs.Kept.{AreReadable};
ghost use Rattle.stack_core.specs.Makings.{IsMakeable, IsSynRefused, IsTried, NothingToMake, Refuses, fin_of, syn_of};
ghost use Rattle.stack_core.specs.Tended.{AreQuiet, IsQuiet};
ghost use Rattle.stack_core.specs.Told.{MayOpen, TellsWell};

use crate::deadline_queue::DeadlineQueue;
use crate::plans::{
    AdvertisedWindow, GREATEST_PAYLOAD, SynOptions, byte_of, candidate_segments, fin_of, offer_of,
    syn_of,
};
use crate::send_states::SendStates;
use case_forms::{GREATEST_POSITION, Host, SegmentPlan, Version};
use endpoint::admits_making;
use endpoint_state::{Endpoint, HostTcp, World};
use recording_parts::{GREATEST_SHIFT, plan_if};

/// A segment that may be made: at an endpoint whose duties are listed, or else at any endpoint where one may be made
/// that takes new positions. None: no segment without RST that takes new positions may be made.
pub(crate) fn find_plan(
    world: &World,
    me: Host,
    send_states: &mut SendStates,
    ready: &mut DeadlineQueue,
    opening: SynOptions,
    ring: u16,
) -> Option<SegmentPlan>
    requires steps { world.now.steps < most_steps }
    requires quiet { AreQuiet ready.old.looked ready.old.entries.keys (pick world.now.world.hosts me).body.endpoints }
    ensures some { IfSome result (λ m. IsMakeable world.now.header me world.now.world m) }
    ensures none { IfNone result (NothingToMake world.now.header me world.now.world) }
    ensures quiet { AreQuiet ready.new.looked ready.new.entries.keys (pick world.now.world.hosts me).body.endpoints }
{
    match find_listed(world, me, send_states, opening, ring) {
        Some(plan) => Some(plan),
        None => find_ready(world, me, send_states, ready, opening, ring),
    }
}

// A segment that may be made, at an endpoint that is to be visited; the others make nothing that takes new positions.
// None: no segment without RST that takes new positions may be made.
fn find_ready(
    world: &World,
    me: Host,
    send_states: &SendStates,
    ready: &mut DeadlineQueue,
    opening: SynOptions,
    ring: u16,
) -> Option<SegmentPlan>
    requires steps { world.now.steps < most_steps }
    requires quiet { AreQuiet ready.old.looked ready.old.entries.keys (pick world.now.world.hosts me).body.endpoints }
    ensures some { IfSome result (λ m. IsMakeable world.now.header me world.now.world m) }
    ensures none { IfNone result (NothingToMake world.now.header me world.now.world) }
    ensures quiet { AreQuiet ready.new.looked ready.new.entries.keys (pick world.now.world.hosts me).body.endpoints }
{
    world.is_kept();
    if ready.list_new(world.body(me)) {
        return find_among(world, me, send_states, ready, opening, ring);
    }
    find_making(world, me, send_states, opening, ring)
}

// The same, if each endpoint was visited or is to be. Those that make nothing are passed over.
fn find_among(
    world: &World,
    me: Host,
    send_states: &SendStates,
    ready: &mut DeadlineQueue,
    opening: SynOptions,
    ring: u16,
) -> Option<SegmentPlan>
    requires steps { world.now.steps < most_steps }
    requires all { length (pick world.now.world.hosts me).body.endpoints ≤ ready.old.looked }
    requires quiet { AreQuiet ready.old.looked ready.old.entries.keys (pick world.now.world.hosts me).body.endpoints }
    ensures some { IfSome result (λ m. IsMakeable world.now.header me world.now.world m) }
    ensures none { IfNone result (NothingToMake world.now.header me world.now.world) }
    ensures quiet { AreQuiet ready.new.looked ready.new.entries.keys (pick world.now.world.hosts me).body.endpoints }
{
    world.is_kept();
    let version = world.header().version;
    let body = world.body(me);
    while let Some(wake) = ready.first() {
        if is_quiet_at(version, body, wake.place, opening) {
            ready.leave();
        } else {
            return make_at(world, me, send_states, wake.place, opening, ring);
        }
    }
    None
}

// A segment that may be made at the endpoint at this place; none may if a newer endpoint has its ports. None: no
// segment without RST that takes new positions may be made.
#[tactic(auto, using(crate::proofs::MakingLemmas::short_host))]
fn make_at(
    world: &World,
    me: Host,
    send_states: &SendStates,
    place: u32,
    opening: SynOptions,
    ring: u16,
) -> Option<SegmentPlan>
    requires steps { world.now.steps < most_steps }
    ensures some { IfSome result (λ m. IsMakeable world.now.header me world.now.world m) }
    ensures none { IfNone result (NothingToMake world.now.header me world.now.world) }
{
    if let Some(plan) = wish_at(world, me, send_states, place, opening, ring) {
        return Some(plan);
    }
    world.is_kept();
    if let Some(endpoint) = world.body(me).endpoint_at(place) {
        let offer = offer_of(
            world.header().version,
            endpoint,
            send_states.at(place),
            opening,
            ring,
        );
        if let Some(plan) = try_endpoint(world, me, endpoint, offer) {
            return Some(plan);
        }
    }
    find_making(world, me, send_states, opening, ring)
}

// Whether the endpoint at a place makes nothing without RST that takes new positions.
fn is_quiet_at(version: Version, body: &HostTcp, place: u32, opening: SynOptions) -> bool
    requires { AreReadable body.now.endpoints }
    ensures { result ≡ true → (e : Endpoint) → slice_get body.now.endpoints place ≡ Some e → IsQuiet e }
{
    match body.endpoint_at(place) {
        Some(endpoint) => is_quiet(version, endpoint, opening),
        None => true,
    }
}

// Whether an endpoint makes nothing without RST that takes new positions: neither its SYN, nor a new byte, nor its FIN.
// Beyond the greatest position it may be false of one that makes nothing.
fn is_quiet(version: Version, endpoint: &Endpoint, opening: SynOptions) -> bool
    requires { endpoint.now.stream.snd_una < 2 ^ 63 }
    ensures { result ≡ true → IsQuiet endpoint.now }
{
    if GREATEST_POSITION < endpoint.snd_max() {
        return false;
    }
    if may_begin(version, endpoint, opening) {
        return false;
    }
    if may_make(version, endpoint, byte_of(endpoint, 0)) {
        return false;
    }
    if may_make(version, endpoint, fin_of(endpoint, 0)) {
        return false;
    }
    true
}

// Whether it may make its SYN, if nothing was made before.
fn may_begin(version: Version, endpoint: &Endpoint, opening: SynOptions) -> bool
    requires { endpoint.now.stream.snd_una < 2 ^ 63 }
    ensures { result ≡ false → snd_max endpoint.now ≤ 0
        → first_broken (making_rules version endpoint.now (syn_of endpoint.now opening 0)) ≡ None → ⊥ }
{
    if 0 < endpoint.snd_max() {
        return false;
    }
    may_make(version, endpoint, syn_of(endpoint, opening, 0))
}

fn may_make(version: Version, endpoint: &Endpoint, plan: SegmentPlan) -> bool
    requires readable { endpoint.now.stream.snd_una < 2 ^ 63 }
    requires small { plan.pos ≤ greatest_position }
    ensures { result ≡ false → first_broken (making_rules version endpoint.now plan) ≡ None → ⊥ }
{
    admits_making(version, endpoint, &plan).is_ok()
}

// What a core would make, and may, at an endpoint that is listed. None: nothing at any of these.
fn find_listed(
    world: &World,
    me: Host,
    send_states: &mut SendStates,
    opening: SynOptions,
    ring: u16,
) -> Option<SegmentPlan>
    requires steps { world.now.steps < most_steps }
    ensures { IfSome result (λ m. IsMakeable world.now.header me world.now.world m) }
{
    for _ in 0..send_states.count() {
        let place = send_states.first()?;
        if let Some(plan) = wish_at(world, me, send_states, place, opening, ring) {
            return Some(plan);
        }
        send_states.leave();
    }
    None
}

// What a core would make, and may, at the endpoint at a place. None: nothing, or a newer endpoint has its ports.
fn wish_at(
    world: &World,
    me: Host,
    send_states: &SendStates,
    place: u32,
    opening: SynOptions,
    ring: u16,
) -> Option<SegmentPlan>
    requires steps { world.now.steps < most_steps }
    ensures { IfSome result (λ m. IsMakeable world.now.header me world.now.world m) }
{
    let body = world.body(me);
    let endpoint = body.endpoint_at(place)?;
    if body.place_of(endpoint.lport, endpoint.rport) != Some(place) {
        return None;
    }
    let send_state = send_states.at(place);
    let offer = offer_of(world.header().version, endpoint, send_state, opening, ring);
    try_candidates(world, me, &candidate_segments(endpoint, send_state, offer))
}

// Whether a text can state that this is made: its position, its payload, and its shift.
fn can_be_told(version: Version, plan: &SegmentPlan) -> bool
    ensures small { result ≡ true → plan.now.pos ≤ greatest_position }
    ensures short { result ≡ true → plan.now.len ≤ greatest_payload }
    ensures told { result ≡ true → TellsWell version plan.now }
{
    let tells = match plan.shift {
        Some(shift) => version.scales() && plan.iss.is_some() && shift <= GREATEST_SHIFT,
        None => true,
    };
    tells && plan.pos <= GREATEST_POSITION && plan.len <= GREATEST_PAYLOAD
}

// The first of these that may be made.
fn try_candidates(
    world: &World,
    me: Host,
    candidate_segments: &[Option<SegmentPlan>],
) -> Option<SegmentPlan>
    requires steps { world.now.steps < most_steps }
    ensures { IfSome result (λ m. IsMakeable world.now.header me world.now.world m) }
{
    for wish in candidate_segments {
        if let Some(plan) = wish {
            if can_be_told(world.header().version, plan) {
                if let Some(plan) = ask(world, me, *plan) {
                    return Some(plan);
                }
            }
        }
    }
    None
}

// A segment that may be made, at any endpoint. This goes over all of them, for the case that memory ran out for the
// list of those to visit. None: no segment without RST that takes new positions may be made.
#[tactic(auto, using(crate::proofs::MakingLemmas::short_host))]
fn find_making(
    world: &World,
    me: Host,
    send_states: &SendStates,
    opening: SynOptions,
    ring: u16,
) -> Option<SegmentPlan>
    requires steps { world.now.steps < most_steps }
    ensures some { IfSome result (λ m. IsMakeable world.now.header me world.now.world m) }
    ensures none { IfNone result (NothingToMake world.now.header me world.now.world) }
{
    world.is_kept();
    let body = world.body(me);
    let mut place = 0u32;
    while let Some(endpoint) = body.endpoint_at(place) {
        if let Some(plan) = wish_at(world, me, send_states, place, opening, ring) {
            return Some(plan);
        }
        let offer = offer_of(
            world.header().version,
            endpoint,
            send_states.at(place),
            opening,
            ring,
        );
        if let Some(plan) = try_endpoint(world, me, endpoint, offer) {
            return Some(plan);
        }
        place += 1;
    }
    None
}

// One of the three that may be made for an endpoint.
#[tactic(auto, using(crate::proofs::MakingLemmas::tried_far))]
fn try_endpoint(
    world: &World,
    me: Host,
    endpoint: &Endpoint,
    offer: AdvertisedWindow,
) -> Option<SegmentPlan>
    requires steps { world.now.steps < most_steps }
    requires short { All (λ e. end_of e.stream.accepted ≤ greatest_position)
        (pick world.now.world.hosts me).body.endpoints }
    requires opening { MayOpen world.now.header.version offer.opening }
    ensures some { IfSome result (λ m. IsMakeable world.now.header me world.now.world m) }
    ensures none { IfNone result (IsTried world.now.header me world.now.world endpoint.now) }
{
    if let Some(plan) = try_syn(world, me, endpoint, offer) {
        return Some(plan);
    }
    // Above the greatest position there is no accepted byte, and no end after one.
    if GREATEST_POSITION < endpoint.snd_max() {
        return None;
    }
    if let Some(plan) = ask(world, me, byte_of(endpoint, offer.window)) {
        return Some(plan);
    }
    ask(world, me, fin_of(endpoint, offer.window))
}

// The SYN, if nothing was made before and it may be made.
#[tactic(auto, using(crate::proofs::MakingLemmas::syn_tells))]
fn try_syn(
    world: &World,
    me: Host,
    endpoint: &Endpoint,
    offer: AdvertisedWindow,
) -> Option<SegmentPlan>
    requires steps { world.now.steps < most_steps }
    requires opening { MayOpen world.now.header.version offer.opening }
    ensures some { IfSome result (λ m. IsMakeable world.now.header me world.now.world m) }
    ensures none { IfNone result
        (IsSynRefused world.now.header me world.now.world endpoint.now offer.opening offer.at_syn) }
{
    if 0 < endpoint.snd_max() {
        return None;
    }
    ask(world, me, syn_of(endpoint, offer.opening, offer.at_syn))
}

// The segment, if it may be made.
fn ask(world: &World, me: Host, plan: SegmentPlan) -> Option<SegmentPlan>
    requires steps { world.now.steps < most_steps }
    requires small { plan.pos ≤ greatest_position }
    requires short { plan.len ≤ greatest_payload }
    requires told { TellsWell world.now.header.version plan }
    ensures some { IfSome result (λ m. IsMakeable world.now.header me world.now.world m) }
    ensures none { IfNone result (Refuses world.now.header me world.now.world plan) }
{
    let may = world.admits_making(me, &plan).is_ok();
    plan_if(may, plan)
}
