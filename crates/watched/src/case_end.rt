//! The comparison after the last step.

ghost use Rattle.std.specs.Prelude.{◌≡◌, ◌≤◌, length, slice_get};
ghost use Rattle.std.specs.Option.{option_map_or};
ghost use Rattle.spec_network.specs.Tables.{pick};
ghost use Rattle.spec_tcp.specs.Bounds.{most_steps};
ghost use Rattle.case_forms.specs.declared.trace.Header.{Header};
ghost use Rattle.spec_duties.specs.Answering.{any_call, is_unanswered_late, owed_at_end};
ghost use Rattle.spec_duties.specs.declared.answering.OpenCall.TheVariants as open_call;
ghost use Rattle.spec_duties.specs.End.{any_unsent, either, first_waiting, is_brought_late, is_send_late};
ghost use Rattle.spec_duties.specs.End.{late_at_end, lates_at, lates_of_all, lates_of_host};

use crate::waiting::waiting_on;
use case_forms::{Header, Host};
use duties::{
    Duties, acknowledge_due, admits_lates, answer_due, either, is_late, is_late_at_once, none_late,
    unanswered_since, view_of, with_brought,
};
use endpoint_state::{Endpoint, HostTcp, World};
use spec_duties::{Awaited, Lates, OpenCall, Unsent};
use spec_tcp::EndpointId;
use verdict::Rule;

// The line of the first segment that came and still waits too long.
fn first_waiting(slack: u64, moment: u64, inbox: &[(u64, Option<u64>)]) -> Option<u64>
    ensures { result ≡ first_waiting slack moment inbox.now }
{
    for entry in inbox {
        if is_late_at_once(slack, moment, entry.1) {
            return Some(entry.0);
        }
    }
    None
}

// Whether a segment that was built and not sent is late.
fn is_send_late(slack: u64, moment: u64, unsent: &Unsent) -> bool
    ensures { result ≡ is_send_late slack moment unsent.now }
{
    !unsent.spared && is_late_at_once(slack, moment, Some(unsent.since))
}

// Whether such a segment is late with the acknowledgment that it brings.
fn is_brought_late(slack: u64, moment: u64, unsent: &Unsent) -> bool
    ensures { result ≡ is_brought_late slack moment unsent.now }
{
    is_late(slack, moment, acknowledge_due(unsent.acknowledge))
}

// Whether a segment was built and not sent, and is late.
fn is_any_send_late(slack: u64, moment: u64, unsent: &[(u64, Option<Unsent>)]) -> bool
    ensures { result ≡ any_unsent (is_send_late slack moment) unsent.now }
{
    for entry in unsent {
        if let Some(unsent) = &entry.1 {
            if is_send_late(slack, moment, unsent) {
                return true;
            }
        }
    }
    false
}

// Whether one was, and is late with the acknowledgment that it brings.
fn is_any_brought_late(slack: u64, moment: u64, unsent: &[(u64, Option<Unsent>)]) -> bool
    ensures { result ≡ any_unsent (is_brought_late slack moment) unsent.now }
{
    for entry in unsent {
        if let Some(unsent) = &entry.1 {
            if is_brought_late(slack, moment, unsent) {
                return true;
            }
        }
    }
    false
}

/// When the comparison is made: the moment of the last step, with the slack, and what the header says. Times are in
/// microseconds.
#[derive(Clone, Copy)]
struct End<'a> {
    header: &'a Header,
    slack: u64,
    moment: u64,
}

// What the endpoint at a place owes and is late with.
fn lates_at(at: End<'_>, duties: &Duties, host: Host, place: u32, endpoint: &Endpoint) -> Lates
    ensures { result ≡ lates_at at.entry.header.now at.entry.slack at.entry.moment duties.now host place endpoint.now }
{
    let id = EndpointId {
        host,
        number: place,
    };
    let view = view_of(endpoint);
    duties.judged_lates(at.header, at.slack, at.moment, None, id, &view)
}

// What the endpoints of a host owe and are late with, beside what was found so far.
#[tactic(auto, using(crate::proofs::EndLemmas::lates_next, crate::proofs::EndLemmas::lates_done))]
fn lates_of_host(at: End<'_>, duties: &Duties, world: &World, host: Host, so_far: Lates) -> Lates
    requires { world.now.steps ≤ most_steps }
    ensures { result ≡ lates_of_host at.entry.header.now at.entry.slack at.entry.moment duties.now world.now.world host
        so_far }
{
    let body = world.body(host);
    let mut lates = so_far;
    for place in 0..places(world, host) {
        lates = lates_with(at, duties, host, body, place, lates);
    }
    lates
}

// The same with the endpoint at a place.
fn lates_with(
    at: End<'_>,
    duties: &Duties,
    host: Host,
    body: &HostTcp,
    place: u32,
    so_far: Lates,
) -> Lates
    ensures { result ≡ option_map_or
        (λ e. either so_far (lates_at at.entry.header.now at.entry.slack at.entry.moment duties.now host place e))
        (slice_get body.now.endpoints place) so_far }
{
    match body.endpoint_at(place) {
        Some(endpoint) => {
            let found = lates_at(at, duties, host, place, endpoint);
            either(so_far, found)
        }
        None => so_far,
    }
}

// How many endpoints a host has.
#[tactic(auto, using(crate::proofs::PlaceLemmas::places_fit))]
pub(crate) fn places(world: &World, host: Host) -> u32
    requires { world.now.steps ≤ most_steps }
    ensures { result ≡ length (pick world.now.world.hosts host).body.endpoints }
{
    world.is_kept();
    world.body(host).endpoint_count() as u32
}

// What endpoints owe and are late with.
fn lates_of_all(at: End<'_>, duties: &Duties, world: &World) -> Lates
    requires { world.now.steps ≤ most_steps }
    ensures { result ≡ lates_of_all at.entry.header.now at.entry.slack at.entry.moment duties.now world.now.world }
{
    let zero = lates_of_host(at, duties, world, Host::Zero, none_late(false));
    lates_of_host(at, duties, world, Host::One, zero)
}

// Since when an answer is owed to a call without one.
fn waits_since(
    world: &World,
    duties: &Duties,
    since: u64,
    awaited: Awaited,
    socket: u32,
) -> Option<u64>
    ensures { (h : Header) → result
        ≡ owed_at_end h world.now.world duties.now.waits (open_call.Waits since socket awaited) }
{
    let call = OpenCall::Waits {
        since,
        socket,
        awaited,
    };
    match waiting_on(world, awaited, socket) {
        Some(waiting) => unanswered_since(duties.ready_for(waiting), call),
        None => None,
    }
}

// Since when one is owed to a call.
fn owed_at_end(world: &World, duties: &Duties, call: OpenCall) -> Option<u64>
    ensures { (h : Header) → result ≡ owed_at_end h world.now.world duties.now.waits call }
{
    match call {
        OpenCall::Waits {
            since,
            socket,
            awaited,
        } => waits_since(world, duties, since, awaited, socket),
        OpenCall::Answered { .. } => duties.answered_since(call),
    }
}

// Whether an answer is late to a call.
fn is_unanswered_late(at: End<'_>, duties: &Duties, world: &World, call: OpenCall) -> bool
    ensures { result ≡ is_unanswered_late at.entry.header.now at.entry.slack at.entry.moment world.now.world
        duties.now.waits call }
{
    let due = answer_due(owed_at_end(world, duties, call));
    is_late(at.slack, at.moment, due)
}

// Whether one is to any call.
fn is_any_answer_late(
    at: End<'_>,
    duties: &Duties,
    world: &World,
    calls: &[(u64, Option<OpenCall>)],
) -> bool
    ensures { result ≡ any_call
        (is_unanswered_late at.entry.header.now at.entry.slack at.entry.moment world.now.world duties.now.waits)
        calls.now }
{
    for entry in calls {
        if let Some(call) = &entry.1 {
            if is_unanswered_late(at, duties, world, *call) {
                return true;
            }
        }
    }
    false
}

/// The least rule that a duty breaks at the end, if the last step was at this moment, with its line: that of a segment
/// that still waits, else 0. The slack and moments are in microseconds. None: no duty is late.
pub fn late_at_end(
    header: &Header,
    slack: u64,
    moment: u64,
    duties: &Duties,
    world: &World,
) -> Option<(u64, Rule)>
    requires { world.now.steps ≤ most_steps }
    ensures { result ≡ late_at_end header.now slack moment duties.now world.now.world }
{
    if let Some(line) = first_waiting(slack, moment, duties.inbox()) {
        return Some((line, Rule::ProcessLate));
    }
    if is_any_send_late(slack, moment, duties.unsent()) {
        return Some((0, Rule::SendLate));
    }
    let at = End {
        header,
        slack,
        moment,
    };
    let brought = is_any_brought_late(slack, moment, duties.unsent());
    if let Err(rule) = admits_lates(with_brought(brought, lates_of_all(at, duties, world))) {
        return Some((0, rule));
    }
    if is_any_answer_late(at, duties, world, duties.open_calls()) {
        return Some((0, Rule::AnswerLate));
    }
    None
}
