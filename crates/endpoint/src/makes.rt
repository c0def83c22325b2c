//! A segment is built (RFC 9293, 3.8 and 3.10): all rules in their order, and the endpoint afterwards.
//!
//! - `kind`: which kinds of segments a state may send
//! - `payload`: the bytes of a segment, and where they begin
//! - `edges`: its acknowledgment, and the windows in which its bytes end

ghost use Rattle.endpoint.specs.Small.{IsSmall};
ghost use Rattle.spec_tcp.specs.Bounds.{IsSmallEmission, greatest_position};
ghost use Rattle.spec_tcp.specs.Makes.{making_rules, emission_of, after_making, timed, endpoint_made};
ghost use Rattle.std.specs.Prelude.{◌≡◌, IfOk, OnOk, OnErr, ◌≤◌};
ghost use Rattle.std.specs.Result.{result_err};
ghost use Rattle.verdict.specs.Rules.{first_broken};

pub(crate) mod edges;
pub(crate) mod kind;
pub(crate) mod payload;

use crate::makes::edges::{
    acknowledgment, is_bad_ack, is_beyond_offer, is_congesting, own_edge, raised_at,
};
use crate::makes::kind::{
    close_after_reset, given_shift, is_bad_iss, makes_nothing, may_make, seq_of,
};
use crate::makes::payload::{has_new_bytes, is_bad_payload, is_bad_place, making_length};
use case_forms::{SegmentPlan, Timer, Version};
use segment::{Bytes, OutOfMemory};
use spec_tcp::{Emission, Endpoint, EndpointId};
use std::alloc::Global;
use timer_rules::Timers;
use verdict::Rule;

/// Whether an endpoint may build a segment, in a text of this version; the error is the first rule that it breaks, in
/// the order of `Rule`.
pub fn admits_making(
    version: Version,
    endpoint: &Endpoint,
    making: &SegmentPlan,
) -> Result<(), Rule>
    requires { IsSmall endpoint.now making.now }
    ensures { result_err result ≡ first_broken (making_rules version endpoint.now making.now) }
{
    if makes_nothing(endpoint, making) {
        return Err(Rule::NoEndpoint);
    }
    if !may_make(endpoint, making) {
        return Err(Rule::State);
    }
    if is_bad_iss(endpoint, making) {
        return Err(Rule::Iss);
    }
    if is_bad_payload(endpoint, making) {
        return Err(Rule::PayloadRange);
    }
    if is_bad_ack(endpoint, making) {
        return Err(Rule::AckField);
    }
    if is_bad_place(version, endpoint, making) {
        return Err(Rule::OldData);
    }
    if is_beyond_offer(endpoint, making) {
        return Err(Rule::Offered);
    }
    if is_congesting(endpoint, making) {
        return Err(Rule::Congestion);
    }
    if endpoint.control.values.smss < making.len as u32 {
        return Err(Rule::Size);
    }
    Ok(())
}

/// Builds a segment at the endpoint with this identity, at a moment in microseconds. If memory runs out, the endpoint
/// doesn't change. The segment is not tested here: `admits_making` says whether it may be built.
pub fn make(
    alloc: Global,
    endpoint: &mut Endpoint,
    me: EndpointId,
    making: &SegmentPlan,
    moment: u64,
) -> Result<Emission, OutOfMemory>
    requires { IsSmall endpoint.old making.now }
    ensures made { IfOk result (λ m. m ≡ emission_of me endpoint.old making.now moment) }
    ensures small { IfOk result IsSmallEmission }
    ensures ok { OnOk result (endpoint.new ≡ after_making endpoint.old making.now moment) }
    ensures err { OnErr result (endpoint.new ≡ endpoint.old) }
{
    let emission = emission_of(alloc, endpoint, me, making, moment)?;
    change(endpoint, making, moment)?;
    if making.flags.rst {
        close_after_reset(endpoint);
    }
    Ok(emission)
}

fn emission_of(
    alloc: Global,
    endpoint: &Endpoint,
    me: EndpointId,
    making: &SegmentPlan,
    moment: u64,
) -> Result<Emission, OutOfMemory>
    requires { making.now.pos ≤ greatest_position }
    ensures made { IfOk result (λ m. m ≡ emission_of me endpoint.now making.now moment) }
    ensures small { IfOk result IsSmallEmission }
{
    let payload = endpoint
        .stream
        .accepted
        .piece(alloc, making.pos, making.len as usize)?;
    let (ack, ack_seq) = acknowledgment(endpoint, making);
    Ok(Emission {
        sender: me,
        peer_at_send: endpoint.stream.peer,
        lport: making.lport,
        rport: making.rport,
        pos: making.pos,
        ack,
        seq: seq_of(endpoint.iss.or(making.iss), making.pos),
        ack_seq,
        raised: raised_at(endpoint, making, moment),
        flags: making.flags,
        window: making.window,
        payload: Bytes::from(payload),
        shift: given_shift(endpoint, making),
        scaled: endpoint.is_scaling(),
        is_reset_reply: false,
        bytes: Bytes::from(Vec::new(alloc)),
        mss: None,
        scale: None,
        moment: 0,
    })
}

// The endpoint afterwards, except for a reset.
fn change(endpoint: &mut Endpoint, making: &SegmentPlan, moment: u64) -> Result<(), OutOfMemory>
    requires { IsSmall endpoint.old making.now }
    ensures ok { OnOk result (endpoint.new ≡ endpoint_made endpoint.old making.now moment) }
    ensures err { OnErr result (endpoint.new ≡ endpoint.old) }
{
    let edge = own_edge(endpoint, making);
    let probe_due = endpoint.probe_due && !has_new_bytes(endpoint, making);
    let iss = endpoint.iss.or(making.iss);
    let shift = given_shift(endpoint, making);
    let timers = timed(endpoint.timers, making, moment);
    let length = making_length(making);
    endpoint.transmissions.make(making.pos, length, moment)?;
    endpoint.iss = iss;
    endpoint.shift = shift;
    endpoint.window.rcv_adv = edge;
    endpoint.probe_due = probe_due;
    endpoint.timers = timers;
    Ok(())
}

fn timed(timers: Timers, making: &SegmentPlan, moment: u64) -> Timers
    ensures { result ≡ timed timers making.now moment }
{
    let mut timers = timers;
    if 0 < making_length(making) && timers.rto_armed.is_none() {
        timers.arm(Timer::Rto, moment);
    }
    timers
}
