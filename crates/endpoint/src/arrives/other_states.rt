//! A segment arrives in any other state (RFC 9293, 3.10.7.4).
//!
//! In the order of the RFC: `sequence` (first, and fourth: a SYN), `reset` (second), `ack` (fifth), `text` (seventh),
//! `fin` (eighth); the third and the sixth, security and urgent data, aren't modelled. The others are `peer`: whose
//! segment it is; and `timers`, `window`: their values afterwards.

ghost use Rattle.spec_tcp.specs.Arrives.OtherStates.{taken, rules_with_queue};
ghost use Rattle.spec_tcp.specs.Bounds.{HasRoom, IsSmallEmission};
ghost use Rattle.spec_tcp.specs.Endpoints.{rcv_nxt};
ghost use Rattle.spec_tcp.specs.Forgetting.{forget_endpoint};
ghost use Rattle.std.specs.Prelude.{◌≡◌, ◌≤◌, OnOk, OnErr};
ghost use Rattle.std.specs.Result.{result_err};
ghost use Rattle.verdict.specs.Rules.{first_broken};

pub(crate) mod ack;
pub(crate) mod fin;
pub(crate) mod peer;
pub(crate) mod reset;
pub(crate) mod sequence;
pub(crate) mod text;
pub(crate) mod timers;
pub(crate) mod window;

use crate::arrives::other_states::ack::{
    acknowledged, backoffs_after_segment, is_bad_ack_range, may_sample, recover_after_segment,
    snd_una_after_segment,
};
use crate::arrives::other_states::fin::finished;
use crate::arrives::other_states::peer::is_from_peer;
use crate::arrives::other_states::sequence::{is_acceptable, is_bad_number};
use crate::arrives::other_states::text::{receive, text_raised};
use crate::arrives::other_states::timers::{state_timers, timers_before};
use crate::arrives::other_states::window::{
    is_unread, probe_due_after_segment, window_after_segment,
};
use crate::signals::{control_taken, greatest_taking};
use case_forms::{Header, TakeChoice};
use segment::OutOfMemory;
use spec_tcp::{Arrived, Endpoint, EndpointId};
use verdict::Rule;

/// Whether an endpoint in any other state but CLOSED may process the segment (RFC 9293, 3.10.7.4). `full`: it is a
/// child that would join a full queue. The error is the first rule that is broken.
pub fn admits_connected(
    header: &Header,
    full: bool,
    me: EndpointId,
    endpoint: &Endpoint,
    how: TakeChoice,
    m: &Arrived<'_>,
    moment: u64,
) -> Result<(), Rule>
    ensures { result_err result ≡ first_broken (rules_with_queue header.now full me endpoint.now how m.now moment) }
{
    if !header.version.is_half() && !is_from_peer(me, endpoint, m) {
        return Err(Rule::NotPeer);
    }
    if is_bad_number(endpoint, m) {
        return Err(Rule::Number);
    }
    if !is_acceptable(endpoint, m) {
        return Err(Rule::Unacceptable);
    }
    if is_bad_ack_range(endpoint, m) {
        return Err(Rule::AckRange);
    }
    if full {
        return Err(Rule::QueueFull);
    }
    if greatest_taking(endpoint, m, moment) < how.cwnd as u64 {
        return Err(Rule::Growth);
    }
    if how.sample && !may_sample(header.version, endpoint, m) {
        return Err(Rule::Sample);
    }
    if is_unread(endpoint, m) {
        return Err(Rule::ScaleUnread);
    }
    Ok(())
}

/// The endpoint after the segment, at a moment in microseconds. If memory runs out, it doesn't change.
pub(crate) fn on_segment(
    header: &Header,
    endpoint: &mut Endpoint,
    how: TakeChoice,
    m: &Arrived<'_>,
    moment: u64,
) -> Result<(), OutOfMemory>
    requires room { HasRoom endpoint.old }
    requires small { IsSmallEmission m.now }
    requires met { 1 ≤ rcv_nxt endpoint.old }
    ensures ok { OnOk result (endpoint.new ≡ forget_endpoint (taken header.now endpoint.old how m.now moment)) }
    ensures err { OnErr result (endpoint.new ≡ endpoint.old) }
{
    let snd_una = snd_una_after_segment(endpoint, m);
    let old = endpoint.state;
    let state = acknowledged(endpoint, m);
    let window = window_after_segment(endpoint, m);
    let control = control_taken(endpoint, how, m, moment);
    let recover = recover_after_segment(endpoint, m);
    let probe_due = probe_due_after_segment(endpoint, m);
    let timers = timers_before(header, endpoint, how, m, moment);
    let backoffs = backoffs_after_segment(endpoint, m);
    let text = endpoint.text;
    let raised = text_raised(endpoint, moment);
    let (ended, rises) = receive(endpoint, how, m)?;
    let state = finished(state, ended);
    endpoint.text = if rises { raised } else { text };
    endpoint.state = state;
    endpoint.stream.snd_una = snd_una;
    endpoint.window = window;
    endpoint.control = control;
    endpoint.recover = recover;
    endpoint.probe_due = probe_due;
    endpoint.timers = state_timers(timers, old, state, moment);
    endpoint.unanswered_expiries = 0;
    endpoint.backoffs = backoffs;
    endpoint.stream.accepted.forget_below(snd_una);
    endpoint.transmissions.forget_below(snd_una);
    Ok(())
}
