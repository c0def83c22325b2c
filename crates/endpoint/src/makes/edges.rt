//! The acknowledgment and the windows of a segment.

ghost use Rattle.endpoint.specs.Small.{IsSmall};
ghost use Rattle.spec_tcp.specs.Endpoints.{rcv_nxt};
ghost use Rattle.spec_tcp.specs.Makes.Edges.{is_bad_ack, raised_at, own_window, is_beyond_offer, is_congesting};
ghost use Rattle.spec_tcp.specs.Makes.Kind.{word_zero, seq_of};
ghost use Rattle.std.specs.Prelude.{◌≡◌, ◌<◌, ◌^◌, if◌then◌else◌, ◌+◌, max};

use crate::makes::kind::seq_of;
use crate::makes::payload::has_new_bytes;
use case_forms::SegmentPlan;
use seqno::{Word, number};
use spec_tcp::{Endpoint, window_in};
use window_rules::offered_edge;

pub(crate) fn is_bad_ack(endpoint: &Endpoint, making: &SegmentPlan) -> bool
    ensures { result ≡ is_bad_ack endpoint.now making.now }
{
    let rcv_nxt = endpoint.rcv_nxt();
    if making.flags.ack {
        rcv_nxt == 0
    } else {
        !making.flags.rst && 1 <= rcv_nxt
    }
}

pub(crate) fn is_beyond_offer(endpoint: &Endpoint, making: &SegmentPlan) -> bool
    requires { IsSmall endpoint.now making.now }
    ensures { result ≡ is_beyond_offer endpoint.now making.now }
{
    let edge = offered_edge(
        endpoint.stream.snd_una,
        endpoint.window.snd_wnd,
        endpoint.probe_due,
    );
    has_new_bytes(endpoint, making) && edge < making.pos + making.len as u64
}

pub(crate) fn is_congesting(endpoint: &Endpoint, making: &SegmentPlan) -> bool
    requires { IsSmall endpoint.now making.now }
    ensures { result ≡ is_congesting endpoint.now making.now }
{
    let edge = endpoint.control.send_edge(endpoint.stream.snd_una);
    has_new_bytes(endpoint, making) && edge < making.pos + making.len as u64
}

// The position that a segment acknowledges, and its number.
pub(crate) fn acknowledgment(endpoint: &Endpoint, making: &SegmentPlan) -> (u64, Word)
    ensures position { result.0 ≡ (if making.now.flags.ack then rcv_nxt endpoint.now else 0) }
    ensures number { result.1 ≡ (if making.now.flags.ack then seq_of endpoint.now.irs (rcv_nxt endpoint.now)
        else word_zero) }
    ensures small { result.0 < 2 ^ 63 }
{
    if !making.flags.ack {
        return (0, Word(0));
    }
    let rcv_nxt = endpoint.rcv_nxt();
    (rcv_nxt, seq_of(endpoint.irs, rcv_nxt))
}

/// How far the text that was taken at this moment, in microseconds, raised the position that a segment acknowledges
/// which is built then: 0 if it didn't, or the segment has no ACK (RFC 9293, 3.10.7.4).
pub fn raised_at(endpoint: &Endpoint, making: &SegmentPlan, moment: u64) -> u64
    ensures { result ≡ raised_at endpoint.now making.now moment }
{
    let text = endpoint.text;
    if making.flags.ack && text.moment == moment && 0 < text.before {
        return endpoint.rcv_nxt().saturating_sub(text.before);
    }
    0
}

// The window that it offers, in bytes.
fn own_window(endpoint: &Endpoint, making: &SegmentPlan) -> u32
    ensures value { result ≡ own_window endpoint.now making.now }
    ensures small { result < 2 ^ 30 }
{
    window_in(
        endpoint.is_scaling(),
        making.flags.syn,
        endpoint.shift,
        making.window,
    )
}

// How far its own windows then reached.
pub(crate) fn own_edge(endpoint: &Endpoint, making: &SegmentPlan) -> u64
    ensures { result ≡ (if making.now.flags.ack
        then max endpoint.now.window.rcv_adv (rcv_nxt endpoint.now + own_window endpoint.now making.now)
        else endpoint.now.window.rcv_adv) }
{
    let edge = endpoint.window.rcv_adv;
    if making.flags.ack {
        edge.max(endpoint.rcv_nxt() + own_window(endpoint, making) as u64)
    } else {
        edge
    }
}
