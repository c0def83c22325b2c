//! The segments that a core would make at an endpoint. Positions and windows count bytes.

ghost use Rattle.std.specs.Prelude.{◌≡◌, ◌≤◌, true};
ghost use Rattle.std.specs.Option.{IfSome};
ghost use Rattle.case_forms.specs.Versions.{scales};
ghost use Rattle.stack_core.specs.Makings.{bytes_of, fin_of, syn_of};
ghost use Rattle.stack_core.specs.Told.{MayOpen};

use crate::send_states::{Again, SendState};
use case_forms::{Flags, GREATEST_POSITION, SegmentPlan, Version};
use endpoint_state::Endpoint;
use recording_parts::told_shift;
use seqno::Word;
use window_rules::offered_edge;

// The greatest payload that a core sends, in bytes: with a header and both options it fits into a segment.
pub(crate) const GREATEST_PAYLOAD: u16 = 65_487;

/// What an endpoint is given with its first SYN.
#[derive(Clone, Copy)]
pub(crate) struct SynOptions {
    /// Its initial send sequence number (RFC 9293, 3.4.1).
    pub(crate) iss: Word,
    /// By how many bits it shifts the windows that it offers, if its SYN carries that (RFC 7323, 2.2).
    pub(crate) shift: Option<u8>,
}

/// What an endpoint offers with its segments: the window field of a SYN, and that of other segments.
#[derive(Clone, Copy)]
pub(crate) struct AdvertisedWindow {
    pub(crate) opening: SynOptions,
    pub(crate) at_syn: u16,
    pub(crate) window: u16,
}

/// What an endpoint offers, if its host has a ring of so many bytes for what it takes. No shift is offered if this
/// version doesn't scale windows, or once the peer's SYN carried none (RFC 7323, 2.2). A shift of more than 14 counts
/// as 14 (RFC 7323, 2.3).
pub(crate) fn offer_of(
    version: Version,
    endpoint: &Endpoint,
    send_state: SendState,
    opening: SynOptions,
    ring: u16,
) -> AdvertisedWindow
    ensures { MayOpen version result.opening }
{
    let room = send_state.room(endpoint, ring);
    let shift = match endpoint.shift {
        Some(shift) if endpoint.is_scaling() => u64::from(shift.min(14)),
        _ => 0,
    };
    let tells = endpoint.rcv_nxt() == 0 || endpoint.peer_shift.is_some();
    AdvertisedWindow {
        opening: SynOptions {
            iss: opening.iss,
            shift: told_shift(version, tells, opening.shift),
        },
        at_syn: room.min(65_535) as u16,
        window: (room >> shift).min(65_535) as u16,
    }
}

/// What a core would make at an endpoint, the first of these that it may: a reset that is due; what seems lost; its
/// SYN; as many new bytes as fit, with the FIN after the last; these without the FIN; an acknowledgment that it owes.
pub(crate) fn candidate_segments(
    endpoint: &Endpoint,
    send_state: SendState,
    offer: AdvertisedWindow,
) -> [Option<SegmentPlan>; 6] {
    let fresh = endpoint.snd_max() == 0;
    let bytes = new_bytes(endpoint, offer);
    [
        endpoint.reset_due.then_some(reset_of(endpoint, offer)),
        send_state
            .again
            .and_then(|again| retransmitted(endpoint, again, offer)),
        fresh.then_some(syn_of(endpoint, offer.opening, offer.at_syn)),
        if fresh {
            None
        } else {
            with_fin(endpoint, bytes)
        },
        (bytes.len != 0).then_some(bytes),
        send_state
            .acknowledges
            .then_some(plain(endpoint, endpoint.snd_max(), 0, offer.window)),
    ]
}

// New bytes: as many as exist and fit into both windows and a segment (RFC 9293, 3.8.6; RFC 5681, 3.1).
fn new_bytes(endpoint: &Endpoint, offer: AdvertisedWindow) -> SegmentPlan {
    bytes_from(endpoint, endpoint.snd_max(), edge_of(endpoint), offer)
}

// What seems lost, from the first of it on: the SYN, or bytes with the FIN after the last. A segment is retransmitted
// even if the congestion window is less than one segment (RFC 5681, 3.1).
fn retransmitted(
    endpoint: &Endpoint,
    again: Again,
    offer: AdvertisedWindow,
) -> Option<SegmentPlan> {
    let from = again.next.max(endpoint.stream.snd_una);
    let end = again.end.min(endpoint.snd_max());
    if end <= from {
        return None;
    }
    if from == 0 {
        return Some(syn_of(endpoint, offer.opening, offer.at_syn));
    }
    let end = end.min(endpoint.recover);
    let bytes = bytes_from(endpoint, from, edge_of(endpoint).min(end), offer);
    let last = bytes.pos.saturating_add(u64::from(bytes.len));
    if last < end {
        if let Some(plan) = with_fin(endpoint, bytes) {
            return Some(plan);
        }
    }
    (bytes.len != 0).then_some(bytes)
}

// The position up to which both windows let bytes go.
fn edge_of(endpoint: &Endpoint) -> u64 {
    let snd_una = endpoint.stream.snd_una.min(GREATEST_POSITION);
    let offered = offered_edge(snd_una, endpoint.window.snd_wnd, endpoint.probe_due);
    offered.min(endpoint.control.send_edge(snd_una))
}

// Bytes from a position on, at most up to that one.
fn bytes_from(endpoint: &Endpoint, from: u64, edge: u64, offer: AdvertisedWindow) -> SegmentPlan {
    let end = edge.min(endpoint.stream.accepted.end());
    let most = u64::from(endpoint.control.values.smss).min(u64::from(GREATEST_PAYLOAD));
    let len = end.saturating_sub(from).min(most).min(65_535) as u16;
    plain(endpoint, from, len, offer.window)
}

// The same with the FIN, if it follows the last byte.
fn with_fin(endpoint: &Endpoint, plan: SegmentPlan) -> Option<SegmentPlan> {
    let last = plan.pos.saturating_add(u64::from(plan.len));
    if !endpoint.stream.ended || last != endpoint.stream.accepted.end() {
        return None;
    }
    let mut plan = plan;
    plan.flags.fin = true;
    Some(plan)
}

// A segment without SYN, FIN and RST.
fn plain(endpoint: &Endpoint, pos: u64, len: u16, window: u16) -> SegmentPlan
    ensures { result ≡ record (bytes_of endpoint.now len window) { pos = pos } }
{
    SegmentPlan {
        lport: endpoint.lport,
        rport: endpoint.rport,
        pos,
        len,
        flags: Flags {
            ack: 1 <= endpoint.rcv_nxt(),
            rst: false,
            syn: false,
            fin: false,
        },
        window,
        iss: None,
        shift: None,
    }
}

// A reset after all that was made (RFC 9293, 3.10.4 and 3.10.5).
fn reset_of(endpoint: &Endpoint, offer: AdvertisedWindow) -> SegmentPlan {
    let mut plan = plain(endpoint, endpoint.snd_max(), 0, offer.window);
    plan.flags.rst = true;
    plan
}

/// Its SYN.
pub(crate) fn syn_of(endpoint: &Endpoint, opening: SynOptions, window: u16) -> SegmentPlan
    ensures { result ≡ syn_of endpoint.now opening window }
{
    SegmentPlan {
        lport: endpoint.lport,
        rport: endpoint.rport,
        pos: 0,
        len: 0,
        flags: Flags {
            ack: 1 <= endpoint.rcv_nxt(),
            rst: false,
            syn: true,
            fin: false,
        },
        window,
        iss: if endpoint.iss.is_some() {
            None
        } else {
            Some(opening.iss)
        },
        shift: if endpoint.iss.is_some() {
            None
        } else {
            opening.shift
        },
    }
}

/// One new byte.
pub(crate) fn byte_of(endpoint: &Endpoint, window: u16) -> SegmentPlan
    ensures { result ≡ bytes_of endpoint.now 1 window }
{
    plain(endpoint, endpoint.snd_max(), 1, window)
}

/// Its FIN alone.
pub(crate) fn fin_of(endpoint: &Endpoint, window: u16) -> SegmentPlan
    ensures { result ≡ fin_of endpoint.now window }
{
    let mut plan = plain(endpoint, endpoint.snd_max(), 0, window);
    plan.flags.fin = true;
    plan
}
