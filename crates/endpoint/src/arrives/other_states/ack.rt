//! Fifth, the ACK field.

ghost use Rattle.case_forms.specs.declared.calls.State.TheVariants as states;
ghost use Rattle.spec_tcp.specs.Arrives.OtherStates.Ack.{acknowledged, snd_una_after_segment, fin_acknowledged};
ghost use Rattle.spec_tcp.specs.Arrives.OtherStates.Ack.{is_bad_ack_range, is_new_ack, acknowledges_syn, acked};
ghost use Rattle.spec_tcp.specs.Arrives.OtherStates.Ack.{is_duplicate, first_sampled, may_sample};
ghost use Rattle.spec_tcp.specs.Arrives.OtherStates.Window.{opens_window};
ghost use Rattle.spec_tcp.specs.Endpoints.{snd_max};
ghost use Rattle.std.specs.Prelude.{◌≡◌, ◌||◌, not, ◌<◌, ◌+◌, ◌^◌, if◌then◌else◌, ◌&&◌, is_some};
ghost use Rattle.streams.specs.Transmissions.{retransmitted};

use crate::arrives::other_states::window::takes_window;
use case_forms::{State, Version};
use spec_tcp::{Arrived, Endpoint};

/// Whether the segment acknowledges nothing, or what was not sent. In SYN-RECEIVED it must acknowledge the SYN.
pub(crate) fn is_bad_ack_range(endpoint: &Endpoint, m: &Arrived<'_>) -> bool
    ensures { result ≡ is_bad_ack_range endpoint.now m.now }
{
    !m.flags().rst
        && (!m.flags().ack
            || endpoint.snd_max() < m.ack()
            || (endpoint.state.is_syn_received() && m.ack() <= endpoint.stream.snd_una))
}

/// Whether the segment acknowledges what was not acknowledged before.
pub(crate) fn is_new_ack(endpoint: &Endpoint, m: &Arrived<'_>) -> bool
    ensures { result ≡ is_new_ack endpoint.now m.now }
{
    m.flags().ack && !m.flags().rst && endpoint.stream.snd_una < m.ack()
}

/// Whether it acknowledges the endpoint's own SYN for the first time.
pub(crate) fn acknowledges_syn(endpoint: &Endpoint, m: &Arrived<'_>) -> bool
    ensures { result ≡ acknowledges_syn endpoint.now m.now }
{
    is_new_ack(endpoint, m) && endpoint.stream.snd_una == 0
}

/// How many positions it newly acknowledges: 0 if none.
pub(crate) fn acked(endpoint: &Endpoint, m: &Arrived<'_>) -> u64
    ensures { result ≡ acked endpoint.now m.now }
{
    m.ack().saturating_sub(endpoint.stream.snd_una)
}

/// Whether it is a duplicate acknowledgment: data is outstanding, and the segment has no positions and carries nothing
/// new (RFC 5681, 2).
pub(crate) fn is_duplicate(endpoint: &Endpoint, m: &Arrived<'_>) -> bool
    ensures { result ≡ is_duplicate endpoint.now m.now }
{
    endpoint.stream.snd_una < endpoint.snd_max()
        && m.length() == 0
        && !m.flags().rst
        && m.ack() == endpoint.stream.snd_una
        && endpoint.peer_window(m) == endpoint.window.snd_wnd
}

/// Whether it may be used to measure a round trip: it acknowledges what was not acknowledged before, all of which was
/// sent once, or the last position of which was from version 5 on (RFC 6298, 3).
pub fn may_sample(version: Version, endpoint: &Endpoint, m: &Arrived<'_>) -> bool
    ensures { result ≡ may_sample version endpoint.now m.now }
{
    is_new_ack(endpoint, m)
        && !endpoint
            .transmissions
            .is_retransmitted(first_sampled(version, endpoint, m), m.ack())
}

// The first position that must have been sent once.
fn first_sampled(version: Version, endpoint: &Endpoint, m: &Arrived<'_>) -> u64
    ensures { result ≡ first_sampled version endpoint.now m.now }
{
    if version.says_slack() {
        m.ack().saturating_sub(1)
    } else {
        endpoint.stream.snd_una
    }
}

// Whether a segment that arrives in SYN-SENT measures nothing: it is a reset, or doesn't acknowledge the SYN, or the
// SYN was retransmitted (RFC 6298, 3).
pub(crate) fn is_no_sample(endpoint: &Endpoint, m: &Arrived<'_>) -> bool
    ensures { result ≡ (m.now.flags.rst || not m.now.flags.ack
        || retransmitted endpoint.now.transmissions endpoint.now.stream.snd_una 1) }
{
    m.flags().rst
        || !m.flags().ack
        || endpoint
            .transmissions
            .is_retransmitted(endpoint.stream.snd_una, 1)
}

/// The oldest unacknowledged position afterwards.
pub(crate) fn snd_una_after_segment(endpoint: &Endpoint, m: &Arrived<'_>) -> u64
    ensures { result ≡ snd_una_after_segment endpoint.now m.now }
{
    endpoint.stream.snd_una.max(m.ack())
}

/// The state after the acknowledgment is processed, before a FIN is (RFC 9293, 3.10.7.4, fifth).
pub(crate) fn acknowledged(endpoint: &Endpoint, m: &Arrived<'_>) -> State
    ensures { result ≡ acknowledged endpoint.now.state endpoint.now m.now }
{
    match endpoint.state {
        State::SynReceived => syn_acknowledged(endpoint, m),
        State::FinWait1 if fin_acknowledged(endpoint, m) => State::FinWait2,
        State::Closing if fin_acknowledged(endpoint, m) => State::TimeWait,
        State::LastAck if fin_acknowledged(endpoint, m) => State::Closed,
        State::Listen
        | State::SynSent
        | State::Established
        | State::FinWait1
        | State::FinWait2
        | State::CloseWait
        | State::Closing
        | State::LastAck
        | State::TimeWait
        | State::Closed => endpoint.state,
    }
}

/// Up to which position outstanding data may be retransmitted: all of it, if a window above 0 ends a zero window.
pub(crate) fn recover_after_segment(endpoint: &Endpoint, m: &Arrived<'_>) -> u64
    ensures { result ≡ (if opens_window endpoint.now m.now && is_some endpoint.now.timers.persist_armed
        then snd_max endpoint.now else endpoint.now.recover) }
{
    if opens_window(endpoint, m) && endpoint.timers.persist_armed.is_some() {
        endpoint.snd_max()
    } else {
        endpoint.recover
    }
}

/// How often the retransmission timer expired since a new acknowledgment.
pub(crate) fn backoffs_after_segment(endpoint: &Endpoint, m: &Arrived<'_>) -> u32
    ensures { result ≡ (if is_new_ack endpoint.now m.now then 0 else endpoint.now.backoffs) }
{
    if is_new_ack(endpoint, m) {
        0
    } else {
        endpoint.backoffs
    }
}

fn syn_acknowledged(endpoint: &Endpoint, m: &Arrived<'_>) -> State
    ensures { result ≡ acknowledged states.SynReceived endpoint.now m.now }
{
    if !acknowledges_syn(endpoint, m) {
        return State::SynReceived;
    }
    if endpoint.stream.ended {
        State::FinWait1
    } else {
        State::Established
    }
}

fn fin_acknowledged(endpoint: &Endpoint, m: &Arrived<'_>) -> bool
    ensures { result ≡ fin_acknowledged endpoint.now m.now }
{
    endpoint.stream.ended && endpoint.stream.accepted.end() < snd_una_after_segment(endpoint, m)
}

pub(crate) fn opens_window(endpoint: &Endpoint, m: &Arrived<'_>) -> bool
    ensures { result ≡ opens_window endpoint.now m.now }
{
    takes_window(endpoint, m) && 0 < m.window()
}
