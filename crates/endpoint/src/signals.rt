//! Events at an endpoint as its congestion control sees them: nothing else distinguishes kinds of events for it (RFC
//! 5681, 3.1 and 3.2).

ghost use Rattle.spec_tcp.specs.Signals.{at_moment, recovery_signal, signal_at_syn};
ghost use Rattle.spec_tcp.specs.Signals.{signal_in_other_states, signal_of, timeout_signal, told_smss};
ghost use Rattle.std.specs.Prelude.{◌≡◌, ◌<◌, ◌^◌};
ghost use Rattle.window_rules.specs.Control.{after, greatest};
ghost use Rattle.window_rules.specs.Counts.{HasCounts, IsFit};

use crate::arrives::other_states::ack::{acked, acknowledges_syn, is_duplicate, is_new_ack};
use case_forms::TakeChoice;
use spec_tcp::{Arrived, Endpoint};
use window_rules::{At, Control, Signal};

/// A moment in microseconds, with the smoothed round trip before it.
pub(crate) fn at_moment(endpoint: &Endpoint, moment: u64) -> At
    ensures { result ≡ at_moment endpoint.now moment }
{
    At {
        moment,
        srtt: endpoint.timers.srtt,
    }
}

/// The segment size in bytes that a SYN carries, 536 if it has none or 0 (RFC 9293, 3.7.1).
pub(crate) fn told_smss(told: Option<u16>) -> u32
    ensures { result ≡ told_smss told }
{
    match told {
        Some(mss) => { if mss == 0 { 536 } else { mss as u32 } }
        None => 536,
    }
}

/// How congestion control sees a segment that is processed.
pub(crate) fn signal_of(endpoint: &Endpoint, m: &Arrived<'_>) -> Signal
    ensures value { result ≡ signal_of endpoint.now m.now }
    ensures fit { m.now.ack < 2 ^ 63 → IsFit result }
{
    if endpoint.state.is_syn_sent() {
        signal_at_syn(endpoint, m)
    } else {
        signal_in_other_states(endpoint, m)
    }
}

fn signal_at_syn(endpoint: &Endpoint, m: &Arrived<'_>) -> Signal
    ensures value { result ≡ signal_at_syn endpoint.now m.now }
    ensures fit { IsFit result }
{
    let smss = told_smss(m.mss());
    if !(m.flags().syn && !m.flags().rst) {
        Signal::Other
    } else if m.flags().ack {
        Signal::SynAcked {
            smss,
            syn_lost: endpoint.syn_lost,
        }
    } else {
        Signal::Syn { smss }
    }
}

fn signal_in_other_states(endpoint: &Endpoint, m: &Arrived<'_>) -> Signal
    ensures value { result ≡ signal_in_other_states endpoint.now m.now }
    ensures fit { m.now.ack < 2 ^ 63 → IsFit result }
{
    if acknowledges_syn(endpoint, m) {
        Signal::SynAcked {
            smss: endpoint.control.values.smss,
            syn_lost: endpoint.syn_lost,
        }
    } else if is_new_ack(endpoint, m) {
        Signal::NewAck {
            acked: acked(endpoint, m),
        }
    } else if is_duplicate(endpoint, m) {
        Signal::Duplicate
    } else {
        Signal::Other
    }
}

/// How congestion control sees an expiry of the retransmission timer.
pub(crate) fn timeout_signal(endpoint: &Endpoint) -> Signal
    ensures value { result ≡ timeout_signal endpoint.now }
    ensures fit { IsFit result }
{
    Signal::Timeout {
        flight: endpoint.flight(),
        syn_pending: endpoint.stream.snd_una == 0,
        again: 0 < endpoint.backoffs,
    }
}

/// How congestion control sees the beginning of fast recovery, with the chosen slow start threshold in bytes.
pub(crate) fn recovery_signal(endpoint: &Endpoint, ssthresh: u32) -> Signal
    ensures value { result ≡ recovery_signal endpoint.now ssthresh }
    ensures fit { IsFit result }
{
    Signal::Recovery {
        flight: endpoint.flight(),
        ssthresh,
    }
}

/// The greatest congestion window in bytes that an endpoint may have after it processed the segment, at a moment in
/// microseconds.
pub fn greatest_taking(endpoint: &Endpoint, m: &Arrived<'_>, moment: u64) -> u64
    ensures { result ≡
        (greatest endpoint.now.control (signal_of endpoint.now m.now) (at_moment endpoint.now moment)).0 }
{
    let signal = signal_of(endpoint, m);
    endpoint
        .control
        .greatest(signal, at_moment(endpoint, moment))
        .0
}

/// Congestion control after an endpoint processed the segment, at a moment in microseconds.
pub(crate) fn control_taken(
    endpoint: &Endpoint,
    how: TakeChoice,
    m: &Arrived<'_>,
    moment: u64,
) -> Control
    requires counts { HasCounts endpoint.now.control }
    requires small { m.now.ack < 2 ^ 63 }
    ensures { result ≡ after endpoint.now.control (signal_of endpoint.now m.now) (at_moment endpoint.now moment)
        how.cwnd endpoint.now.control.values.ssthresh }
{
    let control = &endpoint.control;
    let signal = signal_of(endpoint, m);
    control.after(
        signal,
        at_moment(endpoint, moment),
        how.cwnd,
        control.values.ssthresh,
    )
}
