//! The send window after a segment.

ghost use Rattle.spec_tcp.specs.Arrives.OtherStates.Window.{takes_window, window_after_segment, is_unread};
ghost use Rattle.spec_tcp.specs.Arrives.OtherStates.Window.{opens_window};
ghost use Rattle.spec_tcp.specs.Arrives.OtherStates.Window.{persist_after_window};
ghost use Rattle.std.specs.Prelude.{◌≡◌, ◌&&◌, not};

use crate::arrives::other_states::ack::{acknowledges_syn, opens_window};
use crate::same::same_bool;
use case_forms::Timer;
use spec_tcp::{Arrived, Endpoint, Windows};
use timer_rules::Timers;

/// Whether its window can't be read as it was meant: scaling was in force at its sender and is not here, or vice versa.
pub(crate) fn is_unread(endpoint: &Endpoint, m: &Arrived<'_>) -> bool
    ensures { result ≡ is_unread endpoint.now m.now }
{
    !m.flags().syn && !m.is_reset_reply() && !same_bool(m.is_scaled(), endpoint.is_scaling())
}

/// Whether the segment updates the window: it is not older than the last one that did, or it acknowledges the SYN.
pub(crate) fn takes_window(endpoint: &Endpoint, m: &Arrived<'_>) -> bool
    ensures { result ≡ takes_window endpoint.now m.now }
{
    endpoint.stream.snd_una <= m.ack()
        && (acknowledges_syn(endpoint, m)
            || endpoint.window.snd_wl1 < m.pos()
            || endpoint.window.snd_wl1 == m.pos() && endpoint.window.snd_wl2 <= m.ack())
}

/// The window that the peer then offers, in bytes.
pub(crate) fn window_after_segment(endpoint: &Endpoint, m: &Arrived<'_>) -> Windows
    ensures { result ≡ window_after_segment endpoint.now m.now }
{
    let mut window = endpoint.window;
    if takes_window(endpoint, m) {
        window.snd_wnd = endpoint.peer_window(m);
        window.snd_wl1 = m.pos();
        window.snd_wl2 = m.ack();
    }
    window
}

/// Whether a byte beyond a window of 0 is still to be sent.
pub(crate) fn probe_due_after_segment(endpoint: &Endpoint, m: &Arrived<'_>) -> bool
    ensures { result ≡ endpoint.now.probe_due && not (opens_window endpoint.now m.now) }
{
    endpoint.probe_due && !opens_window(endpoint, m)
}

/// A window of 0 arms the persist timer if it is off, any other turns it off (RFC 9293, 3.8.6.1).
pub(crate) fn persist_after_window(timers: Timers, window: u16, moment: u64) -> Timers
    ensures { result ≡ persist_after_window timers window moment }
{
    let mut timers = timers;
    if 0 < window {
        timers.stop(Timer::Persist);
    } else if timers.persist_armed.is_none() {
        timers.arm(Timer::Persist, moment);
    }
    timers
}
