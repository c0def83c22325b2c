//! What an endpoint could send.

use case_forms::POSITIONS;
use endpoint_state::Endpoint;
use plain_words::Sheet;
use window_rules::offered_edge;

/// How many bytes that it hasn't sent an endpoint could send: they wait, the peer's window is open, and cwnd has room.
pub(crate) fn sendable_bytes(endpoint: &Endpoint) -> u64 {
    let (una, wnd) = (endpoint.stream.snd_una, endpoint.window.snd_wnd);
    if una >= POSITIONS {
        return 0;
    }
    if wnd == 0 || !endpoint.is_up() {
        return 0;
    }
    let allowed = offered_edge(una, wnd, false).min(endpoint.control.send_edge(una));
    let end = allowed.min(endpoint.stream.accepted.end());
    end.saturating_sub(endpoint.snd_max())
}

/// Writes that the peer's window is open and what could be sent, if that is so.
pub(crate) fn say_sendable(out: &mut Sheet, endpoint: &Endpoint) {
    let (bytes, sent) = (sendable_bytes(endpoint), endpoint.snd_max());
    if bytes == 0 {
        return;
    }
    let (wnd, end) = (endpoint.window.snd_wnd, sent.saturating_add(bytes));
    out.say(
        "the window is open: SND.WND is {}, and {} bytes could be sent, from {} up to {}\n",
        &[u64::from(wnd), bytes, sent, end],
    );
}
