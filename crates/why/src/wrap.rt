//! Numbers that are near 2^32, where they wrap.

use crate::scene::Scene;
use endpoint_state::Endpoint;
use plain_words::Sheet;
use seqno::{Word, number};

// How many numbers there are.
const NUMBERS: u64 = 1 << 32;

// The greatest window that isn't scaled.
const PLAIN_WINDOW: u64 = 65_535;

/// Writes which numbers of the endpoint are within a window of 2^32, if any is.
pub(crate) fn say_wrap(out: &mut Sheet, scene: &Scene) {
    match scene.concerned() {
        Some(endpoint) => say_wraps_of(out, endpoint),
        None => {}
    }
}

fn say_wraps_of(out: &mut Sheet, endpoint: &Endpoint) {
    let (una, wnd) = (endpoint.stream.snd_una, u64::from(endpoint.window.snd_wnd));
    say_near(out, "SND.UNA", endpoint.iss, una, wnd);
    let (next, room) = (endpoint.rcv_nxt(), endpoint.receive_window());
    say_near(out, "RCV.NXT", endpoint.irs, next, room);
}

// Writes the number of a position, if it is within a window of 2^32, or within the greatest one that isn't scaled.
fn say_near(out: &mut Sheet, name: &str, base: Option<Word>, position: u64, window: u64) {
    let Some(base) = base else {
        return;
    };
    let Word(number) = number(base, position);
    let (near, above) = (window.max(PLAIN_WINDOW), u64::from(number));
    let below = NUMBERS.saturating_sub(above);
    if below <= near {
        out.put("perhaps the wrap at 2^32 (RFC 9293, 3.4): ");
        out.put(name);
        out.say(
            " has the number {}, {} below it\n",
            &[u64::from(number), below],
        );
        return;
    }
    // A number below the first one can only have wrapped.
    if above <= near && above < position {
        out.put("perhaps the wrap at 2^32 (RFC 9293, 3.4): ");
        out.put(name);
        out.say(
            " has the number {}, {} above it\n",
            &[u64::from(number), above],
        );
        return;
    }
}
