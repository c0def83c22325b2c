//! Numbers of a received segment as positions, and the ranges that the rules require.

use crate::scene::Scene;
use case_forms::POSITIONS;
use endpoint_state::Endpoint;
use plain_words::{Sheet, word_if};
use seqno::{Word, read_near};
use spec_tcp::Arrived;

/// The position that a number reads as near another position, if it is counted from an initial sequence number.
pub(crate) fn position(number: Word, near: u64, base: Option<Word>) -> Option<u64> {
    if near < POSITIONS {
        read_near(near, base?, number)
    } else {
        None
    }
}

// Writes the position that a number reads as.
fn reading(out: &mut Sheet, name: &str, number: Word, near: u64, base: Option<Word>) {
    out.put("its ");
    out.put(name);
    out.say(" {} reads near {} as ", &[u64::from(number.0), near]);
    match position(number, near, base) {
        Some(place) => out.say("position {}", &[place]),
        None => out.put("no position"),
    }
}

/// The positions that both numbers read as. Without a half case, also those that the segment was built with.
pub(crate) fn misread(out: &mut Sheet, scene: &Scene, endpoint: &Endpoint, m: &Arrived) {
    let half = scene.header().version.is_half();
    let (next, irs) = (endpoint.rcv_nxt(), endpoint.irs);
    reading(out, "sequence number", m.seq(), next, irs);
    if m.is_reset_reply() {
        return out.put("\n");
    }
    built_with(out, half, m.pos());
    if !m.flags().ack {
        return;
    }
    let (una, iss) = (endpoint.stream.snd_una, endpoint.iss);
    reading(out, "acknowledgment number", m.ack_seq(), una, iss);
    built_with(out, half, m.ack());
}

fn built_with(out: &mut Sheet, half: bool, position: u64) {
    if half {
        out.put("\n")
    } else {
        out.say(", it was built with {}\n", &[position]);
    }
}

/// The positions that a segment occupies, and the receive window.
pub(crate) fn unacceptable(out: &mut Sheet, endpoint: &Endpoint, m: &Arrived) {
    if m.flags().syn && !m.flags().rst {
        return out.put(
            "it has a SYN, which is acceptable only in SYN-RECEIVED, at position 0 and with ACK\n",
        );
    }
    let (next, length) = (endpoint.rcv_nxt(), m.length());
    let first = if m.is_reset_reply() {
        position(m.seq(), next, endpoint.irs).unwrap_or(0)
    } else {
        m.pos()
    };
    out.put("it occupies ");
    out.show(&length);
    out.say(" positions, from {} on; ", &[first]);
    match endpoint.window.rcv_adv.checked_sub(1) {
        Some(last) if next <= last => {
            out.say(
                "its first or last has to be in the receive window, from {} to {}\n",
                &[next, last],
            );
        }
        _ => out.say(
            "the receive window is 0, so it has to begin at {}\n",
            &[next],
        ),
    }
}

/// The position that a segment acknowledges, and those that it may.
pub(crate) fn ack_range(out: &mut Sheet, endpoint: &Endpoint, m: &Arrived) {
    if !m.flags().ack {
        return out.put(
            "it has no ACK, which a reset needs in SYN-SENT and any other segment always\n",
        );
    }
    if endpoint.state.is_syn_sent() {
        return ack_of_syn(out, endpoint, m);
    }
    let (ack, una, sent) = (m.ack(), endpoint.stream.snd_una, endpoint.snd_max());
    let above = word_if(
        endpoint.state.is_syn_received(),
        "; in SYN-RECEIVED it has to be above SND.UNA",
    );
    out.say(
        "it acknowledges {}; SND.UNA is {}, sent up to {}",
        &[ack, una, sent],
    );
    out.put(above);
    out.put("\n");
}

/// The acknowledgment number, and the one that acknowledges the endpoint's own SYN.
pub(crate) fn ack_of_syn(out: &mut Sheet, endpoint: &Endpoint, m: &Arrived) {
    out.say(
        "its acknowledgment number is {}; ",
        &[u64::from(m.ack_seq().0)],
    );
    match endpoint.iss {
        Some(iss) => out.say(
            "{} acknowledges the endpoint's own SYN\n",
            &[u64::from(iss.0.wrapping_add(1))],
        ),
        None => out.put("the endpoint's own SYN wasn't built yet\n"),
    }
}
