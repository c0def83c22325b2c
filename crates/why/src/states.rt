//! What leads from one state of a connection to the next.

use case_forms::State;
use endpoint_state::Endpoint;
use line_fields::state_name;
use plain_words::Sheet;

/// Writes what leads out of an endpoint's state, and how far its FIN is from being acknowledged.
pub(crate) fn say_way_out(out: &mut Sheet, endpoint: &Endpoint) {
    let (name, way) = (state_name(endpoint.state), way_out(endpoint.state));
    out.put("from ");
    out.put(name);
    out.put(", ");
    out.put(way);
    let (una, fin) = (endpoint.stream.snd_una, endpoint.stream.accepted.end());
    if endpoint.stream.ended && una <= fin {
        out.say("; its FIN is at {}, and SND.UNA is {}", &[fin, una]);
    }
    out.put("\n");
}

// What leads out of a state (RFC 9293, 3.3.2).
fn way_out(state: State) -> &'static str {
    match state {
        State::Closed => "nothing leads on",
        State::Listen => "a SYN leads to SYN-RECEIVED",
        State::SynSent =>
            "a SYN that acknowledges its own leads to ESTABLISHED, and any other SYN to SYN-RECEIVED",
        State::SynReceived => "an acknowledgment of its SYN leads to ESTABLISHED",
        State::Established =>
            "the peer's FIN leads to CLOSE-WAIT, and a shut or a close to FIN-WAIT-1",
        State::FinWait1 =>
            "an acknowledgment of its FIN leads to FIN-WAIT-2, and the peer's FIN to CLOSING",
        State::FinWait2 => "the peer's FIN leads to TIME-WAIT",
        State::CloseWait => "a shut or a close leads to LAST-ACK",
        State::Closing => "an acknowledgment of its FIN leads to TIME-WAIT",
        State::LastAck => "an acknowledgment of its FIN leads to CLOSED",
        State::TimeWait => "the end of 2 `msl` leads to CLOSED",
    }
}
