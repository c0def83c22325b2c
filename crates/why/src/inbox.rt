//! The segments in an inbox, and which of them a reset may answer.

use crate::described::{describe_ports, no_endpoint};
use crate::numbers::ack_of_syn;
use crate::scene::{Scene, witness_line};
use case_forms::{Event, Host, Label};
use endpoint_state::Endpoint;
use line_fields::state_name;
use plain_words::{FlagWords, HostName, Sheet, word_if};
use spec_tcp::Emission;

/// Writes the segment of a line in an inbox, and its endpoint, or why it isn't there.
pub(crate) fn describe_arrival(out: &mut Sheet, scene: &Scene, host: Host, line: u64) {
    match scene.world.waiting(host, line) {
        Some(m) => describe_waiting(out, scene, host, m),
        None => nothing_waits(out, scene, host, line),
    }
}

// In a half case a segment has no positions unless an endpoint reads it; then its numbers are written.
fn describe_waiting(out: &mut Sheet, scene: &Scene, host: Host, m: &Emission) {
    match scene.taker(host, m) {
        Some(endpoint) => {
            let read = scene.as_read(endpoint, m);
            let (pos, ack) = read.map_or((m.pos, m.ack), |read| (read.pos(), read.ack()));
            by_positions(out, m, pos, ack);
            describe_ports(out, scene, host, m.rport, m.lport);
        }
        None if scene.header().version.is_half() => {
            by_numbers(out, m);
            no_endpoint(out, host, m.rport, m.lport);
        }
        None => {
            by_positions(out, m, m.pos, m.ack);
            out.show(&HostName(host));
            out.put(" has no endpoint with its ports\n");
        }
    }
}

// A segment, by the position at which it begins and the one that it acknowledges.
fn by_positions(out: &mut Sheet, m: &Emission, pos: u64, ack: u64) {
    let (flags, len, window) = (m.flags, m.payload.len(), m.window);
    out.say("the segment: position {}, {} bytes,", &[pos, len as u64]);
    out.put(word_if(flags.syn, " SYN"));
    out.put(word_if(flags.ack, " ACK"));
    out.put(word_if(flags.fin, " FIN"));
    out.put(word_if(flags.rst, " RST"));
    out.say(", acknowledges {}, window {}\n", &[ack, u64::from(window)]);
}

// A segment, by the numbers in its header.
fn by_numbers(out: &mut Sheet, m: &Emission) {
    let (flags, seq) = (FlagWords(m.flags), m.seq.0);
    let (ack, len) = (m.ack_seq.0, m.payload.len());
    out.put("the segment: ");
    out.show(&flags);
    out.say(
        "sequence number {}, acknowledgment number {}, {} bytes\n",
        &[u64::from(seq), u64::from(ack), len as u64],
    );
}

// Writes why the segment of a line isn't in the inbox.
fn nothing_waits(out: &mut Sheet, scene: &Scene, host: Host, line: u64) {
    out.say("the segment of line {} isn't in the inbox of ", &[line]);
    out.show(&HostName(host));
    out.put(": ");
    if !arrives(scene, host, line) {
        return out.put("that isn't an I line of this host\n");
    }
    if scene.used_by(line).is_none() {
        return out.put("that line isn't used yet\n");
    }
    let emptied = emptied_at(scene, host, line);
    out.say(
        "it was processed, dropped or answered in line {} of the witness\n",
        &[emptied],
    );
}

// Whether a segment arrives at a host with a line.
fn arrives(scene: &Scene, host: Host, line: u64) -> bool {
    match scene.line(line) {
        Some(named) => matches!(&named.event, Event::Came(at, _) if *at == host),
        None => false,
    }
}

// The witness line that processed, dropped or answered the segment of a line; 0 if there is none.
fn emptied_at(scene: &Scene, at: Host, number: u64) -> u64 {
    let place = scene.before.iter().rposition(|step| match &step.label {
        Label::T { host, line, .. } | Label::K { host, line } | Label::R { host, line } => {
            *host == at && *line == number
        }
        Label::L(_) | Label::D { .. } | Label::M { .. } | Label::F { .. } => false,
    });
    witness_line(place)
}

/// Writes why no reset may answer a segment.
pub(crate) fn unanswerable(out: &mut Sheet, scene: &Scene, host: Host, m: &Emission) {
    if m.flags.rst {
        return out.put("a reset is never answered\n");
    }
    match scene.taker(host, m) {
        Some(endpoint) if !endpoint.state.is_closed() => unanswerable_at(out, scene, endpoint, m),
        _ => {
            let port = m.rport;
            out.say(
                "a listener is open on port {}: a reset answers only a segment with ACK, and this one has none\n",
                &[u64::from(port)],
            );
        }
    }
}

fn unanswerable_at(out: &mut Sheet, scene: &Scene, endpoint: &Endpoint, m: &Emission) {
    out.put("in ");
    out.put(state_name(endpoint.state));
    out.put(" ");
    if !endpoint.state.is_syn_sent() && !endpoint.state.is_syn_received() {
        return out.put(
            "no reset answers a segment; one may in SYN-SENT, in SYN-RECEIVED, at a listener, or without an endpoint\n",
        );
    }
    out.put("a reset answers only an ACK that isn't of its own SYN\n");
    if !m.flags.ack {
        return out.put("it has no ACK\n");
    }
    match scene.as_read(endpoint, m) {
        Some(read) => ack_of_syn(out, endpoint, &read),
        None => {}
    }
}
