//! An endpoint in words.

use crate::owed::describe_owed;
use crate::probes::describe_probe;
use crate::scene::Scene;
use case_forms::{Host, Version};
use endpoint_state::Endpoint;
use line_fields::state_name;
use plain_words::{HostName, Sheet, word_if};
use spec_tcp::EndpointId;

// The slow start threshold of an endpoint that hasn't set it.
const UNSET: u32 = u32::MAX;

/// Writes that a host has no endpoint with these ports.
pub(crate) fn no_endpoint(out: &mut Sheet, host: Host, lport: u16, rport: u16) {
    out.show(&HostName(host));
    out.say(
        " has no endpoint between its port {} and the peer's port {}\n",
        &[u64::from(lport), u64::from(rport)],
    );
}

/// Writes the endpoint of a host with these ports, or that it has none.
pub(crate) fn describe_ports(out: &mut Sheet, scene: &Scene, host: Host, lport: u16, rport: u16) {
    match scene.world.body(host).place_of(lport, rport) {
        Some(number) => describe(out, scene, EndpointId { host, number }),
        None => no_endpoint(out, host, lport, rport),
    }
}

/// Writes the values of an endpoint that rules compare, as they are before the step or after the last one.
pub(crate) fn describe(out: &mut Sheet, scene: &Scene, id: EndpointId) {
    let Some(endpoint) = scene.world.body(id.host).endpoint_at(id.number) else {
        return;
    };
    let (lport, rport) = (endpoint.lport, endpoint.rport);
    let state = state_name(endpoint.state);
    let when = match scene.step {
        Some(_) => "before the step",
        None => "after the last step",
    };
    out.put(when);
    out.put(", ");
    out.show(&HostName(id.host));
    out.put("'s endpoint ");
    out.say("{} -> {}: ", &[u64::from(lport), u64::from(rport)]);
    out.put(state);
    out.put("\n");
    describe_values(out, scene.header().version, endpoint);
    describe_probe(out, scene, id, endpoint);
    describe_owed(out, scene, id, endpoint);
}

fn describe_values(out: &mut Sheet, version: Version, endpoint: &Endpoint) {
    describe_sending(out, version, endpoint);
    describe_receiving(out, endpoint);
    describe_windows(out, endpoint);
    describe_timers(out, endpoint);
}

// From version 6 on, no position says what may be retransmitted.
fn describe_sending(out: &mut Sheet, version: Version, endpoint: &Endpoint) {
    let (stream, recover) = (&endpoint.stream, endpoint.recover);
    let (una, sent, accepted) = (stream.snd_una, endpoint.snd_max(), stream.accepted.end());
    out.say(
        "  sending: SND.UNA {}, sent up to {}, accepted from the program up to {}",
        &[una, sent, accepted],
    );
    out.put(word_if(stream.ended, ", sending has ended"));
    if !version.says_sender() {
        out.say(", may be retransmitted up to {}", &[recover]);
    }
    out.put("\n");
}

// Before the peer's SYN, which has position 0, there is nothing to acknowledge and no window to advertise.
fn describe_receiving(out: &mut Sheet, endpoint: &Endpoint) {
    let (next, edge) = (endpoint.rcv_nxt(), endpoint.window.rcv_adv);
    if next == 0 {
        return out.put("  receiving: no SYN received yet\n");
    }
    out.say(
        "  receiving: RCV.NXT {}, advertised up to {}\n",
        &[next, edge],
    );
}

fn describe_windows(out: &mut Sheet, endpoint: &Endpoint) {
    let (wnd, values) = (endpoint.window.snd_wnd, &endpoint.control.values);
    let (cwnd, smss, dup) = (values.cwnd, values.smss, values.dup);
    out.say(
        "  windows: SND.WND {}, cwnd {}, ssthresh ",
        &[u64::from(wnd), u64::from(cwnd)],
    );
    match values.ssthresh {
        UNSET => out.put("not set"),
        bytes => out.number(u64::from(bytes)),
    }
    let is_judged = endpoint.control.profile.bounds_windows();
    out.put(word_if(!is_judged, " (neither is judged)"));
    out.say(
        ", SMSS {}, {} duplicate acknowledgments",
        &[u64::from(smss), u64::from(dup)],
    );
    out.put(word_if(values.fast, ", in fast recovery"));
    out.put(word_if(endpoint.is_scaling(), ", windows are scaled"));
    out.put("\n");
}

fn describe_timers(out: &mut Sheet, endpoint: &Endpoint) {
    let timers = &endpoint.timers;
    out.say("  timers: RTO {}", &[timers.rto]);
    for (name, armed) in [
        ("rto", timers.rto_armed),
        ("persist", timers.persist_armed),
        ("2msl", timers.msl_armed),
    ] {
        match armed {
            Some(since) => {
                out.put(", ");
                out.put(name);
                out.say(" armed since {}", &[since]);
            }
            None => {
                out.put(", ");
                out.put(name);
                out.put(" off");
            }
        }
    }
    out.put("\n");
}
