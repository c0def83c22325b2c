//! The rules of processing a received segment.

use crate::scene::{Processing, Scene};
use case_forms::{Host, Version};
use endpoint::greatest_taking;
use endpoint_state::{Endpoint, World};
use plain_words::{HostName, Sheet};
use spec_tcp::{Arrived, Emission, EndpointId};
use std::fmt;

/// Writes whether a listener is open on the port of a segment.
pub(crate) fn listener(out: &mut Sheet, world: &World, host: Host, m: &Emission) {
    let is_listening = world.body(host).is_listening(m.rport);
    let a = if is_listening { "a" } else { "no" };
    out.put(a);
    out.say(" listener is open on port {}\n", &[u64::from(m.rport)]);
}

// An endpoint by its number and its host.
#[derive(Clone, Copy)]
struct EndpointName(EndpointId);

impl fmt::Display for EndpointName {
    fn fmt<W: fmt::Write>(&self, f: &mut fmt::Formatter<W>) -> fmt::Result {
        write!(f, "endpoint {} of {}", self.0.number, HostName(self.0.host))
    }
}

/// The endpoints that built the segment and that process it.
pub(crate) fn not_peer(out: &mut Sheet, scene: &Scene, it: Processing, m: &Arrived) {
    let (host, endpoint) = (it.host, it.endpoint);
    let body = scene.world.body(host);
    let number = body.place_of(endpoint.lport, endpoint.rport).unwrap_or(0);
    let receiver = EndpointName(EndpointId { host, number });
    let sender = EndpointName(m.sender());
    out.put("endpoints are counted from 0 at each host, in the order of creation\n");
    out.put("the receiver is ");
    out.show(&receiver);
    if m.is_reset_reply() {
        out.put("; the reset answers a segment built by ");
        out.show(&sender);
        out.put("\n");
        return;
    }
    if let Some(peer) = endpoint.stream.peer {
        out.put(", its peer is ");
        out.show(&EndpointName(peer));
    }
    match m.peer_at_send() {
        Some(peer) => built_for(out, sender, EndpointName(peer)),
        None => {
            out.put("; the segment was built by ");
            out.show(&sender);
            out.put("\n");
        }
    }
}

fn built_for(out: &mut Sheet, sender: EndpointName, peer: EndpointName) {
    out.put("; the segment was built by ");
    out.show(&sender);
    out.put(" for ");
    out.show(&peer);
    out.put("\n");
}

/// How many children the listen queue has, and how many it has room for.
pub(crate) fn queue_full(out: &mut Sheet, scene: &Scene, it: Processing) {
    let body = scene.world.body(it.host);
    let Some(listener) = it
        .endpoint
        .listener
        .and_then(|place| body.listener_at(place))
    else {
        return;
    };
    let (children, extra) = (listener.queue.len(), scene.header().extra);
    let backlog = listener.backlog;
    out.say(
        "children in the listen queue: {}; it has room for backlog {} + extra {}\n",
        &[children as u64, u64::from(backlog), u64::from(extra)],
    );
}

/// The congestion window that the step chooses, and the greatest one.
pub(crate) fn growth(out: &mut Sheet, it: Processing, m: &Arrived, moment: u64) {
    let (endpoint, cwnd) = (it.endpoint, it.choice.cwnd);
    let greatest = greatest_taking(endpoint, m, moment);
    let counted = endpoint.control.values.counted;
    let ack = if m.flags().ack { m.ack() } else { 0 };
    let acknowledged = ack.saturating_sub(endpoint.stream.snd_una);
    out.say(
        "the step chooses cwnd {}, the greatest is {}; newly acknowledged {}, counted \
before {}\n",
        &[u64::from(cwnd), greatest, acknowledged, counted],
    );
}

/// Whether a segment is a new acknowledgment, which may measure a round trip.
pub(crate) fn acknowledges_more(endpoint: &Endpoint, m: &Arrived) -> bool {
    let flags = m.flags();
    flags.ack && !flags.rst && endpoint.stream.snd_una < m.ack()
}

/// What the segment newly acknowledges.
pub(crate) fn sample(out: &mut Sheet, version: Version, endpoint: &Endpoint, m: &Arrived) {
    let (una, ack) = (endpoint.stream.snd_una, m.ack());
    if acknowledges_more(endpoint, m) {
        let which = if version.says_slack() {
            "the last"
        } else {
            "a"
        };
        out.say("it acknowledges from {} up to {}, and ", &[una, ack]);
        out.put(which);
        out.put(" position there was sent more than once\n");
    } else {
        out.say(
            "it acknowledges nothing new: SND.UNA is {}; a round trip is measured by a new acknowledgment, not \
by a reset\n",
            &[una],
        );
    }
}

/// Which of the two sides scales windows.
pub(crate) fn scale_unread(out: &mut Sheet, endpoint: &Endpoint, m: &Arrived) {
    let (scaled, scales) = (m.is_scaled(), endpoint.is_scaling());
    let sender = if scaled { "scaled" } else { "didn't scale" };
    let receiver = if scales { "scales them" } else { "doesn't" };
    out.put("its sender ");
    out.put(sender);
    out.put(" windows when it built the segment, and its receiver ");
    out.put(receiver);
    out.put("\n");
}
