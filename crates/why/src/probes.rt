//! Probes for the loss of what was sent last (RFC 8985, 7).

use crate::scene::{Building, Expiring, Scene};
use crate::timers::handshake;
use crate::undoing::{may_be_undone, say_undoable};
use endpoint_state::Endpoint;
use flights::{ProbeStanding, ProbeWait, Standing};
use plain_words::{Known, Sheet, word_if};
use replayed::end_of;
use spec_flights::Probe;
use spec_tcp::EndpointId;

/// Why no probe may be sent.
pub(crate) fn off(out: &mut Sheet, scene: &Scene, it: Expiring) {
    let endpoint = it.endpoint;
    if !endpoint.is_up() {
        return handshake(out, endpoint);
    }
    let (una, sent) = (endpoint.stream.snd_una, endpoint.snd_max());
    if sent <= una {
        out.say(
            "there is nothing to probe for: SND.UNA {}, sent up to {}\n",
            &[una, sent],
        );
        return;
    }
    match standing_of(scene) {
        Some(standing) => {
            say_kept(out, endpoint, standing);
            match standing {
                ProbeStanding::Recovers(_) => say_undoable(out, scene),
                _ => {}
            }
        }
        None => {}
    }
}

// What keeps an endpoint with something outstanding from probing.
fn say_kept(out: &mut Sheet, endpoint: &Endpoint, it: ProbeStanding) {
    match it {
        ProbeStanding::Plain { own, peers } => {
            let which = which_forbids(own, peers);
            out.put(which);
            out.put(" didn't permit SACK, which probes for a loss need\n");
        }
        ProbeStanding::Recovers(upto) => {
            let una = endpoint.stream.snd_una;
            out.say(
                "a recovery is going on: it ends once all below {} is acknowledged, and SND.UNA is {}\n",
                &[upto, una],
            );
        }
        ProbeStanding::Due => {
            out.put("the last tail loss probe is still due: the next segment with data is it\n");
        }
        ProbeStanding::Out(upto) => say_sent(out, upto, endpoint),
        ProbeStanding::Unsent => out.put("nothing was sent yet\n"),
        ProbeStanding::Reported(position) => out.say(
            "the peer's SACK blocks report position {}: a recovery finds the loss\n",
            &[position],
        ),
        ProbeStanding::Waits(_) => {}
    }
}

fn which_forbids(own: bool, peers: bool) -> &'static str {
    if own {
        "the peer's SYN"
    } else if peers {
        "its own SYN"
    } else {
        "the two SYNs"
    }
}

/// From when on a probe may be sent.
pub(crate) fn early(out: &mut Sheet, scene: &Scene, it: Expiring) {
    let Some(ProbeStanding::Waits(wait)) = standing_of(scene) else {
        return;
    };
    let (quiet, time, due) = (wait.quiet, wait.time, wait.due);
    out.say(
        "nothing new was acknowledged or sent since {}; a tail loss probe waits for ",
        &[quiet],
    );
    out.show(&time);
    match it.endpoint.timers.srtt {
        Some(srtt) => out.say(" = 2 SRTT {}", &[srtt]),
        None => out.put(", as no round trip was measured"),
    }
    out.put(": it is due at ");
    out.show(&due);
    let is_bound = due < u128::from(quiet).saturating_add(time);
    out.put(word_if(is_bound, ", when rto expires"));
    let (grain, from, moment) = (scene.header().grain, earliest(scene, wait), scene.moment());
    out.say("\nit may come a clock tick ({}) early: from ", &[grain]);
    out.show(&from);
    out.say(" on; the step's moment is {}\n", &[moment]);
}

// The earliest moment of a probe.
fn earliest(scene: &Scene, wait: ProbeWait) -> u128 {
    let grain = u128::from(scene.header().grain);
    wait.due.saturating_sub(grain).max(u128::from(wait.quiet))
}

/// Writes whether a probe is due or was sent, or from when on one may be sent, if one may.
pub(crate) fn describe_probe(out: &mut Sheet, scene: &Scene, id: EndpointId, endpoint: &Endpoint) {
    let is_outstanding = endpoint.is_up() && endpoint.stream.snd_una < endpoint.snd_max();
    match scene.probe_standing(id) {
        Some(ProbeStanding::Due) => out.put("  a tail loss probe is due\n"),
        Some(ProbeStanding::Out(upto)) => {
            out.say("  a tail loss probe was sent, up to {}\n", &[upto]);
        }
        Some(ProbeStanding::Waits(wait)) if is_outstanding => {
            let from = earliest(scene, wait);
            out.put("  a tail loss probe may come from ");
            out.show(&from);
            out.put(" on\n");
        }
        _ => {}
    }
}

// What keeps the endpoint that the step touches from probing.
fn standing_of(scene: &Scene) -> Option<ProbeStanding> {
    scene.probe_standing(scene.touched?)
}

/// Whether this is known of a line that makes a probe due.
pub(crate) fn is_known_of_probe(scene: &Scene, it: Expiring, known: Known) -> bool {
    if !it.endpoint.is_up() {
        return known == Known::ProbeOfSyn;
    }
    if it.endpoint.snd_max() <= it.endpoint.stream.snd_una {
        return known == Known::ProbeIdle;
    }
    let found = match standing_of(scene) {
        Some(ProbeStanding::Plain { .. }) => Known::ProbePlain,
        Some(ProbeStanding::Recovers(_)) if may_be_undone(scene) => Known::NotUndone,
        Some(ProbeStanding::Recovers(_)) => Known::ProbeRecovers,
        Some(ProbeStanding::Due | ProbeStanding::Out(_)) => Known::ProbeTwice,
        Some(ProbeStanding::Reported(_)) => Known::ProbeReported,
        Some(ProbeStanding::Waits(_)) => Known::ProbeEarly,
        Some(ProbeStanding::Unsent) | None => Known::ProbeIdle,
    };
    known == found
}

/// Why a segment isn't the probe that is due, or was before.
pub(crate) fn say_probe(out: &mut Sheet, it: Building, standing: Standing) {
    let sent = it.endpoint.snd_max();
    match (standing.probe, standing.reported) {
        (Probe::Nothing, _) => {}
        (Probe::Due, Some(position)) if is_tail(it) => out.say(
            "a tail loss probe is due, but may not have position {}, which SACK blocks report\n",
            &[position],
        ),
        (Probe::Due, _) => out.say(
            "a tail loss probe is due, but has to end at {}, or to begin there\n",
            &[sent],
        ),
        (Probe::Out(upto), _) => say_sent(out, upto, it.endpoint),
    }
}

// When the next probe may be sent, after the last one, which ended at this position.
fn say_sent(out: &mut Sheet, upto: u64, endpoint: &Endpoint) {
    let una = endpoint.stream.snd_una;
    out.say(
        "a tail loss probe was sent: the next one has to wait until all below {} is acknowledged, and SND.UNA is \
{}\n",
        &[upto, una],
    );
}

/// Whether a segment ends with all that was sent.
pub(crate) fn is_tail(it: Building) -> bool {
    let fin = u64::from(it.plan.flags.fin);
    it.endpoint.snd_max() == end_of(it.plan).saturating_add(fin)
}
