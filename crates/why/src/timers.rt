//! The rules of expiries and of fast recovery.

use crate::losses::say_loss;
use crate::scene::{Expiring, Scene};
use crate::sendable::say_sendable;
use crate::states::say_way_out;
use crate::{probes, undoing};
use case_forms::{Extras, Recovery, RecoveryChange, Timer};
use endpoint::{greatest_recovery, greatest_values};
use endpoint_state::Endpoint;
use flights::Standing;
use plain_words::{Sheet, word_if};

/// The windows chosen at an expiry of rto, next to the greatest ones.
pub(crate) fn growth(out: &mut Sheet, scene: &Scene, it: Expiring) {
    let Extras::Two(cwnd, ssthresh) = scene.named().extras else {
        return;
    };
    let endpoint = it.endpoint;
    let (most, highest) = greatest_values(endpoint, scene.moment());
    let (flight, backoffs) = (endpoint.flight(), endpoint.backoffs);
    out.say(
        "the step chooses cwnd {} (the greatest is {}) and ssthresh {} (the greatest is {})",
        &[u64::from(cwnd), most, u64::from(ssthresh), highest],
    );
    out.say(
        "; in flight {}, expiries since a new acknowledgment {}\n",
        &[flight, u64::from(backoffs)],
    );
}

/// Why a timer can't expire at all.
pub(crate) fn off(out: &mut Sheet, scene: &Scene, it: Expiring) {
    match it.timer {
        Timer::Rto => {
            let (una, sent) = (it.endpoint.stream.snd_una, it.endpoint.snd_max());
            out.say(
                "the timer is off: SND.UNA {}, sent up to {}; a SYN, data or a FIN arms it\n",
                &[una, sent],
            );
        }
        Timer::Persist => persist_off(out, it.endpoint),
        Timer::Msl2 => {
            out.put("the timer is off: it is armed on entering TIME-WAIT\n");
            say_way_out(out, it.endpoint);
        }
        Timer::Giveup => giveup_off(out, it.endpoint),
        Timer::Pto => probes::off(out, scene, it),
    }
}

fn persist_off(out: &mut Sheet, endpoint: &Endpoint) {
    let (stream, wnd) = (&endpoint.stream, endpoint.window.snd_wnd);
    if endpoint.timers.persist_armed.is_none() {
        out.say(
            "the timer is off: a window of 0 arms it, and SND.WND is {}\n",
            &[u64::from(wnd)],
        );
        return say_sendable(out, endpoint);
    }
    out.put("the timer is armed, but ");
    if !endpoint.is_up() {
        return handshake(out, endpoint);
    }
    let (una, accepted) = (stream.snd_una, stream.accepted.end());
    let fin = if stream.ended {
        "the FIN after it"
    } else {
        "no FIN"
    };
    out.say(
        "there is nothing to probe with: SND.UNA {}, accepted from the program up to {}, and ",
        &[una, accepted],
    );
    out.put(fin);
    out.put("\n");
}

/// Writes that the handshake isn't done.
pub(crate) fn handshake(out: &mut Sheet, endpoint: &Endpoint) {
    let (una, next) = (endpoint.stream.snd_una, endpoint.rcv_nxt());
    out.say(
        "the handshake isn't done: SND.UNA {}, RCV.NXT {}; both have to be at least 1\n",
        &[una, next],
    );
}

fn giveup_off(out: &mut Sheet, endpoint: &Endpoint) {
    let (expiries, flight) = (endpoint.unanswered_expiries, endpoint.flight());
    let not = word_if(!endpoint.closed, "not ");
    let persist = if endpoint.timers.persist_armed.is_some() {
        "armed"
    } else {
        "off; one of the two is needed"
    };
    out.say(
        "expiries since a segment was processed: {}, three are needed; outstanding: {} positions, \
and the persist timer is ",
        &[u64::from(expiries), flight],
    );
    out.put(persist);
    out.put("\nor else FIN-WAIT-2 with a closed socket: the socket is ");
    out.put(not);
    out.put("closed\n");
}

/// The moment from which on a timer may expire.
pub(crate) fn early(out: &mut Sheet, scene: &Scene, it: Expiring) {
    let (timers, header, moment) = (&it.endpoint.timers, scene.header(), scene.moment());
    let (armed, time) = match it.timer {
        Timer::Rto => (timers.rto_armed, timers.rto),
        Timer::Persist => (timers.persist_armed, timers.rto),
        Timer::Msl2 | Timer::Giveup => (timers.msl_armed, header.msl.saturating_mul(2)),
        Timer::Pto => return probes::early(out, scene, it),
    };
    let (since, grain) = (armed.unwrap_or(0), header.grain);
    let earliest = since.saturating_add(time).saturating_sub(grain).max(since);
    out.say(
        "armed since {}, it runs for {} and may expire a clock tick ({}) early: ",
        &[since, time, grain],
    );
    out.say("from {} on; the step's moment is {}\n", &[earliest, moment]);
    match it.timer {
        Timer::Rto => say_unrestarted(out, scene, time),
        Timer::Persist | Timer::Msl2 | Timer::Giveup | Timer::Pto => {}
    }
}

/// From when on the timer, which runs for this time, could expire without a restart, if the step is then on time.
pub(crate) fn say_unrestarted(out: &mut Sheet, scene: &Scene, time: u64) {
    let Some(since) = scene.unrestarted() else {
        return;
    };
    let earliest = since
        .saturating_add(time)
        .saturating_sub(scene.header().grain);
    out.say(
        "if no new acknowledgment had restarted it, it would be armed since {} and could expire from {} on\n",
        &[since, earliest],
    );
}

/// Why fast recovery may not begin, or not with these windows, or may not be undone.
pub(crate) fn recovery(out: &mut Sheet, scene: &Scene, endpoint: &Endpoint, it: Recovery) {
    if it.change == RecoveryChange::IsUndone {
        return undoing::say_needed(out, scene, endpoint);
    }
    let profile = endpoint.control.profile;
    if !profile.counts_duplicates() {
        return out.put("in flight: 0; fast recovery begins only if something is in flight\n");
    }
    match scene.standing {
        Some(standing) => say_needed(out, scene, endpoint, standing),
        None => say_duplicates(out, endpoint),
    }
    if profile.bounds_windows() {
        recovery_windows(out, endpoint, it, scene.moment())
    } else {}
}

// How many duplicate acknowledgments arrived, where nothing else lets fast recovery begin.
fn say_duplicates(out: &mut Sheet, endpoint: &Endpoint) {
    let values = &endpoint.control.values;
    let (dup, flight) = (values.dup, endpoint.flight());
    let fast = if values.fast {
        "in fast recovery already"
    } else {
        "not in fast recovery"
    };
    out.say(
        "duplicate acknowledgments: {}, three are needed; in flight: {}, ",
        &[u64::from(dup), flight],
    );
    out.put(fast);
    out.put("\n");
}

// What lets fast recovery begin if both SYNs permitted SACK.
fn say_needed(out: &mut Sheet, scene: &Scene, endpoint: &Endpoint, standing: Standing) {
    if let Some(upto) = standing.recovers_upto {
        let una = endpoint.stream.snd_una;
        out.say(
            "the last recovery hasn't ended: it ends once all below {} is acknowledged, and SND.UNA is {}\n",
            &[upto, una],
        );
        return undoing::say_undoable(out, scene);
    }
    let (dup, flight) = (endpoint.control.values.dup, endpoint.flight());
    out.say(
        "duplicate acknowledgments: {}, three are needed unless something is lost; in flight: {}\n",
        &[u64::from(dup), flight],
    );
    if 2 < dup {
        return;
    }
    out.put("first in flight: ");
    say_loss(out, scene.header().grain, standing);
}

fn recovery_windows(out: &mut Sheet, endpoint: &Endpoint, it: Recovery, moment: u64) {
    let (cwnd, ssthresh) = (it.cwnd, it.ssthresh);
    let (most, highest) = greatest_recovery(endpoint, ssthresh, moment);
    out.say(
        "the step chooses ssthresh {} (the greatest is {}) and cwnd {} (the greatest with \
that ssthresh is {})\n",
        &[u64::from(ssthresh), highest, u64::from(cwnd), most],
    );
}
