//! What usually causes a step to break a rule, by what is known at the step.

use crate::arrivals::acknowledges_more;
use crate::builds::is_of_another_state;
use crate::losses::{is_known_of_beginning, is_known_of_kept};
use crate::other_windows::say_fitting;
use crate::probes::{is_known_of_probe, is_tail};
use crate::scene::{Building, Expiring, Object, Processing, Scene};
use crate::sendable::sendable_bytes;
use crate::undoing::{is_known_of_undoing, may_be_undone};
use crate::{resets, wire};
use case_forms::{Call, Extras, Judged, RecoveryChange, Timer, Version, Wire};
use endpoint::{acknowledges, greatest_values};
use endpoint_state::Endpoint;
use plain_words::{Known, Sheet, about};
use replayed::{Reason, end_of, old_data_reason};
use spec_tcp::Emission;
use verdict::Rule;

// The retransmission timeout before the first sample (RFC 6298, 2.1).
const FIRST_RTO: u64 = 1_000_000;

/// Where the segments of a trace come from.
#[derive(Clone, Copy)]
pub enum Origin {
    /// They were captured, perhaps on a network.
    Captured,
    /// They were sent over a simulated wire, which records each one as its stack sends it.
    Simulated,
}

/// Writes the usual causes, after the other windows that the segment would fit.
pub(crate) fn say_cause(out: &mut Sheet, scene: &Scene, rule: Rule, origin: Origin) {
    say_fitting(out, scene, rule);
    let about = about(rule);
    let (usual, captured) = match about.special.iter().find(|known| is_known(scene, **known)) {
        Some(known) => (known.usual(), known.captured()),
        None => (about.usual, about.captured),
    };
    out.put("usually: ");
    out.put(usual);
    out.put("\n");
    match origin {
        Origin::Captured if !captured.is_empty() => {
            out.put("in a capture: ");
            out.put(captured);
            out.put("\n");
        }
        Origin::Captured | Origin::Simulated => {}
    }
}

// Whether this is known at the step.
fn is_known(scene: &Scene, known: Known) -> bool {
    let is_none = matches!(scene.header().congestion, Judged::NoControl);
    match scene.object() {
        Object::Effect(thread, _) => is_call(scene.world.pending_call(thread), known),
        Object::Building(it) => is_known_of_built(scene, it, is_none, known),
        Object::Sent(made, _, wire) => is_ack(scene.header().version, made, wire, known),
        Object::Expiring(it) => is_known_of_timer(scene, it, known),
        Object::Processing(it) => match known {
            Known::NothingNew => gives_no_sample(scene, it),
            Known::NotDeflated => it.endpoint.control.values.fast && !gives_no_sample(scene, it),
            _ => known == Known::Processing,
        },
        Object::Listening(..) => matches!(known, Known::Processing | Known::NothingNew),
        Object::Recovering(endpoint, it) => match it.change {
            RecoveryChange::Begins => is_known_of_recovery(scene, endpoint, is_none, known),
            RecoveryChange::IsUndone => is_known_of_undoing(scene, endpoint, known),
        },
        Object::Other if scene.builds() => is_known_of_reset(scene, known),
        Object::Other => match known {
            Known::OtherBytes => wire::has_other_bytes(scene),
            Known::NeverSent => scene.step.is_none(),
            _ => false,
        },
        Object::Answered(_, m) => known == Known::ResetAnswered && m.flags.rst,
        Object::End(..) | Object::Came(..) => false,
    }
}

// Whether this is known where fast recovery begins. `is_none`: the level is `none`.
fn is_known_of_recovery(scene: &Scene, endpoint: &Endpoint, is_none: bool, known: Known) -> bool {
    match scene.standing {
        Some(standing) if known == Known::NotUndone => {
            standing.recovers_upto.is_some() && may_be_undone(scene)
        }
        Some(standing) => is_known_of_beginning(endpoint.control.values.dup, standing, known),
        None => known == Known::NothingOutstanding && is_none,
    }
}

// Whether this is known of a segment that is built where there may be no endpoint.
fn is_known_of_reset(scene: &Scene, known: Known) -> bool {
    match known {
        Known::ResetAnswered => resets::answered_reset(scene).is_some(),
        Known::ResetNumber => resets::has_wrong_numbers(scene),
        _ => known == Known::Building,
    }
}

// Whether this is known of a timer that expires.
fn is_known_of_timer(scene: &Scene, it: Expiring, known: Known) -> bool {
    match it.timer {
        Timer::Rto => is_known_of_rto(scene, it.endpoint, known),
        Timer::Persist => match known {
            Known::PersistOpen => 0 < sendable_bytes(it.endpoint),
            _ => matches!(known, Known::PersistOff | Known::PersistEarly),
        },
        Timer::Msl2 => matches!(known, Known::Msl2Off | Known::Msl2Early),
        Timer::Giveup => known == Known::GiveupOff,
        Timer::Pto => is_known_of_probe(scene, it, known),
    }
}

// Whether this is known of a retransmission timer that expires.
fn is_known_of_rto(scene: &Scene, endpoint: &Endpoint, known: Known) -> bool {
    let (timers, header, moment) = (&endpoint.timers, scene.header(), scene.moment());
    let armed = timers.rto_armed.unwrap_or(moment);
    let ran = moment.saturating_sub(armed).saturating_add(header.grain);
    match known {
        Known::NotRestarted => scene.unrestarted().is_some(),
        Known::NotDoubled => 0 < endpoint.backoffs && before_backoffs(endpoint) <= ran,
        Known::Unsampled => timers.srtt.is_none() && ran < FIRST_RTO,
        Known::BelowMinimum => timers.srtt.is_some() && ran < header.minrto,
        Known::ThresholdKept => keeps_threshold(scene, endpoint),
        Known::NotReduced => !keeps_threshold(scene, endpoint),
        _ => false,
    }
}

// The retransmission timeout before the expiries since the last new acknowledgment doubled it.
fn before_backoffs(endpoint: &Endpoint) -> u64 {
    endpoint.timers.rto >> endpoint.backoffs.min(63)
}

// Whether the step chooses an ssthresh that is too great.
fn keeps_threshold(scene: &Scene, endpoint: &Endpoint) -> bool {
    match scene.named().extras {
        Extras::Two(_, ssthresh) => {
            greatest_values(endpoint, scene.moment()).1 < u64::from(ssthresh)
        }
        Extras::Bare | Extras::One(_) => false,
    }
}

// Whether a segment doesn't acknowledge anything by which a round trip could be measured.
fn gives_no_sample(scene: &Scene, it: Processing) -> bool {
    match scene.as_read(it.endpoint, it.m) {
        Some(m) => !acknowledges_more(it.endpoint, &m),
        None => false,
    }
}

fn is_call(call: Option<&Call>, known: Known) -> bool {
    let Some(call) = call else {
        return false;
    };
    match call {
        Call::Listen(_, _, _) => known == Known::Listen,
        Call::Connect(_, _, _) => known == Known::Open,
        Call::Accept(_) => known == Known::Accept,
        Call::Send(_, _) => known == Known::Send,
        Call::Recv(_, _) => known == Known::Receive,
        Call::Close(_) | Call::Abort(_) => known == Known::Close,
        Call::Await(_) => known == Known::Await,
        Call::Status(_) => known == Known::Status,
        Call::Shut(_) => false,
    }
}

// Whether this is known of a segment that an endpoint builds. `is_none`: the level is `none`.
fn is_known_of_built(scene: &Scene, it: Building, is_none: bool, known: Known) -> bool {
    match known {
        Known::NotDeflated | Known::ThresholdKept | Known::NotReduced => match scene.others {
            Some(others) => others.fitting(known, end_of(it.plan)).is_some(),
            None => false,
        },
        Known::ResetAnswered | Known::ResetNumber | Known::Building => {
            is_known_of_reset(scene, known)
        }
        Known::NotRestarted => scene.unrestarted().is_some(),
        Known::Reported
        | Known::SentTwice
        | Known::NotLostYet
        | Known::ProbeElsewhere
        | Known::ProbeAgain
        | Known::TailProbe
        | Known::NothingLater => match scene.standing {
            Some(standing) => is_known_of_kept(standing, is_tail(it), known),
            None => false,
        },
        _ => is_known_of(it, is_none, known),
    }
}

// The same for what the endpoint's values show.
fn is_known_of(it: Building, is_none: bool, known: Known) -> bool {
    let (endpoint, values) = (it.endpoint, &it.endpoint.control.values);
    match known {
        Known::OtherState => is_of_another_state(it),
        Known::LimitedTransmit => !values.fast && matches!(values.dup, 1 | 2),
        Known::FirstWindow => endpoint.stream.snd_una <= 1 && endpoint.backoffs == 0,
        Known::Avoiding => values.ssthresh <= values.cwnd,
        Known::TimeWait => endpoint.state.is_time_wait(),
        Known::Gap => matches!(old_data_reason(endpoint, it.plan), Reason::Gap { .. }),
        Known::Acknowledged => matches!(
            old_data_reason(endpoint, it.plan),
            Reason::Acknowledged { .. }
        ),
        Known::OutstandingAtNone => is_none && endpoint.is_up(),
        Known::SynAtNone => is_none && !endpoint.is_up(),
        Known::Oversized => values.smss < u32::from(it.plan.len),
        _ => false,
    }
}

// Whether a segment was sent with a higher, or a lower, acknowledgment number than it was built with.
fn is_ack(version: Version, made: &Emission, wire: &Wire, known: Known) -> bool {
    let seg = &wire.seg;
    let is_same = made.lport == seg.src && made.rport == seg.dst && made.seq == seg.seq;
    if !is_same || !made.flags.ack || acknowledges(version, seg.ack, made) {
        return false;
    }
    let ahead = seg.ack.0.wrapping_sub(made.ack_seq.0);
    if ahead <= u32::MAX / 2 {
        known == Known::HigherAck
    } else {
        known == Known::LowerAck
    }
}
