//! The rules of building segments.

use crate::losses::say_kept;
use crate::probes::say_probe;
use crate::scene::{Building, Scene};
use crate::states::say_way_out;
use crate::timers::say_unrestarted;
use case_forms::{Flags, POSITIONS, SegmentPlan};
use endpoint_state::{Endpoint, World};
use plain_words::{FlagWords, Sheet, word_if};
use replayed::{Reason, end_of, has_room, old_data_reason};
use seqno::Word;
use verdict::Rule;
use window_rules::offered_edge;

/// The length of the segment, and SMSS.
pub(crate) fn size(out: &mut Sheet, it: Building) {
    let (len, smss) = (it.plan.len, it.endpoint.control.values.smss);
    out.say(
        "it has {} bytes, SMSS is {}\n",
        &[u64::from(len), u64::from(smss)],
    );
}

/// The end of new bytes, and the offered edge.
pub(crate) fn offered(out: &mut Sheet, Building { plan, endpoint, .. }: Building) {
    let (una, wnd) = (endpoint.stream.snd_una, endpoint.window.snd_wnd);
    if una >= POSITIONS {
        return;
    }
    let (end, due) = (end_of(plan), endpoint.probe_due);
    let edge = offered_edge(una, wnd, due);
    let probe = word_if(due, " (a probe of one byte is due)");
    out.say("new bytes end at {}, the offered edge is {} ", &[end, edge]);
    out.say("= SND.UNA {} + SND.WND {}", &[una, u64::from(wnd)]);
    out.put(probe);
    out.put("\n");
}

/// The end of the segment's bytes, which are `what`, and the congestion edge.
pub(crate) fn congestion(out: &mut Sheet, what: &str, Building { plan, endpoint, .. }: Building) {
    let (una, control) = (endpoint.stream.snd_una, &endpoint.control);
    if una >= POSITIONS {
        return;
    }
    let (cwnd, smss) = (control.values.cwnd, control.values.smss);
    let (end, edge) = (end_of(plan), control.send_edge(una));
    out.put(what);
    out.say(" end at {}, the congestion edge ", &[end]);
    out.say(
        "is {} = SND.UNA {} + cwnd {}",
        &[edge, una, u64::from(cwnd)],
    );
    if edge > una.saturating_add(u64::from(cwnd)) {
        out.say(" + two segments of {}\n", &[u64::from(smss)]);
    } else {
        out.put("\n");
    }
}

/// Where the segment begins, and what may be sent.
pub(crate) fn old_data(out: &mut Sheet, scene: &Scene, it: Building) {
    let (plan, endpoint) = (it.plan, it.endpoint);
    let (pos, end, una) = (plan.pos, end_of(plan), endpoint.stream.snd_una);
    let (sent, recover) = (endpoint.snd_max(), endpoint.recover);
    let fin = word_if(plan.flags.fin, " with a FIN");
    out.say("it begins at {} and ends at {}", &[pos, end]);
    out.put(fin);
    match old_data_reason(endpoint, plan) {
        Reason::Gap { .. } => out.say(": a gap after {}, where the sent data ends\n", &[sent]),
        Reason::Acknowledged { .. } => {
            out.say(
                ": below SND.UNA {}, so it is acknowledged; an empty segment may begin one below\n",
                &[una],
            );
        }
        Reason::Again { .. } | Reason::Beyond { .. } | Reason::Late(_) | Reason::Other => {
            out.say("; sent up to {}", &[sent]);
            if let Some(standing) = scene.standing {
                out.put("\n");
                say_kept(out, scene.header().grain, standing);
                say_probe(out, it, standing);
            } else if scene.header().version.says_sender() {
                out.put("; no expiry and no fast recovery permits all of it to be sent again\n");
            } else {
                out.say(
                    ", may be retransmitted up to {} (raised by an expiry or fast recovery)\n",
                    &[recover],
                );
            }
            timer_due(out, endpoint, scene.moment());
            say_unrestarted(out, scene, endpoint.timers.rto);
        }
    }
}

// When the retransmission timer is due, and how far that is from the step's moment.
fn timer_due(out: &mut Sheet, endpoint: &Endpoint, moment: u64) {
    let Some(since) = endpoint.timers.rto_armed else {
        return out.put("the retransmission timer is off\n");
    };
    let rto = endpoint.timers.rto;
    let due = since.saturating_add(rto);
    out.say(
        "the retransmission timer is due at {} = {} + RTO {}, ",
        &[due, since, rto],
    );
    let (distance, side) = if moment < due {
        (due - moment, "after this step")
    } else {
        (
            moment - due,
            "before this step: the trace may lack its expiry",
        )
    };
    out.say("{} us ", &[distance]);
    out.put(side);
    out.put("\n");
}

/// Where the segment's bytes begin and end, and which bytes may be sent.
pub(crate) fn payload_range(out: &mut Sheet, Building { plan, endpoint, .. }: Building) {
    let (pos, len, end) = (plan.pos, plan.len, end_of(plan));
    out.say(
        "it begins at {} and has {} bytes, up to {}",
        &[pos, u64::from(len), end],
    );
    if plan.flags.syn {
        return out.put("; a SYN is at 0 and has no bytes\n");
    }
    if plan.flags.rst {
        return out.put("; a reset has no bytes\n");
    }
    let fin = word_if(plan.flags.fin, ", and a FIN there");
    let accepted = endpoint.stream.accepted.end();
    let ended = if endpoint.stream.ended {
        "has ended, with a FIN there"
    } else {
        "hasn't ended: no FIN may be sent"
    };
    out.put(fin);
    out.say(
        "; sends accepted the bytes from 1 up to {}, and sending ",
        &[accepted],
    );
    out.put(ended);
    out.put("\n");
}

/// Whether the segment has ACK, and whether the peer's SYN was received.
pub(crate) fn ack_field(out: &mut Sheet, Building { plan, endpoint, .. }: Building) {
    let no = word_if(!plan.flags.ack, "no ");
    let not = word_if(endpoint.rcv_nxt() == 0, "n't");
    out.put("it has ");
    out.put(no);
    out.put("ACK, and the peer's SYN was");
    out.put(not);
    out.put(" received\n");
}

/// The initial sequence numbers that were given.
pub(crate) fn iss(out: &mut Sheet, Building { plan, endpoint, .. }: Building) {
    say_given(out, endpoint.iss);
    let with = if plan.flags.syn { "with" } else { "without" };
    match plan.iss {
        Some(Word(iss)) => {
            out.say("and the step gives {}, ", &[u64::from(iss)]);
            out.put(with);
            out.put(" a SYN\n");
        }
        None => {
            out.put("and the step gives none, ");
            out.put(with);
            out.put(" a SYN\n");
        }
    }
}

// Writes the initial sequence number that was given before.
fn say_given(out: &mut Sheet, iss: Option<Word>) {
    match iss {
        Some(Word(iss)) => out.say(
            "the initial sequence number {} was given before, ",
            &[u64::from(iss)],
        ),
        None => out.put("no initial sequence number was given yet, "),
    }
}

/// What the state of the endpoint lets it build.
pub(crate) fn state(out: &mut Sheet, world: &World, it: Building) {
    let (flags, len) = (FlagWords(it.plan.flags), it.plan.len);
    let a = if it.endpoint.reset_due { "a" } else { "no" };
    let not = word_if(!it.endpoint.closed, "not ");
    out.put("the segment: ");
    out.show(&flags);
    out.say("with {} bytes; ", &[u64::from(len)]);
    out.put(a);
    out.put(" reset is due, and the socket was ");
    out.put(not);
    out.put("closed\n");
    may_build(out, world, it);
    if is_of_another_state(it) {
        say_way_out(out, it.endpoint)
    } else {}
}

/// Whether it isn't a reset, and may be built in another state than that of its endpoint.
pub(crate) fn is_of_another_state(it: Building) -> bool {
    let state = it.endpoint.state;
    !it.plan.flags.rst && !state.is_time_wait() && !state.is_closed()
}

const NO_FLAGS: Flags = Flags {
    ack: false,
    rst: false,
    syn: false,
    fin: false,
};

const SYN: Flags = Flags {
    syn: true,
    ..NO_FLAGS
};

const SYN_ACK: Flags = Flags { ack: true, ..SYN };

const ACK: Flags = Flags {
    ack: true,
    ..NO_FLAGS
};

const FIN_ACK: Flags = Flags { fin: true, ..ACK };

const RST: Flags = Flags {
    rst: true,
    ..NO_FLAGS
};

// Kinds of segments: the name, the flags, and how many bytes.
const KINDS: [(&str, Flags, u16); 6] = [
    (" SYN", SYN, 0),
    (" SYN ACK", SYN_ACK, 0),
    (" ACK", ACK, 0),
    (" ACK with bytes", ACK, 1),
    (" FIN ACK", FIN_ACK, 0),
    (" RST", RST, 0),
];

// Writes which kinds of segments may be built at these ports.
fn may_build(out: &mut Sheet, world: &World, it: Building) {
    out.put("allowed there:");
    let start = out.len();
    for (name, flags, len) in &KINDS {
        if allows(world, it, *flags, *len) {
            out.put(word_if(start < out.len(), " or"));
            out.put(name);
        }
    }
    out.put(word_if(start == out.len(), " no segment"));
    out.put("\n");
}

// Whether the state of the endpoint lets it build a segment of this kind.
fn allows(world: &World, it: Building, flags: Flags, len: u16) -> bool {
    let plan = SegmentPlan {
        pos: 0,
        len,
        flags,
        ..*it.plan
    };
    has_room(world)
        && !matches!(
            world.admits_making(it.host, &plan),
            Err(Rule::NoEndpoint | Rule::State)
        )
}
