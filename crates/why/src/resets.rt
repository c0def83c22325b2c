//! A reset that is built, and the segment that it answers.

use crate::scene::{Object, Scene};
use case_forms::{Event, Host, Label, SegmentPlan, Step};
use plain_words::Sheet;
use segment::{Flag, Segment};
use std::fmt;

// The numbers of a reset.
#[derive(Clone, Copy, PartialEq, Eq)]
struct ResetNumbers {
    seq: u32,
    /// None: it has no ACK.
    ack: Option<u32>,
}

impl ResetNumbers {
    // The numbers that a segment has.
    fn of(seg: &Segment) -> ResetNumbers {
        ResetNumbers {
            seq: seg.seq.0,
            ack: if seg.has(Flag::Ack) {
                Some(seg.ack.0)
            } else {
                None
            },
        }
    }

    // The numbers of a reset that answers a segment (RFC 9293, 3.10.7.1).
    fn answering(seg: &Segment) -> ResetNumbers {
        if seg.has(Flag::Ack) {
            return ResetNumbers {
                seq: seg.ack.0,
                ack: None,
            };
        }
        let flags = u32::from(seg.has(Flag::Syn)).saturating_add(u32::from(seg.has(Flag::Fin)));
        let length = flags.saturating_add(u32::try_from(seg.payload.len()).unwrap_or(0));
        ResetNumbers {
            seq: 0,
            ack: Some(seg.seq.0.wrapping_add(length)),
        }
    }
}

impl fmt::Display for ResetNumbers {
    fn fmt<W: fmt::Write>(&self, f: &mut fmt::Formatter<W>) -> fmt::Result {
        let seq = self.seq;
        match self.ack {
            Some(ack) => write!(f, "sequence number {seq} and acknowledgment number {ack}"),
            None => write!(f, "sequence number {seq} and no ACK"),
        }
    }
}

// A segment of the trace, and the number of its line.
#[derive(Clone, Copy)]
struct Shown<'c> {
    line: u64,
    seg: &'c Segment,
}

/// Writes which segment came before the reset that the step builds, and what it asks for, if it asks for no reset or
/// for another one.
pub(crate) fn say_reset(out: &mut Sheet, scene: &Scene) {
    if let Some(reset) = answered_reset(scene) {
        out.say(
            "the last segment that arrived at these ports, in line {}, is a reset\n",
            &[reset],
        );
        return;
    }
    match wrong_reset(scene) {
        Some((asking, reset)) => say_numbers(out, scene, asking, reset),
        None => {}
    }
}

fn say_numbers(out: &mut Sheet, scene: &Scene, asking: Shown, reset: Shown) {
    let (line, wanted) = (asking.line, ResetNumbers::answering(asking.seg));
    let section = match scene.object() {
        Object::Building(it) if !it.endpoint.state.is_closed() => "3.10.7",
        _ => "3.10.7.1",
    };
    out.say("the segment of line {} asks for a reset with ", &[line]);
    out.show(&wanted);
    out.put(" (RFC 9293, ");
    out.put(section);
    out.put("); ");
    let (line, numbers) = (reset.line, ResetNumbers::of(reset.seg));
    out.say("line {} has ", &[line]);
    out.show(&numbers);
    out.put("\n");
}

/// The line of the reset that arrived before the step builds one at the same ports. None: it builds none, or the last
/// segment that arrived there is no reset.
pub(crate) fn answered_reset(scene: &Scene) -> Option<u64> {
    let (host, plan) = built_reset(scene)?;
    let (last, _) = last_emptied(scene, host, plan)?;
    last.seg.has(Flag::Rst).then_some(last.line)
}

/// Whether the reset that the step builds has other numbers than those that a segment before it asks for.
pub(crate) fn has_wrong_numbers(scene: &Scene) -> bool {
    wrong_reset(scene).is_some()
}

// The segment that asks for a reset, and the reset with other numbers that the step builds.
fn wrong_reset<'c>(scene: &Scene<'c>) -> Option<(Shown<'c>, Shown<'c>)> {
    let (host, plan) = built_reset(scene)?;
    let (asking, asks) = last_emptied(scene, host, plan)?;
    let reset = next_reset(scene, host, plan)?;
    let is_wrong = ResetNumbers::answering(asking.seg) != ResetNumbers::of(reset.seg);
    if is_wrong && asks && !asking.seg.has(Flag::Rst) {
        Some((asking, reset))
    } else {
        None
    }
}

// The reset that the step builds.
fn built_reset<'c>(scene: &Scene<'c>) -> Option<(Host, &'c SegmentPlan)> {
    match scene.label()? {
        Label::M { host, plan } if plan.flags.rst => Some((*host, plan)),
        _ => None,
    }
}

// The last segment for a plan's ports that left the inbox of a host before the step, and whether it asks for a reset if
// it isn't one itself: it was answered, or dropped although nobody is there.
fn last_emptied<'c>(
    scene: &Scene<'c>,
    host: Host,
    plan: &SegmentPlan,
) -> Option<(Shown<'c>, bool)> {
    for step in scene.before.iter().rev() {
        if let Some((at, line, asks)) = emptied(step, is_nobody(scene, host, plan))
            && at == host
            && let Some(seg) = arrived(scene, line)
            && seg.dst == plan.lport
            && seg.src == plan.rport
        {
            return Some((Shown { line, seg }, asks));
        }
    }
    None
}

// The host and the line of the segment that a step processes, drops or answers, and whether it asks for a reset.
fn emptied(step: &Step, is_nobody: bool) -> Option<(Host, u64, bool)> {
    match &step.label {
        Label::T { host, line, .. } => Some((*host, *line, false)),
        Label::K { host, line } => Some((*host, *line, is_nobody)),
        Label::R { host, line } => Some((*host, *line, true)),
        Label::L(_) | Label::D { .. } | Label::M { .. } | Label::F { .. } => None,
    }
}

// Whether a host has neither an open endpoint nor a listener at a plan's ports.
fn is_nobody(scene: &Scene, host: Host, plan: &SegmentPlan) -> bool {
    let is_open = match scene.endpoint(host, plan.lport, plan.rport) {
        Some(endpoint) => !endpoint.state.is_closed(),
        None => false,
    };
    !is_open && !scene.world.body(host).is_listening(plan.lport)
}

// The segment that arrives with a line.
fn arrived<'c>(scene: &Scene<'c>, line: u64) -> Option<&'c Segment> {
    match &scene.line(line)?.event {
        Event::Came(_, wire) => Some(&wire.seg),
        _ => None,
    }
}

// The next segment that a host sends from a plan's ports, if it is a reset.
fn next_reset<'c>(scene: &Scene<'c>, host: Host, plan: &SegmentPlan) -> Option<Shown<'c>> {
    for line in scene.lines() {
        if let Event::Sent(sender, wire) = &line.event
            && *sender == host
            && wire.seg.src == plan.lport
            && wire.seg.dst == plan.rport
            && scene.used_by(line.number).is_none()
        {
            let shown = Shown {
                line: line.number,
                seg: &wire.seg,
            };
            return shown.seg.has(Flag::Rst).then_some(shown);
        }
    }
    None
}
