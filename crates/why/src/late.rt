//! The rules of duties that are late, at a step or after the last one.

use crate::calls::{describe_thread, giver};
use crate::described::{describe, describe_ports};
use crate::scene::{Object, Scene};
use crate::sendable::say_sendable;
use case_forms::Label;
use duties::{answer_due, is_late, unanswered_since};
use plain_words::{Sheet, Shown, about};
use replayed::{Held, Refusal};
use spec_duties::{OpenCall, Waiting};
use verdict::Rule;

/// Writes which duty is late after the last step, if one is, and the endpoint whose it is.
pub(crate) fn describe_end(out: &mut Sheet, scene: &Scene) {
    let Refusal::Late { rule, .. } = scene.refusal() else {
        return;
    };
    let (moment, refused) = (scene.last_moment(), about(rule).refused);
    out.say(
        "no step is refused, and each line is placed\nby the moment of the last step, {}, a duty is \
late: ",
        &[moment],
    );
    out.show(&refused);
    out.put("\n");
    match (scene.debtor, scene.held) {
        (Some(debtor), _) => describe(out, scene, debtor.id),
        (None, Some(held)) => describe_builder(out, scene, held),
        (None, None) => {}
    }
}

// Writes the endpoint that built a segment, unless the segment is a reset that answered another one.
fn describe_builder(out: &mut Sheet, scene: &Scene, held: Held) {
    match scene.built_by(held.number) {
        Some(built) => match &built.step.label {
            Label::M { host, plan } => describe_ports(out, scene, *host, plan.lport, plan.rport),
            _ => {}
        },
        None => {}
    }
}

/// Writes the endpoint that the step touches, if that is the effect of a call or a segment that is sent. For any other
/// step it was written before.
pub(crate) fn describe_touched(out: &mut Sheet, scene: &Scene) {
    let is_unwritten = matches!(scene.object(), Object::Effect(..) | Object::Sent(..));
    match scene.touched {
        Some(id) if is_unwritten => describe(out, scene, id),
        _ => {}
    }
}

/// Since when the segment waits in the inbox, and when it was due.
pub(crate) fn waiting(out: &mut Sheet, scene: &Scene) {
    let line = waiting_line(scene);
    let Some(since) = scene.duties.waiting_since(line) else {
        return;
    };
    out.say(
        "the segment of line {} has waited since {}; ",
        &[line, since],
    );
    say_due(out, scene, "it", u128::from(since));
}

// The line of the segment that waits; 0 if none does.
fn waiting_line(scene: &Scene) -> u64 {
    match (scene.refusal(), scene.label()) {
        (Refusal::Late { line, .. }, _) => line,
        (_, Some(Label::T { line, .. } | Label::K { line, .. } | Label::R { line, .. })) => *line,
        _ => 0,
    }
}

/// When the segment was built that the step sends, and when it was due.
pub(crate) fn built(out: &mut Sheet, scene: &Scene, number: u32) {
    describe_touched(out, scene);
    let Some(since) = scene.duties.built_since(number) else {
        return;
    };
    out.say("segment {} was built at {}; ", &[u64::from(number), since]);
    say_due(out, scene, "it", u128::from(since));
}

/// The first segment that was built and never sent, and when it was due.
pub(crate) fn never_sent(out: &mut Sheet, scene: &Scene) {
    match scene.held {
        Some(held) => {
            say_held(out, scene, held);
            out.put("; ");
            say_due(out, scene, "it", held.late.due);
        }
        None => {}
    }
}

// Writes which step built a segment, and whether it was sent.
fn say_held(out: &mut Sheet, scene: &Scene, held: Held) {
    let (number, since) = (held.number, held.built);
    if let Some(built) = scene.built_by(number) {
        out.say("witness line {}: ", &[built.line]);
        out.show(&Shown(built.text));
        out.put("\n");
    }
    out.say(
        "segment {} was built there at {}",
        &[u64::from(number), since],
    );
    match scene.step {
        Some(_) => out.put(", and is sent by the step"),
        None => out.put(", and never sent"),
    }
}

/// What an endpoint owes, and when it was due.
pub(crate) fn owed(out: &mut Sheet, scene: &Scene) {
    describe_touched(out, scene);
    match (scene.debtor, scene.held) {
        (Some(debtor), _) => {
            say_due(out, scene, debtor.debt.what, debtor.debt.due);
            say_open(out, scene, debtor.debt.rule);
        }
        (None, Some(held)) => brought(out, scene, held),
        (None, None) => {}
    }
}

// The acknowledgment that a built segment brings, and when it was due.
fn brought(out: &mut Sheet, scene: &Scene, held: Held) {
    say_held(out, scene, held);
    let since = held.late.since;
    out.say(
        "; it brings an acknowledgment that is owed since {}\n",
        &[since],
    );
    say_due(out, scene, "an acknowledgment", held.late.due);
}

/// Since when a call need not wait any more, and when its answer was due.
pub(crate) fn answer(out: &mut Sheet, scene: &Scene) {
    let Some((thread, since)) = late_answer(scene) else {
        return;
    };
    if scene.step.is_none() {
        describe_thread(out, scene, thread);
    }
    out.say(
        "the answer to thread {} is owed since {}; ",
        &[u64::from(thread), since],
    );
    let due = answer_due(Some(since)).unwrap_or(0);
    say_due(out, scene, "it", due);
}

// The first thread whose answer is late, if it is that of the step, and since when it is owed.
fn late_answer(scene: &Scene) -> Option<(u32, u64)> {
    let slack = scene.header().slack?;
    let moment = match scene.step {
        Some(step) => step.moment,
        None => scene.last_moment(),
    };
    for entry in scene.duties.open_calls() {
        let thread = u32::try_from(entry.0).ok()?;
        if let Some(call) = entry.1
            && is_concerned(scene, thread)
            && let Some(since) = answer_since(scene, call)
            && is_late(slack, moment, answer_due(Some(since)))
        {
            return Some((thread, since));
        }
    }
    None
}

// Whether the step answers the call of a thread or ends it, or all steps are done.
fn is_concerned(scene: &Scene, thread: u32) -> bool {
    match scene.object() {
        Object::Effect(other, _) | Object::End(other, _) => thread == other,
        _ => scene.step.is_none(),
    }
}

// Since when the answer to a call is owed. None: it isn't.
fn answer_since(scene: &Scene, call: OpenCall) -> Option<u64> {
    let OpenCall::Waits {
        socket,
        awaited,
        ..
    } = call
    else {
        return scene.duties.answered_since(call);
    };
    let host = giver(scene.world, socket)?;
    let waiting = Waiting {
        host,
        target: scene.world.body(host).target(socket)?,
        awaited,
    };
    unanswered_since(scene.duties.ready_for(waiting), call)
}

// Writes what could be sent, if the duty is that of a window that was closed.
fn say_open(out: &mut Sheet, scene: &Scene, rule: Rule) {
    match scene.concerned() {
        Some(endpoint) if matches!(rule, Rule::ProbeLate | Rule::ResendLate) => {
            say_sendable(out, endpoint);
        }
        _ => {}
    }
}

// When something was due, without and with the slack, and the moment that is too late.
fn say_due(out: &mut Sheet, scene: &Scene, what: &str, due: u128) {
    let slack = u128::from(scene.header().slack.unwrap_or(0));
    let latest = due.saturating_add(slack);
    out.put(what);
    out.put(" was due by ");
    out.show(&due);
    out.put(", with the slack by ");
    out.show(&latest);
    out.put("; ");
    match scene.step {
        Some(step) => out.say("the step's moment is {}\n", &[step.moment]),
        None => out.say("the last step's moment is {}\n", &[scene.last_moment()]),
    }
}
