//! The limits: what may be dropped or discarded, and how often something is sent.

use crate::late::describe_touched;
use crate::scene::{Building, Object, Scene};
use crate::timestamps::not_outdated;
use case_forms::{Label, TakeChoice};
use duties::earliest_credit;
use endpoint_state::Endpoint;
use plain_words::Sheet;
use spec_duties::Owed;
use spec_tcp::Arrived;

// The choice with which a segment may be processed if it may be with any.
const LEAST: TakeChoice = TakeChoice {
    cwnd: 0,
    keep: false,
    sample: false,
};

/// Why the segment of a line may not be dropped.
pub(crate) fn dropped(out: &mut Sheet, scene: &Scene) {
    let Some(Label::K { host, line }) = scene.label() else {
        return;
    };
    let taken = scene
        .world
        .admits_taking(*host, scene.moment(), *line, LEAST);
    out.put(if taken.is_ok() {
        "processing it would break no rule, so it may not be dropped\n"
    } else {
        "answering it with a reset would break no rule, so it may not be dropped\n"
    });
    match scene.world.waiting(*host, *line) {
        Some(m) => not_outdated(out, scene, m),
        None => {}
    }
}

/// What is next in order, and where the receive window ends.
pub(crate) fn discarded(out: &mut Sheet, endpoint: &Endpoint, m: &Arrived) {
    let (first, length) = (m.pos(), m.length());
    let (next, edge) = (endpoint.rcv_nxt(), endpoint.window.rcv_adv);
    out.put("it occupies ");
    out.show(&length);
    out.say(
        " positions, from {} on; {} is next in order and inside the window, which \
ends before {}, and the step doesn't keep it\n",
        &[first, next, edge],
    );
}

/// Where the segment begins, and up to where data was sent again already.
pub(crate) fn resent(out: &mut Sheet, scene: &Scene, it: Building) {
    let Some(Owed { again, .. }) = owed_by_touched(scene) else {
        return;
    };
    out.say(
        "it begins at {}, and again is {}: all positions below that were sent again already\n",
        &[it.plan.pos, again],
    );
}

/// For how many segments an acknowledgment may still be sent.
pub(crate) fn ack_excess(out: &mut Sheet, scene: &Scene) {
    describe_touched(out, scene);
    if scene.header().version.says_sender() {
        return credits_left(out, scene);
    }
    let Some(Owed { answers, .. }) = owed_by_touched(scene) else {
        return;
    };
    out.say(
        "answers is {}: as many acknowledgments were sent as segments came\n",
        &[u64::from(answers)],
    );
}

// The same in version 6: from which moment on it needs a credit.
fn credits_left(out: &mut Sheet, scene: &Scene) {
    let (Object::Sent(_, number, _), Some(slack)) = (scene.object(), scene.header().slack) else {
        return;
    };
    let Some(built) = scene.duties.built_since(number) else {
        return;
    };
    let from = earliest_credit(slack, built);
    out.say(
        "segment {} was built at {}; it needs a credit that the endpoint earned at {} or later, and 0 \
are left\n",
        &[u64::from(number), built, from],
    );
}

/// From which position on a round trip is to be measured.
pub(crate) fn sample_due(out: &mut Sheet, scene: &Scene) {
    describe_touched(out, scene);
    let Some(id) = scene.touched else {
        return;
    };
    let timed = scene.duties.strict_by(id.host, id.number).timed;
    out.say(
        "a round trip is to be measured of what was built from position {} on, the segment acknowledges such a \
position, which was built once, and sample is 0\n",
        &[timed],
    );
}

// What the endpoint owes that the step touches.
fn owed_by_touched(scene: &Scene) -> Option<Owed> {
    let id = scene.touched?;
    Some(scene.duties.owed_by(id.host, id.number))
}
