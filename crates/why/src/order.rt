//! The rules of the order of lines.

use crate::scene::Scene;
use case_forms::{Event, Line, NamedLine, Timer};
use plain_words::Sheet;

/// A line that the trace doesn't have, or extra numbers that it can't have.
pub(crate) fn line_range(out: &mut Sheet, scene: &Scene) {
    let NamedLine { number, extras } = scene.named();
    match scene.line(number) {
        Some(line) => extras_off(out, scene, line, extras.count()),
        None => no_line(out, scene, number),
    }
}

fn extras_off(out: &mut Sheet, scene: &Scene, line: &Line, count: u8) {
    let wanted = wanted(line, scene.header().version.is_half());
    out.say("extra numbers in the step: {}; ", &[u64::from(count)]);
    out.put(wanted);
    out.put("\n");
}

fn no_line(out: &mut Sheet, scene: &Scene, number: u64) {
    let (count, first) = (scene.lines().len(), scene.header().first_event_line());
    out.say(
        "the trace has {} event lines, from line {} on; the step names line {}\n",
        &[count as u64, first, number],
    );
}

// The extra numbers of a line.
fn wanted(line: &Line, half: bool) -> &'static str {
    match &line.event {
        Event::CallBegin(_) => "a B line has none",
        Event::CallEnd(_) => "an E line has none",
        Event::Sent(..) => "an O line has 1, the number of the built segment that it shows",
        Event::Came(..) if half => "an I line of a half case has none",
        Event::Came(..) => "an I line has 1, the number of the O line that it copies",
        Event::Expired(_, _, _, Timer::Rto) => "a T line of rto has 2, cwnd and ssthresh",
        Event::Expired(..) => "a T line of any timer but rto has none",
    }
}

/// A line that was used before.
pub(crate) fn line_again(out: &mut Sheet, scene: &Scene) {
    let number = scene.named().number;
    let step = scene.used_by(number).unwrap_or(0);
    out.say(
        "line {} was already used by line {} of the witness\n",
        &[number, step],
    );
}

/// The first earlier line of the same thread that isn't used yet.
pub(crate) fn thread_order(out: &mut Sheet, scene: &Scene) {
    let number = scene.named().number;
    let Some(line) = scene.line(number) else {
        return;
    };
    let thread = line.thread;
    let earlier = earlier_line(scene, number, thread);
    out.say(
        "line {} of the same thread {} comes first and isn't used yet\n",
        &[earlier, u64::from(thread)],
    );
}

// The first line of a thread before a line that isn't used yet; 0 if there is none.
fn earlier_line(scene: &Scene, number: u64, thread: u32) -> u64 {
    for line in scene.lines() {
        if line.number < number && line.thread == thread && scene.used_by(line.number).is_none() {
            return line.number;
        }
    }
    0
}

/// The moment of the step, next to that of the step before it.
pub(crate) fn moment_falls(out: &mut Sheet, scene: &Scene) {
    let (moment, last) = (scene.moment(), scene.last_moment());
    out.say(
        "the step's moment is {}, that of the step before is {}\n",
        &[moment, last],
    );
}

/// When a line may be used.
pub(crate) fn moment_off(out: &mut Sheet, scene: &Scene) {
    let Some(line) = scene.line(scene.named().number) else {
        return;
    };
    let (moment, from, skew) = (scene.moment(), line.moment, scene.header().skew);
    let to = from.saturating_add(skew);
    out.say(
        "the step's moment is {}, the line may be used from {} to {} (its moment plus skew {})\n",
        &[moment, from, to, skew],
    );
}

/// The first line that had to be used before the step's moment.
pub(crate) fn overdue(out: &mut Sheet, scene: &Scene) {
    let (moment, skew) = (scene.moment(), scene.header().skew);
    let Some(line) = overdue_line(scene, skew, moment) else {
        return;
    };
    let (number, by) = (line.number, line.moment.saturating_add(skew));
    out.say(
        "line {} had to be used by {}; the step's moment is {}\n",
        &[number, by, moment],
    );
}

// The first line that is overdue at a moment.
fn overdue_line<'c>(scene: &Scene<'c>, skew: u64, moment: u64) -> Option<&'c Line> {
    for line in scene.lines() {
        if scene.used_by(line.number).is_none() && line.moment.saturating_add(skew) < moment {
            return Some(line);
        }
    }
    None
}

/// The event lines that no step used.
pub(crate) fn unplaced(out: &mut Sheet, scene: &Scene) {
    let (steps, all) = (scene.before.len(), scene.lines().len());
    let unused = all.saturating_sub(scene.used.len());
    out.say(
        "the witness has {} steps; unused event lines: {} of {}, and this is the first\n",
        &[steps as u64, unused as u64, all as u64],
    );
}
