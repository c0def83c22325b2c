//! How many acknowledgments are sent.
//! `lib.rt` says why each function here is inlined.

ghost use Rattle.std.specs.Prelude.{◌≡◌};
ghost use Rattle.spec_duties.specs.Excess.{answers_after, is_arrival, is_excess, is_listen, is_mere_ack, one_more};

use case_forms::{SegmentPlan, State};
use spec_duties::{Event, View};

/// The greatest number of steps of a case.
const MOST_STEPS: u32 = 40_000_000;

/// One more, up to the greatest number of steps of a case.
#[inline(always)]
pub(crate) fn one_more(count: u32) -> u32
    ensures { result ≡ one_more count }
{
    count.saturating_add(1).min(MOST_STEPS)
}

#[inline(always)]
fn is_listen(state: State) -> bool
    ensures { result ≡ is_listen state }
{
    matches!(state, State::Listen)
}

/// Whether a segment acknowledges and does nothing else.
#[inline(always)]
pub(crate) fn is_mere_ack(plan: &SegmentPlan, before: &View, after: &View) -> bool
    ensures { result ≡ is_mere_ack plan.now before.now after.now }
{
    plan.flags.ack
        && !plan.flags.syn
        && !plan.flags.fin
        && !plan.flags.rst
        && plan.len == 0
        && plan.pos == before.snd_max
        && after.rcv_adv == before.rcv_adv
}

#[inline(always)]
fn is_arrival(event: &Event, before: &View) -> bool
    ensures { result ≡ is_arrival event.now before.now }
{
    match event {
        Event::Processes { .. } => !is_listen(before.state),
        Event::Drops { .. } => true,
        Event::Opens
        | Event::Calls { .. }
        | Event::Builds(_)
        | Event::Sends(_)
        | Event::Expires(_)
        | Event::Recovers(_) => false,
    }
}

/// The segments that came, less the mere acknowledgments that were sent, after a step; `counts`: it sends one.
#[inline(always)]
pub(crate) fn answers_after(event: &Event, before: &View, counts: bool, answers: u32) -> u32
    ensures { result ≡ answers_after event.now before.now counts answers }
{
    if counts {
        answers.saturating_sub(1)
    } else if is_arrival(event, before) {
        one_more(answers)
    } else {
        answers
    }
}

/// Whether more acknowledgments are sent than segments came.
#[inline(always)]
pub(crate) fn is_excess(counts: bool, answers: u32) -> bool
    ensures { result ≡ is_excess counts answers }
{
    counts && answers == 0
}
