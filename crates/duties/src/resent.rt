//! How often data is sent again.
//! `lib.rt` says why each function here is inlined.

ghost use Rattle.std.specs.Prelude.{◌≡◌};
ghost use Rattle.spec_tcp.specs.Makes.Payload.{making_length};
ghost use Rattle.spec_duties.specs.Resent.{again_after, begins_again, is_repeating, is_resent, is_resent_beyond};
ghost use Rattle.spec_duties.specs.Resent.{judges_repeats, judges_windows, passed_by, repeated_end};

use case_forms::{Judged, RecoveryChange, SegmentPlan, Timer};
use spec_duties::{Event, View};

/// How many positions a segment occupies.
#[inline(always)]
pub(crate) fn making_length(plan: &SegmentPlan) -> u64
    ensures { result ≡ making_length plan.now }
{
    plan.len as u64 + plan.flags.syn as u64 + plan.flags.fin as u64
}

#[inline(always)]
fn is_repeating(v: &View, plan: &SegmentPlan) -> bool
    ensures { result ≡ is_repeating v.now plan.now }
{
    plan.pos < v.snd_max
        && 0 < making_length(plan)
        && !(plan.flags.syn && plan.flags.ack)
        && !plan.flags.rst
}

#[inline(always)]
fn repeated_end(v: &View, plan: &SegmentPlan) -> u64
    ensures { result ≡ repeated_end v.now plan.now }
{
    plan.pos.saturating_add(making_length(plan)).min(v.snd_max)
}

#[inline(always)]
fn begins_again(event: &Event, before: &View, after: &View) -> bool
    ensures { result ≡ begins_again event.now before.now after.now }
{
    match event {
        Event::Expires(Timer::Rto | Timer::Persist) | Event::Recovers(RecoveryChange::Begins) => {
            true
        }
        Event::Processes { .. } => before.timers.persist_armed.is_some() && 0 < after.snd_wnd,
        Event::Expires(Timer::Msl2 | Timer::Giveup | Timer::Pto)
        | Event::Opens
        | Event::Calls { .. }
        | Event::Drops { .. }
        | Event::Builds(_)
        | Event::Sends(_)
        | Event::Recovers(RecoveryChange::IsUndone) => false,
    }
}

#[inline(always)]
fn passed_by(event: &Event, before: &View, again: u64) -> u64
    ensures { result ≡ passed_by event.now before.now again }
{
    match event {
        Event::Builds(plan) => {
            if is_repeating(before, plan) {
                again.max(repeated_end(before, plan))
            } else {
                again
            }
        }
        Event::Opens
        | Event::Calls { .. }
        | Event::Processes { .. }
        | Event::Drops { .. }
        | Event::Sends(_)
        | Event::Expires(_)
        | Event::Recovers(_) => again,
    }
}

/// The position below which nothing may be sent again, after a step.
#[inline(always)]
pub(crate) fn again_after(event: &Event, before: &View, after: &View, again: u64) -> u64
    ensures { result ≡ again_after event.now before.now after.now again }
{
    if begins_again(event, before, after) {
        before.snd_una
    } else {
        passed_by(event, before, again)
    }
}

#[inline(always)]
fn judges_repeats(judged: Judged) -> bool
    ensures { result ≡ judges_repeats judged }
{
    match judged {
        Judged::Full | Judged::Recovery => true,
        Judged::NoControl => false,
    }
}

#[inline(always)]
fn judges_windows(judged: Judged) -> bool
    ensures { result ≡ judges_windows judged }
{
    match judged {
        Judged::Full => true,
        Judged::Recovery | Judged::NoControl => false,
    }
}

/// Whether a step builds a position again that was sent again already.
#[inline(always)]
pub(crate) fn is_resent(judged: Judged, event: &Event, before: &View, again: u64) -> bool
    ensures { result ≡ is_resent judged event.now before.now again }
{
    match event {
        Event::Builds(plan) => {
            judges_repeats(judged) && is_repeating(before, plan) && plan.pos < again
        }
        Event::Opens
        | Event::Calls { .. }
        | Event::Processes { .. }
        | Event::Drops { .. }
        | Event::Sends(_)
        | Event::Expires(_)
        | Event::Recovers(_) => false,
    }
}

/// Whether bytes that were all sent before end beyond the congestion window.
#[inline(always)]
pub(crate) fn is_resent_beyond(judged: Judged, event: &Event, before: &View) -> bool
    ensures { result ≡ is_resent_beyond judged event.now before.now }
{
    match event {
        Event::Builds(plan) => {
            let end = plan.pos as u128 + plan.len as u128;
            judges_windows(judged)
                && 0 < plan.len
                && end <= before.snd_max as u128
                && before.congestion_edge < end
        }
        Event::Opens
        | Event::Calls { .. }
        | Event::Processes { .. }
        | Event::Drops { .. }
        | Event::Sends(_)
        | Event::Expires(_)
        | Event::Recovers(_) => false,
    }
}
