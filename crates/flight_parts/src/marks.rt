//! Which positions a segment holds, which ones a step marks, and from which it takes the mark.

ghost use Rattle.std.specs.Prelude.{◌≡◌};
ghost use Rattle.spec_tcp.specs.Makes.Payload.{making_length};
ghost use Rattle.spec_duties.specs.Strict.{is_fin_alone};
ghost use Rattle.spec_flights.specs.Marks.{goes_again, marked_by, marked_by_event, old_part, oldest_segment};
ghost use Rattle.spec_flights.specs.Marks.{opens_probed, outstanding, own_syn, taken_by};
ghost use Rattle.spec_flights.specs.Scoreboard.{stretch_built};

use crate::reports::no_positions;
use case_forms::{RecoveryChange, SegmentPlan, Timer};
use spec_duties::{Event, SynChange, View};
use spec_flights::Stretch;

/// All that is outstanding.
pub fn outstanding(v: &View) -> Stretch
    ensures { result ≡ outstanding v.now }
{
    Stretch {
        from: v.snd_una,
        upto: v.snd_max,
    }
}

fn oldest_segment(v: &View) -> Stretch
    ensures { result ≡ oldest_segment v.now }
{
    Stretch {
        from: v.snd_una,
        upto: v.snd_una.saturating_add(u64::from(v.smss)).min(v.snd_max),
    }
}

fn own_syn(v: &View) -> Stretch
    ensures { result ≡ own_syn v.now }
{
    Stretch {
        from: 0,
        upto: v.snd_max.min(1),
    }
}

/// Whether a window above 0 comes while the persist timer runs.
pub fn opens_probed(before: &View, after: &View) -> bool
    ensures { result ≡ opens_probed before.now after.now }
{
    before.timers.persist_armed.is_some() && 0 < after.snd_wnd
}

fn marked_by_event(event: &Event, after: &View, oldest: bool) -> Stretch
    ensures { result ≡ marked_by_event event.now after.now oldest }
{
    match event {
        Event::Expires(Timer::Rto) => outstanding(after),
        Event::Opens
        | Event::Calls { .. }
        | Event::Processes { .. }
        | Event::Drops { .. }
        | Event::Builds(_)
        | Event::Sends(_)
        | Event::Expires(Timer::Persist | Timer::Msl2 | Timer::Giveup | Timer::Pto)
        | Event::Recovers(_) => {
            if oldest {
                oldest_segment(after)
            } else {
                no_positions()
            }
        }
    }
}

/// Which positions a step marks. `oldest`: it marks the first segment.
pub fn marked_by(change: SynChange, event: &Event, after: &View, oldest: bool) -> Stretch
    ensures { result ≡ marked_by change event.now after.now oldest }
{
    match change {
        SynChange::Takes { alone: true, .. } | SynChange::ComesAgain => own_syn(after),
        SynChange::Nothing | SynChange::Sends { .. } | SynChange::Takes { alone: false, .. } => {
            marked_by_event(event, after, oldest)
        }
    }
}

/// How many positions a segment occupies.
pub fn making_length(plan: &SegmentPlan) -> u64
    ensures { result ≡ making_length plan.now }
{
    plan.len as u64 + plan.flags.syn as u64 + plan.flags.fin as u64
}

/// Whether it is a FIN without bytes that was sent before.
pub fn is_fin_alone(plan: &SegmentPlan, v: &View) -> bool
    ensures { result ≡ is_fin_alone plan.now v.now }
{
    plan.flags.fin && plan.len == 0 && plan.pos < v.snd_max
}

/// Whether it holds positions that were sent before, and isn't a FIN without bytes.
pub fn goes_again(v: &View, plan: &SegmentPlan) -> bool
    ensures { result ≡ goes_again v.now plan.now }
{
    0 < making_length(plan) && plan.pos < v.snd_max && !is_fin_alone(plan, v)
}

/// The positions of a segment that were sent before.
pub fn old_part(v: &View, plan: &SegmentPlan) -> Stretch
    ensures { result ≡ old_part v.now plan.now }
{
    Stretch {
        from: plan.pos,
        upto: plan.pos.saturating_add(making_length(plan)).min(v.snd_max),
    }
}

/// From which positions a step takes the mark.
pub fn taken_by(event: &Event, before: &View) -> Stretch
    ensures { result ≡ taken_by event.now before.now }
{
    match event {
        Event::Builds(plan) => {
            if is_fin_alone(plan, before) {
                no_positions()
            } else {
                old_part(before, plan)
            }
        }
        Event::Recovers(RecoveryChange::IsUndone) => outstanding(before),
        Event::Opens
        | Event::Calls { .. }
        | Event::Processes { .. }
        | Event::Drops { .. }
        | Event::Sends(_)
        | Event::Expires(_)
        | Event::Recovers(RecoveryChange::Begins) => no_positions(),
    }
}

/// The positions that a segment builds anew, whether they were sent before or not.
pub fn stretch_built(plan: &SegmentPlan, before: &View, after: &View) -> Stretch
    ensures { result ≡ stretch_built plan.now before.now after.now }
{
    if is_fin_alone(plan, before) {
        return no_positions();
    }
    Stretch {
        from: plan.pos,
        upto: plan
            .pos
            .saturating_add(making_length(plan))
            .min(after.snd_max),
    }
}
