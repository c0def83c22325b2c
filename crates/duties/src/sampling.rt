//! Round trips are measured at least once for each flight of data.
//! `lib.rt` says why each function here is inlined.

ghost use Rattle.std.specs.Prelude.{◌≡◌};
ghost use Rattle.spec_duties.specs.Sampling.{builds_again, is_measured, is_sample_due, timed_after};

use crate::resent::making_length;
use spec_duties::{Event, Sampling, View};

#[inline(always)]
fn is_measured(sampling: Sampling) -> bool
    ensures { result ≡ is_measured sampling }
{
    matches!(sampling, Sampling::Measures)
}

#[inline(always)]
fn builds_again(event: &Event, v: &View) -> bool
    ensures { result ≡ builds_again event.now v.now }
{
    match event {
        Event::Builds(plan) => 0 < making_length(plan) && plan.pos < v.snd_max,
        Event::Opens
        | Event::Calls { .. }
        | Event::Processes { .. }
        | Event::Drops { .. }
        | Event::Sends(_)
        | Event::Expires(_)
        | Event::Recovers(_) => false,
    }
}

/// From which position on a round trip is to be measured, after a step.
#[inline(always)]
pub(crate) fn timed_after(
    sampling: Sampling,
    event: &Event,
    before: &View,
    after: &View,
    timed: u64,
) -> u64
    ensures { result ≡ timed_after sampling event.now before.now after.now timed }
{
    if is_measured(sampling) || builds_again(event, before) {
        after.snd_max
    } else {
        timed
    }
}

/// Whether a measurement is due that a step doesn't make.
#[inline(always)]
pub(crate) fn is_sample_due(sampling: Sampling, timed: u64) -> bool
    ensures { result ≡ is_sample_due sampling timed }
{
    match sampling {
        Sampling::Skips(position) => timed <= position,
        Sampling::Nothing | Sampling::Measures => false,
    }
}
