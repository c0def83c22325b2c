//! A closed window is probed while bytes are left.
//! `lib.rt` says why each function here is inlined.

ghost use Rattle.std.specs.Prelude.{◌≡◌};
ghost use Rattle.spec_duties.specs.Probe.{first_probing, greatest_factor, is_closed_with_work, is_probe};
ghost use Rattle.spec_duties.specs.Probe.{is_probing_segment, next_probe_due, probed_again, probing_after, probing_due};
ghost use Rattle.spec_duties.specs.Probe.{still_probing};

use crate::retransmit::holds;
use crate::views::is_up;
use case_forms::Timer;
use spec_duties::{Event, Probing, Sending, View};
use timer_rules::LONGEST_RTO;

/// No factor is greater.
const GREATEST_FACTOR: u32 = 67_108_864;

/// Whether the offered window is closed, and bytes wait or are outstanding.
#[inline(always)]
pub(crate) fn is_closed_with_work(v: &View) -> bool
    ensures { result ≡ is_closed_with_work v.now }
{
    is_up(v) && v.snd_wnd == 0 && v.snd_una < v.end
}

/// Whether a segment probes a closed window.
#[inline(always)]
pub(crate) fn is_probing_segment(sending: &Sending, v: &View) -> bool
    ensures { result ≡ is_probing_segment sending.now v.now }
{
    sending.length == 0 && sending.pos as u128 + 1 == v.snd_una as u128 || holds(sending, v.snd_una)
}

#[inline(always)]
fn is_probe(event: &Event, v: &View) -> bool
    ensures { result ≡ is_probe event.now v.now }
{
    match event {
        Event::Expires(Timer::Rto | Timer::Persist) => true,
        Event::Sends(sending) => is_probing_segment(sending, v),
        Event::Expires(Timer::Msl2 | Timer::Giveup | Timer::Pto)
        | Event::Opens
        | Event::Calls { .. }
        | Event::Processes { .. }
        | Event::Drops { .. }
        | Event::Builds(_)
        | Event::Recovers(_) => false,
    }
}

#[inline(always)]
fn probed_again(moment: u64, probing: Probing) -> Probing
    ensures { result ≡ probed_again moment probing }
{
    Probing {
        since: moment,
        factor: probing.factor.saturating_mul(2).min(GREATEST_FACTOR),
    }
}

#[inline(always)]
fn still_probing(event: &Event, before: &View, moment: u64, probing: Probing) -> Probing
    ensures { result ≡ still_probing event.now before.now moment probing }
{
    if is_probe(event, before) {
        probed_again(moment, probing)
    } else {
        probing
    }
}

/// The probes of a closed window, after a step.
#[inline(always)]
pub(crate) fn probing_after(
    event: &Event,
    before: &View,
    after: &View,
    moment: u64,
    probing: Option<Probing>,
) -> Option<Probing>
    ensures { result ≡ probing_after event.now before.now after.now moment probing }
{
    if !is_closed_with_work(after) {
        return None;
    }
    match probing {
        Some(probing) => Some(still_probing(event, before, moment, probing)),
        None => Some(Probing {
            since: moment,
            factor: 1,
        }),
    }
}

#[inline(always)]
fn next_probe_due(rto: u64, probing: Probing) -> Option<u128>
    ensures { result ≡ next_probe_due rto probing }
{
    let wait = rto as u128 * probing.factor as u128;
    if wait < LONGEST_RTO as u128 {
        Some(probing.since as u128 + wait)
    } else {
        None
    }
}

/// By when the next probe is due, in microseconds. None: none is.
#[inline(always)]
pub fn probing_due(v: &View, probing: Option<Probing>) -> Option<u128>
    ensures { result ≡ probing_due v.now probing }
{
    match probing {
        Some(probing) => next_probe_due(v.timers.rto, probing),
        None => None,
    }
}
