//! After an expiry, the oldest unacknowledged position is sent again.
//! `lib.rt` says why each function here is inlined.

ghost use Rattle.std.specs.Prelude.{◌≡◌};
ghost use Rattle.spec_duties.specs.Events.{acknowledges_more, holds, is_sending};
ghost use Rattle.spec_duties.specs.Retransmit.{is_probe_timeout, is_timeout, probe_after, retransmit_after};
ghost use Rattle.spec_duties.specs.Retransmit.{sends_oldest};

use case_forms::Timer;
use spec_duties::{Event, Sending, View};

/// Whether a segment holds a position.
#[inline(always)]
pub(crate) fn holds(sending: &Sending, position: u64) -> bool
    ensures { result ≡ holds sending.now position }
{
    sending.pos <= position && ((position - sending.pos) as u128) < sending.length
}

/// Whether more is acknowledged.
#[inline(always)]
pub(crate) fn acknowledges_more(before: &View, after: &View) -> bool
    ensures { result ≡ acknowledges_more before.now after.now }
{
    before.snd_una < after.snd_una
}

#[inline(always)]
fn is_sending(event: &Event) -> bool
    ensures { result ≡ is_sending event.now }
{
    matches!(event, Event::Sends(_))
}

/// Whether the retransmission timer expires.
#[inline(always)]
pub(crate) fn is_timeout(event: &Event) -> bool
    ensures { result ≡ is_timeout event.now }
{
    matches!(event, Event::Expires(Timer::Rto))
}

/// Whether the persist timer expires.
#[inline(always)]
pub(crate) fn is_probe_timeout(event: &Event) -> bool
    ensures { result ≡ is_probe_timeout event.now }
{
    matches!(event, Event::Expires(Timer::Persist))
}

#[inline(always)]
fn sends_oldest(event: &Event, v: &View) -> bool
    ensures { result ≡ sends_oldest event.now v.now }
{
    match event {
        Event::Sends(sending) => holds(sending, v.snd_una) || v.snd_wnd == 0,
        Event::Opens
        | Event::Calls { .. }
        | Event::Processes { .. }
        | Event::Drops { .. }
        | Event::Builds(_)
        | Event::Expires(_)
        | Event::Recovers(_) => false,
    }
}

/// Since when the oldest position is to be sent again, after a step.
#[inline(always)]
pub(crate) fn retransmit_after(
    event: &Event,
    before: &View,
    after: &View,
    moment: u64,
    since: Option<u64>,
) -> Option<u64>
    ensures { result ≡ retransmit_after event.now before.now after.now moment since }
{
    if is_timeout(event) {
        since.or(Some(moment))
    } else if sends_oldest(event, before) || acknowledges_more(before, after) {
        None
    } else {
        since
    }
}

/// Since when any segment is to be sent because the persist timer expired, after a step.
#[inline(always)]
pub(crate) fn probe_after(
    event: &Event,
    before: &View,
    after: &View,
    moment: u64,
    since: Option<u64>,
) -> Option<u64>
    ensures { result ≡ probe_after event.now before.now after.now moment since }
{
    if is_probe_timeout(event) {
        since.or(Some(moment))
    } else if is_sending(event) || acknowledges_more(before, after) {
        None
    } else {
        since
    }
}
