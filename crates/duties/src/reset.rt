//! An aborted connection is reset.
//! `lib.rt` says why each function here is inlined.

ghost use Rattle.std.specs.Prelude.{◌≡◌};
ghost use Rattle.spec_duties.specs.Reset.{aborts, reset_after, reset_since, sends_reset};

use spec_duties::{Event, View};

#[inline(always)]
fn sends_reset(event: &Event) -> bool
    ensures { result ≡ sends_reset event.now }
{
    match event {
        Event::Sends(sending) => sending.flags.rst,
        Event::Opens
        | Event::Calls { .. }
        | Event::Processes { .. }
        | Event::Drops { .. }
        | Event::Builds(_)
        | Event::Expires(_)
        | Event::Recovers(_) => false,
    }
}

#[inline(always)]
fn aborts(event: &Event, after: &View) -> bool
    ensures { result ≡ aborts event.now after.now }
{
    match event {
        Event::Calls { aborts } => *aborts && after.resets,
        Event::Opens
        | Event::Processes { .. }
        | Event::Drops { .. }
        | Event::Builds(_)
        | Event::Sends(_)
        | Event::Expires(_)
        | Event::Recovers(_) => false,
    }
}

/// Since when an endpoint owes a reset: because of `abort`, or because the listener that created it was closed. Moments
/// are in microseconds. None: it owes none.
#[inline(always)]
pub fn reset_since(v: &View, listener_closed: Option<u64>, since: Option<u64>) -> Option<u64>
    ensures { result ≡ reset_since v.now listener_closed since }
{
    since.or(if v.resets { listener_closed } else { None })
}

/// Since when a reset is owed because of `abort`, after a step.
#[inline(always)]
pub(crate) fn reset_after(
    event: &Event,
    before: &View,
    after: &View,
    moment: u64,
    listener_closed: Option<u64>,
    since: Option<u64>,
) -> Option<u64>
    ensures { result ≡ reset_after event.now before.now after.now moment listener_closed since }
{
    if sends_reset(event) {
        return None;
    }
    let arises = if aborts(event, after) {
        Some(moment)
    } else {
        None
    };
    reset_since(before, listener_closed, since).or(arises)
}
