//! What waits to be sent is sent within a second.
//! `lib.rt` says why each function here is inlined.

ghost use Rattle.std.specs.Prelude.{◌≡◌};
ghost use Rattle.spec_duties.specs.Start.{is_free_to_send, is_idle_with_work, longest_wait, start_after, start_due};
ghost use Rattle.spec_duties.specs.Start.{work_end};

use crate::deadlines::due_within;
use crate::views::is_up;
use spec_duties::View;

/// The longest time that a sender may hold data back, in microseconds (RFC 9293, 3.8.6.2.1).
const LONGEST_WAIT: u64 = 1_000_000;

#[inline(always)]
fn work_end(v: &View) -> u128
    ensures { result ≡ work_end v.now }
{
    if v.ended {
        v.end as u128 + 1
    } else {
        v.end as u128
    }
}

#[inline(always)]
fn is_free_to_send(v: &View) -> bool
    ensures { result ≡ is_free_to_send v.now }
{
    0 < v.snd_wnd || v.snd_max == 0 || v.snd_max == v.end
}

#[inline(always)]
fn is_idle_with_work(v: &View) -> bool
    ensures { result ≡ is_idle_with_work v.now }
{
    !v.state.is_closed()
        && v.snd_una == v.snd_max
        && (v.snd_max as u128) < work_end(v)
        && (is_up(v) || v.snd_max == 0)
        && is_free_to_send(v)
}

/// Since when something waits to be sent and nothing is outstanding, after a step.
#[inline(always)]
pub(crate) fn start_after(after: &View, moment: u64, since: Option<u64>) -> Option<u64>
    ensures { result ≡ start_after after.now moment since }
{
    if is_idle_with_work(after) {
        since.or(Some(moment))
    } else {
        None
    }
}

/// By when it has to be sent, in microseconds. None: nothing waits so.
#[inline(always)]
pub fn start_due(since: Option<u64>) -> Option<u128>
    ensures { result ≡ start_due since }
{
    due_within(LONGEST_WAIT, since)
}
