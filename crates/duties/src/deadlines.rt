//! When a duty is late. Moments, times and the slack are in microseconds.
//! `lib.rt` says why each function here is inlined.

ghost use Rattle.std.specs.Prelude.{◌≡◌, ℕ};
ghost use Rattle.std.specs.Option.{option_map};
ghost use Rattle.spec_duties.specs.Deadlines.{due_within, is_late, is_past};

use case_forms::Header;

/// By how much a duty may be late. `None`: no duty is judged.
#[inline(always)]
pub fn judged_slack(header: &Header) -> Option<u64>
    ensures { result ≡ header.now.slack }
{
    header.slack
}

/// Whether a moment is after a deadline by more than the slack.
#[inline(always)]
pub(crate) fn is_past(slack: u64, moment: u64, deadline: u128) -> bool
    ensures { result ≡ is_past slack moment deadline }
{
    deadline < moment as u128 && slack < moment - deadline as u64
}

/// Whether a duty with this deadline is late.
#[inline(always)]
pub fn is_late(slack: u64, moment: u64, due: Option<u128>) -> bool
    ensures { result ≡ is_late slack moment due }
{
    match due {
        Some(deadline) => is_past(slack, moment, deadline),
        None => false,
    }
}

/// Whether a duty that is due at once is late.
#[inline(always)]
pub fn is_late_at_once(slack: u64, moment: u64, since: Option<u64>) -> bool
    ensures { result ≡ is_late slack moment since }
{
    match since {
        Some(since) => is_past(slack, moment, since as u128),
        None => false,
    }
}

/// The deadline of a duty that arose at a moment and has this much time.
#[inline(always)]
pub(crate) fn due_within(time: u64, since: Option<u64>) -> Option<u128>
    ensures { result ≡ due_within time since }
{
    match since {
        Some(since) => Some(since as u128 + time as u128),
        None => None,
    }
}
