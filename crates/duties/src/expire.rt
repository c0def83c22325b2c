//! An armed retransmission timer expires when its time has passed.
//! `lib.rt` says why each function here is inlined.

ghost use Rattle.std.specs.Prelude.{◌≡◌, ◌*◌, if◌then◌else◌};
ghost use Rattle.spec_duties.specs.Expire.{expiry_due, has_expiry_due, longest_run, opened_after};

use spec_duties::View;
use timer_rules::LONGEST_RTO;

/// Whether an expiry of the retransmission timer may be due.
#[inline(always)]
pub(crate) fn has_expiry_due(v: &View) -> bool
    ensures { result ≡ has_expiry_due v.now }
{
    v.timers.rto < LONGEST_RTO && (0 < v.snd_wnd || v.snd_una == 0)
}

#[inline(always)]
fn longest_run(v: &View) -> u128
    ensures { result ≡ longest_run v.now }
{
    if v.timers.srtt.is_some() {
        v.timers.rto as u128
    } else {
        3 * v.timers.rto as u128
    }
}

/// By when the retransmission timer has to expire, in microseconds, if the window was last opened at this moment. None:
/// there is no such deadline.
#[inline(always)]
pub fn expiry_due(v: &View, opened: u64) -> Option<u128>
    ensures { result ≡ expiry_due v.now opened }
{
    if !has_expiry_due(v) {
        return None;
    }
    match v.timers.rto_armed {
        Some(since) => Some(since.max(opened) as u128 + longest_run(v)),
        None => None,
    }
}

/// When the offered window was last opened, after a step.
#[inline(always)]
pub(crate) fn opened_after(before: &View, after: &View, moment: u64, opened: u64) -> u64
    ensures { result ≡ opened_after before.now after.now moment opened }
{
    if before.snd_wnd == 0 && 0 < after.snd_wnd {
        moment
    } else {
        opened
    }
}
