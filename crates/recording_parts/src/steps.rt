//! What a core does if the model permits it.

ghost use Rattle.std.specs.Prelude.{◌≡◌, true, false, IfNone};
ghost use Rattle.std.specs.Option.{IfSome};

use case_forms::{Expired, Ports, SegmentPlan, TakeChoice};

/// A timer that may expire, with the values chosen for its expiry.
#[derive(Clone, Copy)]
pub struct Due {
    pub ports: Ports,
    pub expired: Expired,
}

/// The timer, if it may expire.
#[inline]
pub fn due_if(may: bool, due: Due) -> Option<Due>
    ensures some { IfSome result (λ x. (x ≡ due) × (may ≡ true)) }
    ensures none { IfNone result (may ≡ false) }
{
    if may { Some(due) } else { None }
}

/// The segment, if it may be made.
#[inline]
pub fn plan_if(may: bool, plan: SegmentPlan) -> Option<SegmentPlan>
    ensures some { IfSome result (λ x. (x ≡ plan) × (may ≡ true)) }
    ensures none { IfNone result (may ≡ false) }
{
    if may { Some(plan) } else { None }
}

/// How a segment is taken, if it may be taken so.
#[inline]
pub fn choice_if(may: bool, choice: TakeChoice) -> Option<TakeChoice>
    ensures some { IfSome result (λ x. (x ≡ choice) × (may ≡ true)) }
    ensures none { IfNone result (may ≡ false) }
{
    if may { Some(choice) } else { None }
}

/// A segment is taken with its bytes.
#[inline]
pub fn with_bytes(cwnd: u32, sample: bool) -> TakeChoice
    ensures { result ≡ record { cwnd = cwnd; keep = true; sample = sample } }
{
    TakeChoice {
        cwnd,
        keep: true,
        sample,
    }
}
