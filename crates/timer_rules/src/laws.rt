//! Samples, back-off and expiries in the words of RFC 6298, and what follows, for callers that prove more: each law is
//! the contract of a call that does nothing.

ghost use Rattle.timer_rules.specs.Laws.{SamplesAreExact, SamplesAreSmooth, TimeoutIsBounded, NeverPassesAMinute};
ghost use Rattle.timer_rules.specs.Laws.{BackOffIsExponential, ExpiryIsExact, ExpiriesAreApart};

/// A sample gives the values of the RFC's equations, rounded down (RFC 6298, 2.2 and 2.3).
pub fn samples_are_exact()
    ensures { SamplesAreExact }
{}

/// A sample moves SRTT towards itself and not past it (RFC 6298, 2.3).
pub fn samples_are_smooth()
    ensures { SamplesAreSmooth }
{}

/// After a sample the timeout is never below the minimum (RFC 6298, 2.4).
pub fn timeout_is_bounded()
    ensures { TimeoutIsBounded }
{}

/// The timeout never passes a minute (RFC 6298, 2.5).
pub fn never_passes_a_minute()
    ensures { NeverPassesAMinute }
{}

/// A doubling never shrinks the timeout, and n of them multiply it by 2 to the n, at most to a minute
/// (RFC 6298, 5.5).
pub fn back_off_is_exponential()
    ensures { BackOffIsExponential }
{}

/// A timer can expire if and only if it is armed and ran out (RFC 6298, 4 and 5).
pub fn expiry_is_exact()
    ensures { ExpiryIsExact }
{}

/// Consecutive expiries of the retransmission timer are further and further apart (RFC 6298, 5.5 and 5.6).
pub fn expiries_are_apart()
    ensures { ExpiriesAreApart }
{}
