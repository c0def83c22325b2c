//! How the greatest values relate to what the RFCs allow, and what follows, for callers that prove more: each law is
//! the contract of a call that does nothing.

ghost use Rattle.window_rules.specs.ControlLaws.{ControlCounts, ControlIsGreatest, ControlTakesChoice};
ghost use Rattle.window_rules.specs.Judging.{LessJudgedIsMoreAllowed, NoProfileIsRead};
ghost use Rattle.window_rules.specs.Laws.{EdgesAreExact, GrowthIsGreatest, LossesAreGreatest, RecoveryIsGreatest};
ghost use Rattle.window_rules.specs.Laws.{GrowthIsGentle, CountsOnce, LossHalves};

/// Both edges bound exactly what may be sent (RFC 9293, 3.8.6; RFC 5681, 3.1 and 3.2).
pub fn edges_are_exact()
    ensures { EdgesAreExact }
{}

/// Each window that a call returns for an acknowledgment is the greatest allowed (RFC 5681, 3.1 and 3.2).
pub fn growth_is_greatest()
    ensures { GrowthIsGreatest }
{}

/// So is each window and threshold that a call returns for a loss (RFC 5681, 3.1 and 3.2).
pub fn losses_are_greatest()
    ensures { LossesAreGreatest }
{}

/// So is the pair with which fast recovery begins (RFC 5681, 3.2).
pub fn recovery_is_greatest()
    ensures { RecoveryIsGreatest }
{}

/// A window grows by at most a segment per acknowledgment, and an acknowledgment never shrinks it (RFC 5681, 3.1).
pub fn growth_is_gentle()
    ensures { GrowthIsGentle }
{}

/// Each byte acknowledged in congestion avoidance is counted, and spent once (RFC 5681, 3.1).
pub fn counts_once()
    ensures { CountsOnce }
{}

/// A loss halves the window (RFC 5681, 3.1 and 3.2).
pub fn loss_halves()
    ensures { LossHalves }
{}

/// The greatest values of each profile are exactly what is allowed at each signal.
pub fn control_is_greatest()
    ensures { ControlIsGreatest }
{}

/// The values after a signal are those that were chosen, and no signal changes the profile.
pub fn control_takes_choice()
    ensures { ControlTakesChoice }
{}

/// A profile that judges at most what another does allows at least what the other allows.
pub fn less_judged_is_more_allowed()
    ensures { LessJudgedIsMoreAllowed }
{}

/// The same choices lead to the same values, whatever the profile.
pub fn no_profile_is_read()
    ensures { NoProfileIsRead }
{}

/// What is counted is at most what was acknowledged, and at most the number of steps.
pub fn control_counts()
    ensures { ControlCounts }
{}
