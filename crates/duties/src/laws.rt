//! The slack: with a greater one more is accepted, and without one everything is.

ghost use Rattle.std.specs.Prelude.{Option, ℕ};
ghost use Rattle.spec_cases.specs.Slack.{AtMost, LessLateIsMoreAccepted, NothingIsJudged, SlackIsHardlyNoted};

/// Without a slack no duty refuses a step, and none is late at the end.
pub fn nothing_is_judged()
    ensures { NothingIsJudged }
{}

/// What a step refuses with a slack, it refuses with each smaller one; the same holds for what is late at the end.
/// None, which is `any`, is the greatest slack.
pub fn less_late_is_more_accepted()
    ensures { (less more : Option ℕ) → AtMost less more → LessLateIsMoreAccepted less more }
{}

/// What duties keep depends on the slack in credits alone: with a greater one, at least as many are left.
pub fn slack_is_hardly_noted()
    ensures { SlackIsHardlyNoted }
{}
