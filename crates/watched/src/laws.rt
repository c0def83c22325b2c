//! What duties read of the world and of the header, and the order of the rules.

ghost use Rattle.std.specs.Prelude.{◌≡◌, ℕ, Option, true};
ghost use Rattle.case_forms.specs.declared.trace.Header.{Header};
ghost use Rattle.case_forms.specs.declared.version.Judged.{Judged};
ghost use Rattle.spec_network.specs.Hosts.{Step, World};
ghost use Rattle.spec_tcp.specs.Forgetting.{forget};
ghost use Rattle.spec_tcp.specs.Machine.{tcp_shape};
ghost use Rattle.spec_tcp_laws.specs.Ascending.{ascend};
ghost use Rattle.spec_cases.specs.Cases.{Known, case_rules};
ghost use Rattle.spec_duties.specs.Observations.{observe};
ghost use Rattle.watched.specs.Levels.{CaseJudgedAlike, LessJudgedShowsTheSame};
ghost use Rattle.watched.specs.Slack.{SlackIsNotRead};

/// Duties read nothing of the world that may be discarded.
pub fn nothing_discarded_is_seen()
    ensures { (h : Header) (moment : ℕ) (w : World tcp_shape) (step : Step tcp_shape)
        → observe h moment (forget w) step ≡ observe h moment w step }
{}

/// The rules of a step, of the model and of duties, are in the order of their numbers.
pub fn case_rules_ascend()
    ensures { (h : Header) (moment : ℕ) (k : Known) (step : Step tcp_shape)
        → ascend 6 (case_rules h moment k step) ≡ true }
{}

/// Neither the model's rules and effects nor what a step shows depend on the slack.
pub fn slack_is_not_read()
    ensures { (slack : Option ℕ) → (h : Header) → SlackIsNotRead slack h }
{}

/// If less of congestion control is judged, a step shows the same. Only the congestion edge of the endpoint may be
/// higher.
pub fn less_judged_shows_the_same()
    ensures { (j : Judged) → (h : Header) → LessJudgedShowsTheSame j h }
{}

/// If less of congestion control is judged, a step breaks the same of all rules except `congestion`, `growth`,
/// `recovery`, `resent` and `resent-beyond`, and from version 6 on `old-data`.
pub fn case_judged_alike()
    ensures { (j : Judged) → (h : Header) → CaseJudgedAlike j h }
{}
