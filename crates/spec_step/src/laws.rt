//! The less of congestion control is judged, the more is accepted.

ghost use Rattle.case_forms.specs.declared.version.Judged.{Judged};
ghost use Rattle.spec_step.specs.Judging.{LessJudgedIsMoreAccepted, ProfilesAreKept};

/// Each endpoint keeps the profile of the header, from the start on, and no window or threshold is above the greatest
/// that the model allows.
pub fn profiles_are_kept()
    ensures { ProfilesAreKept }
{}

/// A step that breaks no rule under `full` breaks none under `recovery`, and one that breaks none under `recovery`
/// breaks none under `none`; what it leads to differs in nothing but that word.
pub fn less_judged_is_more_accepted()
    ensures { (j : Judged) → LessJudgedIsMoreAccepted j }
{}
