//! If less of congestion control is judged, all is accepted that was, and the same follows.

ghost use Rattle.case_forms.specs.declared.trace.Header.{Header};
ghost use Rattle.case_forms.specs.declared.version.Judged.{Judged};
ghost use Rattle.spec_tcp_laws.specs.Judging.{JudgedStays, LessIsJudged, RunsWithLessJudged};

/// Each endpoint of a run follows the profile of the header, and no congestion window or threshold is above the
/// greatest.
pub fn judged_stays()
    ensures { (h : Header) → JudgedStays h }
{}

/// A step that breaks no rule breaks none if less is judged, and leads to the same world except for the profile.
pub fn less_is_judged()
    ensures { (h : Header) → (j : Judged) → LessIsJudged h j }
{}

/// So a run, and the steps of a witness, break no rule if less is judged.
pub fn runs_with_less_judged()
    ensures { (h : Header) → (j : Judged) → RunsWithLessJudged h j }
{}
