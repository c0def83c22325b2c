//! What is the same at every level of congestion control.

ghost use Rattle.case_forms.specs.declared.trace.Header.{Header};
ghost use Rattle.case_forms.specs.declared.version.Judged.{Judged};
ghost use Rattle.spec_tcp_laws.specs.Levels.{JudgedAlike, RecoveryIsDue, RefusedAlike};

/// Every rule except `congestion`, `growth` and `recovery` is the same at every level, for every step in every world. A
/// step that a listener processes breaks the same of all rules.
pub fn judged_alike()
    ensures { (h : Header) → (j : Judged) → JudgedAlike h j }
{}

/// If a rule other than these three refuses a step, it refuses it at every level, unless one of the three with a lower
/// number refuses it first.
pub fn refused_alike()
    ensures { (h : Header) → (j : Judged) → RefusedAlike h j }
{}

/// At every level, fast recovery begins only if something is outstanding. In versions 1 to 5, unless the level is
/// `none`, it begins from the third duplicate acknowledgment on, and not within fast recovery (RFC 5681, 3.2, step 2).
pub fn recovery_is_due()
    ensures { RecoveryIsDue }
{}
