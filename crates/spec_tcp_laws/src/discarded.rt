//! Forgetting is free: a world without what may be discarded behaves like the whole one.

ghost use Rattle.spec_tcp_laws.specs.ForgettingLaws.{ForgettingIsFree, RunsForget};

/// Discarding what may be discarded changes no rule of a step, and nothing that is kept.
pub fn forgetting_is_free()
    ensures { ForgettingIsFree }
{}

/// A run that forgets after each step is permitted if and only if the whole one is, and breaks the same rule first. It
/// ends in what is kept of the whole one's end.
pub fn runs_forget()
    ensures { RunsForget }
{}
