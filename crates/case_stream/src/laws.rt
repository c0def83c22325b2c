//! How an input is split into cases.

ghost use Rattle.case_stream.specs.CutBack.{CasesAreCutBack};

/// Cases written one after the other, each followed by a line `end` and without such a line of their own, are split
/// into the same cases again. What follows the last `end` is one more case, unless it is empty.
pub fn cases_are_cut_back()
    ensures { CasesAreCutBack }
{}
