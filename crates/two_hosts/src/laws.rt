//! What it means that all rounds ended, for callers that prove more: contracts of calls that do nothing.

ghost use Rattle.std.specs.Prelude.{◌≡◌, ◌↔◌, true, List, ℕ};
ghost use Rattle.case_forms.specs.declared.trace.Line.{Line};
ghost use Rattle.two_hosts.specs.Ends.{has_ended};
ghost use Rattle.two_hosts.specs.Rounds.{HaveEnded};

/// A recording counts as ended exactly if all bytes of all rounds were received, the end of the stream was read, and
/// both applications closed.
pub fn rounds_have_ended()
    ensures { (rounds : ℕ) (lines : List Line) → (has_ended rounds lines ≡ true) ↔ HaveEnded rounds lines }
{}
