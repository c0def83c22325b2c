//! What a yes with a slack means in version 6, whose duties are stricter.

ghost use Rattle.std.specs.Prelude.{◌≡◌, ℕ, true, Some};
ghost use Rattle.case_forms.specs.Versions.{says_sender};
ghost use Rattle.case_forms.specs.declared.trace.Trace.{Trace};
ghost use Rattle.case_forms.specs.declared.steps.Witness.{Witness};
ghost use Rattle.checker.specs.Explains.{Explains};
ghost use Rattle.kept_duties.specs.Answered.{DropsAreAnsweredAfter, ReceiptsAreAnsweredAfter};
ghost use Rattle.kept_duties.specs.Made.{WhatIsBuiltIsSent};
ghost use Rattle.kept_duties.specs.Soon.{ClosedWindowsAreProbed};

/// In version 6: each segment that an `M` or `R` step builds is sent by its host at most the slack later; unless an `M`
/// step built it, and it is a reset of an endpoint in TIME-WAIT, or the last step is at most the slack later (RFC 9293,
/// 3.10.2, 3.10.7 and 3.10.7.4).
pub fn what_is_built_is_sent()
    ensures { (t : Trace) (w : Witness) (slack : ℕ) → Explains t w → t.header.slack ≡ Some slack
        → says_sender t.header.version ≡ true → WhatIsBuiltIsSent t w slack }
{}

/// In version 6: once an endpoint received something, it built a segment with ACK or RST after this, and sent it at
/// most half a second and the slack later; unless it was CLOSED, or the last step is at most that much later (RFC 9293,
/// 3.8.6.3; RFC 5681, 4.2). A segment whose line shows the acknowledgment number from before the text doesn't count.
pub fn receipts_are_answered_after()
    ensures { (t : Trace) (w : Witness) (slack : ℕ) → Explains t w → t.header.slack ≡ Some slack
        → says_sender t.header.version ≡ true → ReceiptsAreAnsweredAfter t w slack }
{}

/// In version 6: once an endpoint dropped a segment that asks for an acknowledgment, it built a segment with ACK or RST
/// after this, and sent it at most half a second and the slack later; unless it was CLOSED, or the last step is at most
/// that much later (RFC 9293, 3.10.7.4). One whose timestamp is too old asks, too, and in half cases one with old
/// numbers; one that lacks the timestamps that both SYNs had doesn't (RFC 7323, 3.2 and 5.3). A segment without bytes
/// and FIN may stay unanswered if one with ACK was sent within half a second before, or ten within five seconds (RFC
/// 5961, 7). A segment whose line shows the acknowledgment number from before the text doesn't count.
pub fn drops_are_answered_after()
    ensures { (t : Trace) (w : Witness) (slack : ℕ) → Explains t w → t.header.slack ≡ Some slack
        → says_sender t.header.version ≡ true → DropsAreAnsweredAfter t w slack }
{}

/// In version 6: after each expiry of a persist timer, a segment that probes the window was sent, more was acknowledged
/// or the window was opened at most the slack later; unless the endpoint was CLOSED, or the last step is at most that
/// much later (RFC 9293, 3.8.6.1).
pub fn closed_windows_are_probed()
    ensures { (t : Trace) (w : Witness) (slack : ℕ) → Explains t w → t.header.slack ≡ Some slack
        → says_sender t.header.version ≡ true → ClosedWindowsAreProbed t w slack }
{}
