//! What a yes with a slack means for every trace and every witness.

ghost use Rattle.std.specs.Prelude.{◌≡◌, ◌≢◌, ℕ, false, Some};
ghost use Rattle.case_forms.specs.Traces.{IsTrace};
ghost use Rattle.case_forms.specs.Versions.{says_sender};
ghost use Rattle.case_forms.specs.declared.trace.Trace.{Trace};
ghost use Rattle.case_forms.specs.declared.steps.Witness.{Witness};
ghost use Rattle.case_forms.specs.declared.version.Judged.TheVariants.{Full, NoControl};
ghost use Rattle.checker.specs.Explains.{Explains};
ghost use Rattle.kept_duties.specs.Segments.{ArrivalsAreHandled, SendingsAreFresh};
ghost use Rattle.kept_duties.specs.Happens.{EventsAreSteps, StepsAreEvents};
ghost use Rattle.kept_duties.specs.Repeats.{NothingIsResentTwice, RepeatsStayWithin};
ghost use Rattle.kept_duties.specs.Counts.{AcknowledgmentsAreFew};
ghost use Rattle.kept_duties.specs.Soon.{ReceiptsAreAnswered, ExpiriesAreFollowed, ProbesAreSent, WorkIsBegun};
ghost use Rattle.kept_duties.specs.Drops.{DropsAreLawful, NextIsKept};
ghost use Rattle.kept_duties.specs.Asking.{DropsAreAnswered};
ghost use Rattle.kept_duties.specs.Expiries.{ExpiriesAreInTime};
ghost use Rattle.kept_duties.specs.Probes.{ProbesAreInTime};
ghost use Rattle.kept_duties.specs.Resets.{AbortsAreReset, ChildrenAreReset};

/// If a witness explains a trace, each segment that arrived was processed, dropped or answered with a reset, by the
/// host at which it arrived, at most the slack later; unless the last step is at most the slack later (RFC 9293,
/// 3.10.7). A trace that has a text meets `IsTrace`.
pub fn arrivals_are_handled()
    ensures { (t : Trace) (w : Witness) (slack : ℕ) → IsTrace t → Explains t w → t.header.slack ≡ Some slack
        → ArrivalsAreHandled t w slack }
{}

/// Each segment that was dropped may be: to process it would break a rule of the model, or it need not be processed;
/// and to answer it with a reset would break one, or an acknowledgment is as good (RFC 9293, 3.10.7). In version 6, a
/// timestamp that is missing or too old excuses it, too (RFC 7323, 3.2 and 5.3).
pub fn drops_are_lawful()
    ensures { (t : Trace) (w : Witness) (slack : ℕ) → Explains t w → t.header.slack ≡ Some slack → DropsAreLawful t w }
{}

/// No step that processed a segment discarded what was next in order, as far as the endpoint had room for it (RFC 9293,
/// 3.10.7.4, seventh).
pub fn next_is_kept()
    ensures { (t : Trace) (w : Witness) (slack : ℕ) → Explains t w → t.header.slack ≡ Some slack → NextIsKept t w }
{}

/// Each segment that was sent had been built by its host at most the slack before (RFC 9293, 3.10.2 and 3.10.7).
pub fn sendings_are_fresh()
    ensures { (t : Trace) (w : Witness) (slack : ℕ) → Explains t w → t.header.slack ≡ Some slack
        → SendingsAreFresh t w slack }
{}

/// What happens at an endpoint is done by a step of the witness with the label or the line that belongs to it, of the
/// endpoint's host. So the laws below are about steps and lines.
pub fn events_are_steps()
    ensures events { (t : Trace) (w : Witness) → EventsAreSteps t w }

    // The other way round: what such a step does happens at an endpoint of the host.
    ensures steps { (t : Trace) (w : Witness) (slack : ℕ) → Explains t w → t.header.slack ≡ Some slack
        → StepsAreEvents t w }
{}

/// In versions 1 to 5, between two expiries or the like, an endpoint built no position twice again, unless the header
/// says `congestion none` (RFC 6298, 5.4 and 5.5; RFC 5681, 3.2).
pub fn nothing_is_resent_twice()
    ensures { (t : Trace) (w : Witness) (slack : ℕ) → Explains t w → t.header.slack ≡ Some slack
        → says_sender t.header.version ≡ false → t.header.congestion ≢ NoControl → NothingIsResentTwice t w }
{}

/// In versions 1 to 5, bytes that are built again end within the congestion window, if the header says
/// `congestion full` (RFC 5681, 3.1).
pub fn repeats_stay_within()
    ensures { (t : Trace) (w : Witness) (slack : ℕ) → Explains t w → t.header.slack ≡ Some slack
        → says_sender t.header.version ≡ false → t.header.congestion ≡ Full → RepeatsStayWithin t w }
{}

/// At each moment, an endpoint had sent at most as many mere acknowledgments as segments had come to it: empty ones at
/// the next position to be sent that announced no more window. Others aren't counted (RFC 5681, 4.2).
pub fn acknowledgments_are_few()
    ensures { (t : Trace) (w : Witness) (slack : ℕ) → Explains t w → t.header.slack ≡ Some slack
        → AcknowledgmentsAreFew t w }
{}

/// In versions 1 to 5: once an endpoint received something, it sent a segment with ACK or RST at most half a second and
/// the slack later; unless it was CLOSED, or the last step is at most that much later (RFC 9293, 3.8.6.3; RFC 5681,
/// 4.2).
pub fn receipts_are_answered()
    ensures { (t : Trace) (w : Witness) (slack : ℕ) → Explains t w → t.header.slack ≡ Some slack
        → says_sender t.header.version ≡ false → ReceiptsAreAnswered t w slack }
{}

/// In versions 1 to 5: once an endpoint dropped a segment that asks for an acknowledgment, it sent a segment with ACK
/// or RST at most half a second and the slack later; unless it was CLOSED, or the last step is at most that much later
/// (RFC 9293, 3.10.7.4). A segment without bytes and FIN may stay unanswered if one with ACK was sent within half a
/// second before (RFC 5961, 7).
pub fn drops_are_answered()
    ensures { (t : Trace) (w : Witness) (slack : ℕ) → Explains t w → t.header.slack ≡ Some slack
        → says_sender t.header.version ≡ false → DropsAreAnswered t w slack }
{}

/// A retransmission timer with a timeout below a minute expired at most its time and the slack after it was armed or
/// the window was opened. That time is the timeout, and before the first sample three timeouts. In version 6, a clock
/// may be wrong by five times `grain`, which is added, doubled as often as the timeout was, up to a minute; and the
/// timer begins anew when the oldest unacknowledged position is built again. This holds while the window stays open, or
/// stays closed because nothing was acknowledged yet. It holds unless the timer stopped, was set anew or got another
/// time, the endpoint was CLOSED, or the last step is at most that much later (RFC 6298, 2 and 5.1 to 5.3).
pub fn expiries_are_in_time()
    ensures { (t : Trace) (w : Witness) (slack : ℕ) → Explains t w → t.header.slack ≡ Some slack
        → ExpiriesAreInTime t w slack }
{}

/// A window that is closed while bytes wait or are outstanding was probed at most a timeout and the slack later, then
/// at most twice as long, and so on, up to a minute. In version 6, a clock may be wrong by five times `grain`, which is
/// added and doubled with it. This holds unless the window was opened, no work was left, the timeout changed, the
/// endpoint was CLOSED, or the last step is at most that much later (RFC 9293, 3.8.6.1).
pub fn probes_are_in_time()
    ensures { (t : Trace) (w : Witness) (slack : ℕ) → Explains t w → t.header.slack ≡ Some slack
        → ProbesAreInTime t w slack }
{}

/// After `abort` of a connection that then has to be reset, a segment with RST was sent at most the slack later, unless
/// the last step is at most that much later (RFC 9293, 3.10.5).
pub fn aborts_are_reset()
    ensures { (t : Trace) (w : Witness) (slack : ℕ) → Explains t w → t.header.slack ≡ Some slack
        → AbortsAreReset t w slack }
{}

/// Once a listener was closed for the last time, each child that then had to be reset sent a segment with RST at most
/// the slack later; unless a step that did nothing at the child ended this, or the last step is at most that much later
/// (RFC 9293, 3.10.5).
pub fn children_are_reset()
    ensures { (t : Trace) (w : Witness) (slack : ℕ) → Explains t w → t.header.slack ≡ Some slack
        → ChildrenAreReset t w slack }
{}

/// After each expiry of a retransmission timer, the oldest unacknowledged position was sent again or acknowledged at
/// most the slack later; unless the endpoint was CLOSED, or the last step is at most that much later (RFC 6298, 5.4).
pub fn expiries_are_followed()
    ensures { (t : Trace) (w : Witness) (slack : ℕ) → Explains t w → t.header.slack ≡ Some slack
        → ExpiriesAreFollowed t w slack }
{}

/// In versions 1 to 5: after each expiry of a persist timer, any segment was sent or more was acknowledged at most the
/// slack later; unless the endpoint was CLOSED, or the last step is at most that much later (RFC 9293, 3.8.6.1).
pub fn probes_are_sent()
    ensures { (t : Trace) (w : Witness) (slack : ℕ) → Explains t w → t.header.slack ≡ Some slack
        → says_sender t.header.version ≡ false → ProbesAreSent t w slack }
{}

/// If something waits to be sent after a step at an endpoint, with nothing outstanding and no window that holds it
/// back, this ended at most a second and the slack later; unless the endpoint was CLOSED, or the last step is at most
/// that much later (RFC 9293, 3.8.6.2.1).
pub fn work_is_begun()
    ensures { (t : Trace) (w : Witness) (slack : ℕ) → Explains t w → t.header.slack ≡ Some slack
        → WorkIsBegun t w slack }
{}
