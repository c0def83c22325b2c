//! What a yes with a slack means in version 6 of calls, acknowledgments and round trips.

ghost use Rattle.std.specs.Prelude.{◌≡◌, ℕ, true, Some};
ghost use Rattle.case_forms.specs.Versions.{says_sender};
ghost use Rattle.case_forms.specs.declared.trace.Trace.{Trace};
ghost use Rattle.case_forms.specs.declared.steps.Witness.{Witness};
ghost use Rattle.checker.specs.Explains.{Explains};
ghost use Rattle.kept_calls.specs.Awaiting.{CallsAreAnswered};
ghost use Rattle.kept_calls.specs.Earning.{AcknowledgmentsAreEarned, HasMoments};
ghost use Rattle.kept_calls.specs.Measuring.{SamplesAreTaken};

/// In version 6: once a `recv`, `await` or `accept` can't be answered `again` any more, or its `D` step answers it
/// otherwise, and while this stays so and its socket number is live, its `E` line comes at most half a second and the
/// slack later; or the last step is at most that much later (RFC 9293, 3.9.1).
pub fn calls_are_answered()
    ensures { (t : Trace) (w : Witness) (slack : ℕ) → Explains t w → t.header.slack ≡ Some slack
        → says_sender t.header.version ≡ true → CallsAreAnswered t w slack }
{}

/// In version 6: before each step, an endpoint sent at most as many acknowledgments without news as it had processed
/// segments with bytes, a SYN, a FIN or an old acknowledgment, or dropped segments (RFC 5681, 4.2; RFC 9293, 3.10.7.4).
/// Those at the position before SND.UNA aren't counted. Moments are below 2^64, as in each text.
pub fn acknowledgments_are_earned()
    ensures { (t : Trace) (w : Witness) (slack : ℕ) → Explains t w → t.header.slack ≡ Some slack
        → says_sender t.header.version ≡ true → HasMoments w → AcknowledgmentsAreEarned t w }
{}

/// In version 6: if an endpoint processes a segment without RST and measures no round trip, though it might, then the
/// last position that the segment acknowledges was built before an earlier step of the endpoint ended that measured
/// one, or that built positions again (RFC 6298, 3).
pub fn samples_are_taken()
    ensures { (t : Trace) (w : Witness) (slack : ℕ) → Explains t w → t.header.slack ≡ Some slack
        → says_sender t.header.version ≡ true → SamplesAreTaken t w }
{}
