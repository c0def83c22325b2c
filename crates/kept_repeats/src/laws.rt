//! What a run whose steps aren't refused says of data that is sent again though blocks report what arrived.

ghost use Rattle.std.specs.Prelude.{◌≡◌, List, true};
ghost use Rattle.case_forms.specs.Versions.{says_sender};
ghost use Rattle.case_forms.specs.declared.steps.Witness.{Witness};
ghost use Rattle.case_forms.specs.declared.trace.Header.{Header};
ghost use Rattle.case_forms.specs.declared.trace.Trace.{Trace};
ghost use Rattle.spec_network.specs.Hosts.{Stamped};
ghost use Rattle.spec_network.specs.HostSteps.{Lawful, start};
ghost use Rattle.spec_tcp.specs.Machine.{tcp, tcp_shape};
ghost use Rattle.spec_duties.specs.Resent.{judges_repeats};
ghost use Rattle.spec_cases.specs.Cases.{Dutiful, first_known};
ghost use Rattle.checker.specs.Explains.{Explains};
ghost use Rattle.checker.specs.Seen.{stamped};
ghost use Rattle.kept_repeats.specs.Rescues.{RepeatsAreRescues, RescuesComeOnce};
ghost use Rattle.kept_repeats.specs.Voiding.{OnlyTimeoutsVoidReports};

/// In version 6, at `congestion full` or `recovery`: an endpoint builds no segment with an unacknowledged position that
/// a block reported to it, unless its retransmission timer expired since the report, and after that neither fast
/// recovery began nor a recovery was undone (RFC 2018, 5 and 8). Excepted are a position that it built since the
/// report, its own SYN if that of its peer came again, and a FIN alone that it sent before. This is true of each case
/// that gets a yes.
pub fn only_timeouts_void_reports()
    ensures yes { (t : Trace) (w : Witness) → Explains t w → says_sender t.header.version ≡ true
        → judges_repeats t.header.congestion ≡ true → OnlyTimeoutsVoidReports t.header
        (stamped t.header t.lines w.steps) }

    // So is it of each run of the model of which data in flight refuses no step.
    ensures runs { (h : Header) (xs : List (Stamped tcp_shape)) → says_sender h.version ≡ true
        → judges_repeats h.congestion ≡ true → Lawful (tcp h) (start (tcp h)) xs → Dutiful h (first_known h) xs
        → OnlyTimeoutsVoidReports h xs }
{}

/// In version 6, at `congestion full` or `recovery`: an endpoint builds a position again only if there was a reason
/// since it built it before, or with a rescue. The reasons are those of `kept_flights::repeats_have_reasons`, except
/// that a partial acknowledgment in fast recovery is none if both SYNs permitted selective acknowledgments; and two
/// more:
///
/// - The endpoint recovers from a loss, and a segment delivered something that was built later than the position was:
///   it acknowledged it, or a block reported it (RFC 6675, 4, IsLost; RFC 8985, 6.2).
/// - The timer for a probe expired, and the segment is the first one since then, and ends all that was sent (RFC 8985,
///   7.3).
///
/// For a rescue (RFC 6675, 4, NextSeg, 4), both SYNs permitted selective acknowledgments; the endpoint is in fast
/// recovery, which wasn't undone; nothing new may be sent; and blocks reported all that follows the segment.
///
/// A FIN alone that it sent before doesn't count as building. This is true of each case that gets a yes.
pub fn repeats_are_rescues()
    ensures yes { (t : Trace) (w : Witness) → Explains t w → says_sender t.header.version ≡ true
        → judges_repeats t.header.congestion ≡ true → RepeatsAreRescues t.header (stamped t.header t.lines w.steps) }

    // So is it of each run of the model of which data in flight refuses no step.
    ensures runs { (h : Header) (xs : List (Stamped tcp_shape)) → says_sender h.version ≡ true
        → judges_repeats h.congestion ≡ true → Lawful (tcp h) (start (tcp h)) xs → Dutiful h (first_known h) xs
        → RepeatsAreRescues h xs }
{}

/// In version 6, at `congestion full` or `recovery`: an endpoint sends at most one such rescue in a fast recovery.
/// Between two segments, each with a position that is built again without a reason, fast recovery begins anew (RFC
/// 6675, 4, NextSeg, 4). This is true of each case that gets a yes.
pub fn rescues_come_once()
    ensures yes { (t : Trace) (w : Witness) → Explains t w → says_sender t.header.version ≡ true
        → judges_repeats t.header.congestion ≡ true → RescuesComeOnce t.header (stamped t.header t.lines w.steps) }

    // So is it of each run of the model of which data in flight refuses no step.
    ensures runs { (h : Header) (xs : List (Stamped tcp_shape)) → says_sender h.version ≡ true
        → judges_repeats h.congestion ≡ true → Lawful (tcp h) (start (tcp h)) xs → Dutiful h (first_known h) xs
        → RescuesComeOnce h xs }
{}
