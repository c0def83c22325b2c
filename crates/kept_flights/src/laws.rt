//! What a run whose steps aren't refused says of data in flight.

ghost use Rattle.std.specs.Prelude.{◌≡◌, List, true};
ghost use Rattle.case_forms.specs.Versions.{says_sender};
ghost use Rattle.case_forms.specs.declared.steps.Witness.{Witness};
ghost use Rattle.case_forms.specs.declared.trace.Header.{Header};
ghost use Rattle.case_forms.specs.declared.trace.Trace.{Trace};
ghost use Rattle.spec_network.specs.Hosts.{Stamped};
ghost use Rattle.spec_network.specs.HostSteps.{Lawful, start};
ghost use Rattle.spec_tcp.specs.Machine.{tcp, tcp_shape};
ghost use Rattle.spec_duties.specs.Resent.{judges_repeats};
ghost use Rattle.spec_cases.specs.Cases.{Dutiful, first_known};
ghost use Rattle.checker.specs.Explains.{Explains};
ghost use Rattle.checker.specs.Seen.{stamped};
ghost use Rattle.kept_flights.specs.Reasons.{RepeatsHaveReasons};
ghost use Rattle.kept_flights.specs.Reported.{WhatWasReportedStays};

use flights::what_is_told_stays;

/// In version 6, at `congestion full` or `recovery`: once an endpoint began fast recovery, and until its retransmission
/// timer expires, it builds no segment with an unacknowledged position that a block reported to it, unless it built the
/// position since, or the segment is a FIN alone (RFC 2018, 5 and 8; RFC 6675, 4, NextSeg). This is true of each case
/// that gets a yes.
pub fn what_was_reported_stays()
    ensures yes { (t : Trace) (w : Witness) → Explains t w → says_sender t.header.version ≡ true
        → judges_repeats t.header.congestion ≡ true → WhatWasReportedStays t.header (stamped t.header t.lines w.steps) }

    // So is it of each run of the model of which data in flight refuses no step.
    ensures runs { (h : Header) (xs : List (Stamped tcp_shape)) → says_sender h.version ≡ true
        → judges_repeats h.congestion ≡ true → Lawful (tcp h) (start (tcp h)) xs → Dutiful h (first_known h) xs
        → WhatWasReportedStays h xs }
{
    what_is_told_stays()
}

/// In version 6, at `congestion full` or `recovery`: unless both SYNs permitted selective acknowledgments, an endpoint
/// builds a position again only if there was a reason since it built it before, so at most once for each reason. The
/// reasons are:
///
/// - Its retransmission timer or its persist timer expired (RFC 6298, 5.4; RFC 9293, 3.8.6.1).
/// - A segment opened its window while the persist timer ran.
/// - Fast recovery began, and the position was in the first segment of what was outstanding (RFC 5681, 3.2, step 3).
/// - In fast recovery, which wasn't undone, a segment acknowledged more, but not all that was sent when it began; and
///   the position was in the first segment then (RFC 6582, 3.2, step 3).
/// - The position is that of its SYN, and the peer's SYN came without acknowledging it, or came again (RFC 9293,
///   3.10.7.3 and 3.10.7.4).
///
/// A FIN alone that it sent before doesn't count as building. This is true of each case that gets a yes.
pub fn repeats_have_reasons()
    ensures yes { (t : Trace) (w : Witness) → Explains t w → says_sender t.header.version ≡ true
        → judges_repeats t.header.congestion ≡ true → RepeatsHaveReasons t.header (stamped t.header t.lines w.steps) }

    // So is it of each run of the model of which data in flight refuses no step.
    ensures runs { (h : Header) (xs : List (Stamped tcp_shape)) → says_sender h.version ≡ true
        → judges_repeats h.congestion ≡ true → Lawful (tcp h) (start (tcp h)) xs → Dutiful h (first_known h) xs
        → RepeatsHaveReasons h xs }
{}
