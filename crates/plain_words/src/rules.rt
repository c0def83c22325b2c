//! What each rule refuses, what usually causes a step to break it, and the RFC sections that it comes from.
//!
//! docs/reference/rules.md has the same texts; tools/test_rules.py compares them.

use crate::causes::{COARSE_CLOCK, IGNORED_MSS, JOINED_SEGMENTS, Known, REWRITTEN, SMALL_SLACK};
use verdict::Rule;

/// What a rule means to someone whose case breaks it.
#[derive(Clone, Copy)]
pub struct Meaning {
    /// What is wrong with a line whose step breaks the rule, in a few words.
    pub refused: &'static str,
    /// The usual cause.
    pub usual: &'static str,
    /// A further cause if the segments were captured. Empty: none.
    pub captured: &'static str,
    /// What has a cause of its own, if it is known at the step.
    pub special: &'static [Known],
    /// Numbers of RFCs, each with its sections. Empty: the rule is specific to this tool.
    pub rfc: &'static str,
}

// What a meaning has if nothing else is given: one cause at any step, and no section of an RFC.
const PLAIN: Meaning = Meaning {
    refused: "",
    usual: "",
    captured: "",
    special: &[],
    rfc: "",
};

/// What of congestion control a rule judges.
#[derive(Clone, Copy)]
pub enum Control {
    /// Windows: only `full` judges them.
    Windows,
    /// When outstanding data may be retransmitted: `none` doesn't judge it.
    Retransmission,
}

/// The rules that a laxer level may leave unjudged. All others are the same at each level.
pub const LEVEL_RULES: [(Rule, Control); 6] = [
    (Rule::OldData, Control::Retransmission),
    (Rule::Congestion, Control::Windows),
    (Rule::Growth, Control::Windows),
    (Rule::Recovery, Control::Retransmission),
    (Rule::Resent, Control::Retransmission),
    (Rule::ResentBeyond, Control::Windows),
];

/// The meaning of a rule.
pub fn about(rule: Rule) -> &'static Meaning {
    match rule {
        Rule::LineRange => &Meaning {
            refused: "the trace has no such event line, or one of another kind",
            usual: "the trace was cut, or a line was added without renumbering the witness",
            ..PLAIN
        },
        Rule::LineAgain => &Meaning {
            refused: "the line is used twice",
            usual: "the witness repeats a step, or a line number is one too low",
            ..PLAIN
        },
        Rule::ThreadOrder => &Meaning {
            refused: "an earlier line of the same thread comes after it",
            usual: "the witness has two lines of one thread in the wrong order",
            captured: "two lines of one thread were recorded in the wrong order",
            ..PLAIN
        },
        Rule::MomentFalls => &Meaning {
            refused: "it comes after a later moment",
            usual: "the witness's steps aren't sorted by their moments",
            captured: "two threads without a common clock wrote the witness",
            ..PLAIN
        },
        Rule::MomentOff => &Meaning {
            refused: "it happens at another moment than the trace and its skew allow",
            usual: "the step's moment differs from its line's",
            captured: "`skew` is smaller than the clock error",
            ..PLAIN
        },
        Rule::Overdue => &Meaning {
            refused: "an earlier line is overdue",
            usual: "the witness lacks a step for a line, or has it too late",
            ..PLAIN
        },
        Rule::ThreadBusy => &Meaning {
            refused: "a call begins in a thread whose last call hasn't ended",
            usual: "the trace lacks the end of a call, or two threads share one number",
            ..PLAIN
        },
        Rule::NoCall => &Meaning {
            refused: "a call ends in a thread that has no open call",
            usual: "the trace lacks the beginning of the call, or has another thread number there",
            ..PLAIN
        },
        Rule::DoneTwice => &Meaning {
            refused: "one call has two effects",
            usual: "the witness has two effects for one call",
            ..PLAIN
        },
        Rule::AnswerDiffers => &Meaning {
            refused: "the call's answer isn't that of its effect",
            usual: "the trace has what the stack did, not what its caller got, or the witness lacks the effect",
            ..PLAIN
        },
        Rule::Socket => &Meaning {
            refused: "the call returns a socket number that was returned before",
            usual: "the trace has file descriptors as socket numbers; it may return each number only once",
            rfc: "9293, 3.9.1.1 (it leaves the form of the name open)",
            ..PLAIN
        },
        Rule::CallAnswer => &Meaning {
            refused: "the call can't have this answer at this point",
            usual: "the stack obeys a reset outside its window, or skips TIME-WAIT; or the witness has the effect at \
the wrong place",
            special: &[
                Known::Listen,
                Known::Open,
                Known::Accept,
                Known::Send,
                Known::Receive,
                Known::Close,
                Known::Await,
                Known::Status,
            ],
            rfc: "9293, 3.9.1, 3.10.1 to 3.10.6",
            ..PLAIN
        },
        Rule::NoEndpoint => &Meaning {
            refused: "no connection or listener exists at these ports",
            usual: "a reset, an expiry or a call already closed the connection, or the witness has the open too late",
            special: &[
                Known::ResetAnswered,
                Known::ResetNumber,
                Known::Building,
                Known::Processing,
            ],
            rfc: "9293, 3.3.2, 3.10",
            ..PLAIN
        },
        Rule::State => &Meaning {
            refused: "the state of the connection doesn't allow this segment",
            usual: "the stack does what this state doesn't allow, such as a reset with ACK, or a reset at \
`connect(AF_UNSPEC)` (Linux); or the witness has the step at the wrong place",
            special: &[
                Known::ResetAnswered,
                Known::ResetNumber,
                Known::TimeWait,
                Known::OtherState,
            ],
            rfc: "9293, 3.3.2, 3.5, 3.5.2, 3.10.4, 3.10.5, 3.10.7.1 to 3.10.7.3",
            ..PLAIN
        },
        Rule::Iss => &Meaning {
            refused: "the initial sequence number is missing, or was given before",
            usual: "the first SYN's step lacks its number, or a later step repeats it",
            rfc: "9293, 3.4.1; 7323, 2.2 (the shift comes with the number)",
            ..PLAIN
        },
        Rule::BytesDiffer => &Meaning {
            refused: "the segment isn't the one that its host sends at this point",
            usual: "the stack sends other bytes than the application did, or the witness names another built segment",
            captured: "an offload rewrote the segment",
            special: &[Known::HigherAck, Known::LowerAck],
            rfc: "9293, 3.1, 3.4; 7323, 2.2, 2.3",
        },
        Rule::NotMade => &Meaning {
            refused: "its host sends no such segment at this point",
            usual: "the witness's numbers of built segments are off by one, the trace has a line twice, or the \
segment has a port 0, as no endpoint has",
            ..PLAIN
        },
        Rule::PayloadRange => &Meaning {
            refused: "the segment carries data that the program hasn't sent, or a FIN before its end",
            usual: "the stack sends data before the application does, or a FIN before the data ends; or the witness \
has the call's effect too late",
            rfc: "9293, 3.5.3, 3.8, 3.10.2, 3.10.4",
            ..PLAIN
        },
        Rule::AckField => &Meaning {
            refused: "the segment acknowledges before the peer's SYN arrived, or not at all after it",
            usual: "the stack acknowledges a SYN that didn't arrive, or sends without ACK after one; or the witness \
processes that SYN at the wrong place",
            rfc: "9293, 3.1, 3.10.7.4",
            ..PLAIN
        },
        Rule::OldData => &Meaning {
            refused: "the segment begins at a position that may not be sent now",
            usual: "the stack retransmits without an expiry or fast recovery, or the trace lacks the expiry (a `T` \
line)",
            special: &[
                Known::TimeWait,
                Known::Gap,
                Known::Acknowledged,
                Known::OutstandingAtNone,
                Known::SynAtNone,
                Known::NotRestarted,
                Known::ProbeElsewhere,
                Known::ProbeAgain,
                Known::Reported,
                Known::SentTwice,
                Known::NotLostYet,
                Known::TailProbe,
                Known::NothingLater,
            ],
            rfc: "9293, 3.8.1, 3.8.4; 6298, 5; 5681, 3.2; 8985, 7.3",
            ..PLAIN
        },
        Rule::Offered => &Meaning {
            refused: "the segment ends beyond the window that its peer offers",
            usual: "the stack ignores the peer's window, doesn't apply its shift, uses a window that the peer shrank, \
or updates it although SND.WL1 is greater (Linux, once a hole is filled)",
            captured: "the trace is of version 1 and windows are scaled, or an acknowledgment was recorded too late",
            rfc: "9293, 3.8.6, 3.8.6.1; 7323, 2.3",
            ..PLAIN
        },
        Rule::Congestion => &Meaning {
            refused: "the segment ends beyond the congestion window",
            usual: "the stack lacks slow start, or doesn't follow RFC 5681",
            special: &[
                Known::Oversized,
                Known::NotDeflated,
                Known::ThresholdKept,
                Known::NotReduced,
                Known::LimitedTransmit,
                Known::FirstWindow,
                Known::Avoiding,
            ],
            rfc: "5681, 3.1, 3.2 (step 1); 6928, 2",
            ..PLAIN
        },
        Rule::Size => &Meaning {
            refused: "the segment carries more bytes than the peer's maximum segment size",
            usual: IGNORED_MSS,
            captured: JOINED_SEGMENTS,
            rfc: "9293, 3.7.1",
            ..PLAIN
        },
        Rule::NoEmission => &Meaning {
            refused: "no segment that the other host sent before is left to arrive here",
            usual: "the trace lacks the segment's O line, or the witness names another line",
            captured: "the sender's capture lost the segment, or the clocks are off by more than `skew`",
            special: &[Known::OtherBytes],
            ..PLAIN
        },
        Rule::CopyDiffers => &Meaning {
            refused: "the segment arrives with other bytes than it was sent with",
            usual: "the wire changed the segment, or the witness names another segment's line",
            captured: REWRITTEN,
            rfc: "9293, 3.1",
            ..PLAIN
        },
        Rule::Lifetime => &Meaning {
            refused: "the segment arrives later than its maximum lifetime allows",
            usual: "`msl` is smaller than the delay, or the witness names an older line with the same bytes",
            rfc: "9293, 3.4.2",
            ..PLAIN
        },
        Rule::Inbox => &Meaning {
            refused: "the segment hasn't arrived, or was processed before",
            usual: "the witness has the segment's step twice, or before it arrives",
            ..PLAIN
        },
        Rule::NotPeer => &Meaning {
            refused: "the segment belongs to another connection between the same ports",
            usual: "the stack accepted a segment of an older connection on the same ports",
            ..PLAIN
        },
        Rule::Number => &Meaning {
            refused: "the segment's number is too far from those of the connection",
            usual: "the stack accepted a very old copy, whose number now reads as another position",
            rfc: "9293, 3.4",
            ..PLAIN
        },
        Rule::Unacceptable => &Meaning {
            refused: "the segment is outside the receive window",
            usual: "the stack accepted a segment outside its window, which the witness has to drop (K), or the peer \
ignored the window",
            rfc: "9293, 3.4, 3.10.7.4 (first, fourth)",
            ..PLAIN
        },
        Rule::AckRange => &Meaning {
            refused: "the segment acknowledges what wasn't sent, or nothing",
            usual: "a stack acknowledges what was never sent, or the witness builds it later",
            captured: "the capture lost the acknowledged segment",
            rfc: "9293, 3.10.7.3, 3.10.7.4 (fifth)",
            ..PLAIN
        },
        Rule::QueueFull => &Meaning {
            refused: "the listen queue is full",
            usual: "the stack queues more children than backlog and `extra` allow; raise `extra`",
            ..PLAIN
        },
        Rule::Growth => &Meaning {
            refused: "the congestion window or the slow start threshold is greater than allowed",
            usual: "the window grows faster than RFC 5681 allows; the witness may choose at most the greatest value",
            special: &[Known::NotDeflated, Known::ThresholdKept, Known::NotReduced],
            rfc: "5681, 3.1, 3.2; 6928, 2",
            ..PLAIN
        },
        Rule::Sample => &Meaning {
            refused: "a round trip is measured by data that was sent twice, or by none",
            usual: "a round trip was measured with data that was sent twice, which Karn's rule forbids (RFC 6298, 3)",
            special: &[Known::NothingNew],
            rfc: "6298, 3",
            ..PLAIN
        },
        Rule::TimerOff => &Meaning {
            refused: "a timer expires that isn't running",
            usual: "the stack doesn't stop the timer once all is acknowledged, or the witness has the acknowledgment \
too early",
            special: &[
                Known::PersistOpen,
                Known::PersistOff,
                Known::Msl2Off,
                Known::GiveupOff,
                Known::ProbeOfSyn,
                Known::ProbeIdle,
                Known::ProbePlain,
                Known::NotUndone,
                Known::ProbeRecovers,
                Known::ProbeTwice,
                Known::ProbeReported,
            ],
            rfc: "6298, 5.1, 5.2; 9293, 3.6.1, 3.8.3, 3.8.6.1; 8985, 7.2, 7.3",
            ..PLAIN
        },
        Rule::TimerEarly => &Meaning {
            refused: "a timer expires too early",
            usual: "the timeout is below RFC 6298's formula, or uses a sample of data sent twice",
            captured: COARSE_CLOCK,
            special: &[
                Known::NotRestarted,
                Known::NotDoubled,
                Known::Unsampled,
                Known::BelowMinimum,
                Known::PersistEarly,
                Known::Msl2Early,
                Known::ProbeEarly,
            ],
            rfc: "6298, 2, 4, 5; 9293, 3.6.1, 3.8.6.1; 8985, 7.2",
        },
        Rule::Recovery => &Meaning {
            refused: "fast recovery begins, or a recovery is undone, where it may not",
            usual: "the stack began after fewer than three duplicate acknowledgments (early retransmit, or SACK before \
version 6)",
            special: &[
                Known::NothingOutstanding,
                Known::NothingToUndo,
                Known::UndoneUnsent,
                Known::UndoneAtEnd,
                Known::UndoneNeeded,
                Known::NotUndone,
                Known::StillRecovers,
                Known::NotLostYet,
            ],
            rfc: "5681, 2, 3.2 (steps 2 to 4); 3522, 3.2; 4015, 3.2; 5682, 3",
            ..PLAIN
        },
        Rule::ScaleUnread => &Meaning {
            refused: "only one of the two hosts scales windows",
            usual: "one side scales windows by an option that the other side didn't send or process",
            rfc: "7323, 2.2 (the rule is specific to this profile)",
            ..PLAIN
        },
        Rule::Unplaced => &Meaning {
            refused: "nothing explains the line",
            usual: "the witness ends too early",
            ..PLAIN
        },
        Rule::Dropped => &Meaning {
            refused: "the host drops a segment that it has to process or answer",
            usual: "the stack ignores a segment that it could process, such as a window update or a FIN; or \
the witness \
drops it to explain later lines",
            captured: "the segment was recorded below a firewall or a full buffer, and TCP never received it",
            rfc: "9293, 3.10.7; 5961, 3.2; 7323, 3.2, 5.3",
            ..PLAIN
        },
        Rule::Discarded => &Meaning {
            refused: "the host doesn't keep data that is next in order",
            usual: "the stack offered more window than it has room for, or discards data in order under \
memory pressure",
            rfc: "9293, 3.6.1, 3.10.7.4",
            ..PLAIN
        },
        Rule::ProcessLate => &Meaning {
            refused: "a segment waits too long in the inbox",
            usual: "the stack holds received segments back, or the witness processes the segment too late",
            captured: SMALL_SLACK,
            rfc: "9293, 3.10.7",
            ..PLAIN
        },
        Rule::SendLate => &Meaning {
            refused: "a segment is sent too long after it was built",
            usual: "the stack holds finished segments back, or the witness builds the segment too early",
            captured: SMALL_SLACK,
            rfc: "9293, 3.10.2, 3.10.7",
            special: &[Known::NeverSent],
            ..PLAIN
        },
        Rule::AckLate => &Meaning {
            refused: "no acknowledgment is sent within half a second and the slack",
            usual: "the stack delays acknowledgments by more than half a second, or doesn't acknowledge this segment",
            captured: "the capture lost the acknowledgment",
            rfc: "9293, 3.8.6.3, 3.10.7.4; 5681, 4.2",
            ..PLAIN
        },
        Rule::ExpiryLate => &Meaning {
            refused: "the retransmission timer should have expired",
            usual: "the stack's timeout is longer than RFC 6298's, or no timer runs; or the witness lacks the expiry",
            captured: "the capture lost the retransmission",
            rfc: "6298, 2.1, 5.1 to 5.3",
            ..PLAIN
        },
        Rule::ResendLate => &Meaning {
            refused: "a timer expired, and nothing was retransmitted",
            usual: "after an expiry, the stack doesn't retransmit, or doesn't begin with the earliest outstanding data",
            captured: "the capture lost the retransmission",
            rfc: "6298, 5.4",
            ..PLAIN
        },
        Rule::ProbeLate => &Meaning {
            refused: "a closed window should have been probed",
            usual: "the stack doesn't probe a closed window, or waits more than twice as long from probe to probe",
            captured: "the capture lost the probe",
            rfc: "9293, 3.8.6.1",
            ..PLAIN
        },
        Rule::StartLate => &Meaning {
            refused: "the host doesn't send what it has to send",
            usual: "the stack holds data, a SYN or a FIN back for more than a second, though all is acknowledged",
            captured: "the capture lost the segment",
            rfc: "9293, 3.8.6.2.1, 3.10.2, 3.10.4",
            ..PLAIN
        },
        Rule::ResetLate => &Meaning {
            refused: "an aborted connection sends no reset",
            usual: "the stack frees an aborted connection without sending a reset",
            captured: "the capture lost the reset",
            rfc: "9293, 3.10.5",
            ..PLAIN
        },
        Rule::Resent => &Meaning {
            refused: "data is retransmitted twice after one expiry",
            usual: "the stack retransmits the same data again without a new expiry, or the witness lacks an expiry",
            rfc: "6298, 5.4, 5.5; 5681, 3.2",
            ..PLAIN
        },
        Rule::ResentBeyond => &Meaning {
            refused: "outstanding data beyond the congestion window is retransmitted",
            usual: "after an expiry, the stack retransmits more at once than its congestion window allows",
            rfc: "5681, 3.1",
            ..PLAIN
        },
        Rule::AckExcess => &Meaning {
            refused: "the host sends more acknowledgments than it received segments",
            usual: "the stack acknowledges one segment several times, or the witness lacks a received segment",
            captured: "the capture lost a received segment",
            rfc: "5681, 4.2",
            ..PLAIN
        },
        Rule::SackUntrue => &Meaning {
            refused: "the host reports data that it doesn't hold, or its peer didn't permit such reports",
            usual: "the stack builds a SACK block with wrong edges, or without permission, or of what it discarded",
            captured: "the capture lost a received segment",
            rfc: "2018, 2 to 4",
            ..PLAIN
        },
        Rule::Echo => &Meaning {
            refused: "a segment doesn't echo the timestamp that it has to, or has none",
            usual: "the stack echoes the timestamp of another segment than the last one that it processed in order",
            captured: "the capture lost a received segment",
            rfc: "7323, 3.2, 4.3",
            ..PLAIN
        },
        Rule::ClockFalls => &Meaning {
            refused: "a segment's own timestamp is older than that of a segment that was built before it",
            usual: "the stack's timestamp clock goes back, or a segment has the timestamp of another",
            rfc: "7323, 5.2",
            ..PLAIN
        },
        Rule::SampleDue => &Meaning {
            refused: "no round trip is measured, though one is due",
            usual: "the witness leaves out a sample; a stack has to measure at least one round trip for each flight",
            rfc: "6298, 3",
            ..PLAIN
        },
        Rule::AnswerLate => &Meaning {
            refused: "a call is answered late, though it could be answered",
            usual: "the stack doesn't wake the thread that waits in recv, await or accept",
            rfc: "9293, 3.9.1",
            ..PLAIN
        },
    }
}
