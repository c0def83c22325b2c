//! The rules that a step may break, by name, in the order in which they are tested.

ghost use Rattle.std.specs.Prelude.{◌≡◌, ◌≤◌, Some, length};
ghost use Rattle.verdict.specs.Rules.{rule_name, rule_number};

use std::fmt;

/// A rule of the order of lines (the first six and `Unplaced`), of the model, or, after `Unplaced`, of what a host must
/// do (version 5). If a step breaks several, the first in this list is reported.
#[derive(Clone, Copy, Debug, PartialEq, Eq)]
pub enum Rule {
    /// L names no event line, or names an unplaced line with another count of extra numbers than its kind needs.
    LineRange,
    /// That line was placed before.
    LineAgain,
    /// An earlier line of its thread is not placed.
    ThreadOrder,
    /// The step's moment is before that of the step before.
    MomentFalls,
    /// The step's moment is before the line's, or after it by more than the skew.
    MomentOff,
    /// Some line that is not placed may no longer wait.
    Overdue,
    /// The line begins a call, but the thread has an open call.
    ThreadBusy,
    /// An effect or the end of a call, but the thread has no open call.
    NoCall,
    /// An effect, but the open call already had its effect.
    DoneTwice,
    /// The end of a call that had no effect yet, or had another answer.
    AnswerDiffers,
    /// An effect returns a socket number that was returned before.
    Socket,
    /// An effect with an answer that the call may not have.
    CallAnswer,
    /// No endpoint exists at these ports, or it is closed.
    NoEndpoint,
    /// The endpoint's state allows no segment of that kind.
    State,
    /// The initial send sequence number is missing, was given before, or is given without a SYN.
    Iss,
    /// The segment on the wire is not the one that was built.
    BytesDiffer,
    /// No such segment was built, or it was already sent.
    NotMade,
    /// The segment's bytes are not among those accepted, or its FIN is not at the end of them.
    PayloadRange,
    /// An acknowledgment before the peer's SYN was received, or no acknowledgment after it.
    AckField,
    /// A segment with old data at a place where nothing may be retransmitted.
    OldData,
    /// New data ends beyond the offered window (RFC 9293, 3.8.6).
    Offered,
    /// New data ends beyond the congestion window (RFC 5681, 3.1).
    Congestion,
    /// The segment holds more data than the sender's maximum segment size.
    Size,
    /// What arrives is not a segment that the other host sent.
    NoEmission,
    /// What arrives has other bytes than the segment that it copies.
    CopyDiffers,
    /// The segment is older than the maximum segment lifetime.
    Lifetime,
    /// The segment isn't waiting in the host's inbox.
    Inbox,
    /// The segment was built by another endpoint than this endpoint's peer.
    NotPeer,
    /// A sequence or acknowledgment number does not read back to its position.
    Number,
    /// The segment is not acceptable (RFC 9293, 3.4).
    Unacceptable,
    /// The acknowledgment is missing or out of range.
    AckRange,
    /// The child would join a full listen queue.
    QueueFull,
    /// The congestion window or the slow start threshold is above the greatest value allowed.
    Growth,
    /// A round trip time is measured when it may not be (RFC 6298, 3).
    Sample,
    /// The timer is not armed, or what it waits for doesn't exist.
    TimerOff,
    /// The timer expires before it may.
    TimerEarly,
    /// Fast recovery may not be entered (RFC 5681, 3.2).
    Recovery,
    /// A segment's window would be read with another shift than its sender's.
    ScaleUnread,
    /// A line is not placed after the last step.
    Unplaced,
    /// A segment is dropped that the host has to process or answer (RFC 9293, 3.10.7).
    Dropped,
    /// What is next in order is received but not kept (RFC 9293, 3.10.7.4).
    Discarded,
    /// A segment waits too long in the inbox (RFC 9293, 3.10.7).
    ProcessLate,
    /// A segment is sent too long after it was built (RFC 9293, 3.10.2 and 3.10.7).
    SendLate,
    /// An acknowledgment is late (RFC 9293, 3.8.6.3; RFC 5681, 4.2).
    AckLate,
    /// The retransmission timer expires late (RFC 6298, 5.1 to 5.3).
    ExpiryLate,
    /// The retransmission after an expiry is late (RFC 6298, 5.4).
    ResendLate,
    /// A probe of a closed window is late (RFC 9293, 3.8.6.1).
    ProbeLate,
    /// What may be sent is sent late (RFC 9293, 3.8.6.2.1, 3.10.2 and 3.10.4).
    StartLate,
    /// The reset of an aborted connection is late (RFC 9293, 3.10.5).
    ResetLate,
    /// A position is retransmitted twice after one expiry (RFC 6298, 5.4; RFC 5681, 3.2).
    Resent,
    /// A retransmission ends beyond the congestion window (RFC 5681, 3.1).
    ResentBeyond,
    /// There are more acknowledgments than received segments (RFC 5681, 4.2).
    AckExcess,
    /// A selective acknowledgment reports what the host doesn't hold, or wasn't permitted (RFC 2018, 2 to 4).
    SackUntrue,
    /// A segment doesn't echo the timestamp that it has to (RFC 7323, 3.2 and 4.3).
    Echo,
    /// The timestamp of a segment is older than that of one that was built before it (RFC 7323, 5.2).
    ClockFalls,
    /// A round trip isn't measured, though none was since this data was sent (RFC 6298, 3).
    SampleDue,
    /// A call that can be answered is answered late (RFC 9293, 3.9.1).
    AnswerLate,
}

impl Rule {
    /// The rule's name, as a verdict prints it.
    pub fn name(self) -> &'static str
        ensures name { result.now ≡ rule_name self }
        ensures short { length result.now ≤ 14 }
    {
        match self {
            Rule::LineRange => "line-range",
            Rule::LineAgain => "line-again",
            Rule::ThreadOrder => "thread-order",
            Rule::MomentFalls => "moment-falls",
            Rule::MomentOff => "moment-off",
            Rule::Overdue => "overdue",
            Rule::ThreadBusy => "thread-busy",
            Rule::NoCall => "no-call",
            Rule::DoneTwice => "done-twice",
            Rule::AnswerDiffers => "answer-differs",
            Rule::Socket => "socket",
            Rule::CallAnswer => "call-answer",
            Rule::NoEndpoint => "no-endpoint",
            Rule::State => "state",
            Rule::Iss => "iss",
            Rule::BytesDiffer => "bytes-differ",
            Rule::NotMade => "not-made",
            Rule::PayloadRange => "payload-range",
            Rule::AckField => "ack-field",
            Rule::OldData => "old-data",
            Rule::Offered => "offered",
            Rule::Congestion => "congestion",
            Rule::Size => "size",
            Rule::NoEmission => "no-emission",
            Rule::CopyDiffers => "copy-differs",
            Rule::Lifetime => "lifetime",
            Rule::Inbox => "inbox",
            Rule::NotPeer => "not-peer",
            Rule::Number => "number",
            Rule::Unacceptable => "unacceptable",
            Rule::AckRange => "ack-range",
            Rule::QueueFull => "queue-full",
            Rule::Growth => "growth",
            Rule::Sample => "sample",
            Rule::TimerOff => "timer-off",
            Rule::TimerEarly => "timer-early",
            Rule::Recovery => "recovery",
            Rule::ScaleUnread => "scale-unread",
            Rule::Unplaced => "unplaced",
            Rule::Dropped => "dropped",
            Rule::Discarded => "discarded",
            Rule::ProcessLate => "process-late",
            Rule::SendLate => "send-late",
            Rule::AckLate => "ack-late",
            Rule::ExpiryLate => "expiry-late",
            Rule::ResendLate => "resend-late",
            Rule::ProbeLate => "probe-late",
            Rule::StartLate => "start-late",
            Rule::ResetLate => "reset-late",
            Rule::Resent => "resent",
            Rule::ResentBeyond => "resent-beyond",
            Rule::AckExcess => "ack-excess",
            Rule::SackUntrue => "sack-untrue",
            Rule::Echo => "echo",
            Rule::ClockFalls => "clock-falls",
            Rule::SampleDue => "sample-due",
            Rule::AnswerLate => "answer-late",
        }
    }

    /// The rule's number, the first being 1. A lower-numbered rule is reported first.
    pub fn number(self) -> u32
        ensures { result ≡ rule_number self }
    {
        match self {
            Rule::LineRange => 1,
            Rule::LineAgain => 2,
            Rule::ThreadOrder => 3,
            Rule::MomentFalls => 4,
            Rule::MomentOff => 5,
            Rule::Overdue => 6,
            Rule::ThreadBusy => 7,
            Rule::NoCall => 8,
            Rule::DoneTwice => 9,
            Rule::AnswerDiffers => 10,
            Rule::Socket => 11,
            Rule::CallAnswer => 12,
            Rule::NoEndpoint => 13,
            Rule::State => 14,
            Rule::Iss => 15,
            Rule::BytesDiffer => 16,
            Rule::NotMade => 17,
            Rule::PayloadRange => 18,
            Rule::AckField => 19,
            Rule::OldData => 20,
            Rule::Offered => 21,
            Rule::Congestion => 22,
            Rule::Size => 23,
            Rule::NoEmission => 24,
            Rule::CopyDiffers => 25,
            Rule::Lifetime => 26,
            Rule::Inbox => 27,
            Rule::NotPeer => 28,
            Rule::Number => 29,
            Rule::Unacceptable => 30,
            Rule::AckRange => 31,
            Rule::QueueFull => 32,
            Rule::Growth => 33,
            Rule::Sample => 34,
            Rule::TimerOff => 35,
            Rule::TimerEarly => 36,
            Rule::Recovery => 37,
            Rule::ScaleUnread => 38,
            Rule::Unplaced => 39,
            Rule::Dropped => 40,
            Rule::Discarded => 41,
            Rule::ProcessLate => 42,
            Rule::SendLate => 43,
            Rule::AckLate => 44,
            Rule::ExpiryLate => 45,
            Rule::ResendLate => 46,
            Rule::ProbeLate => 47,
            Rule::StartLate => 48,
            Rule::ResetLate => 49,
            Rule::Resent => 50,
            Rule::ResentBeyond => 51,
            Rule::AckExcess => 52,
            Rule::SackUntrue => 53,
            Rule::Echo => 54,
            Rule::ClockFalls => 55,
            Rule::SampleDue => 56,
            Rule::AnswerLate => 57,
        }
    }
}

impl fmt::Display for Rule {
    ghost output = { λ rule. Some (rule_name rule) };

    fn fmt<W: fmt::Write>(&self, f: &mut fmt::Formatter<W>) -> fmt::Result {
        f.write_str(self.name())
    }
}
