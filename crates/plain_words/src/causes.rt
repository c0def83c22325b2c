//! Likely causes of a refused step, and what may be known at one.

pub(crate) const IGNORED_MSS: &str =
    "the stack ignores the peer's MSS, which is 536 if its SYN has none";

pub(crate) const JOINED_SEGMENTS: &str =
    "segmentation offload is on, so the capture shows many segments as one";

pub(crate) const COARSE_CLOCK: &str = "the stack's clock is coarser than `grain`";

pub(crate) const REWRITTEN: &str =
    "a middlebox or a checksum offload rewrote the segment between the two captures";

const LOST_ACK: &str = "the capture lost an acknowledgment";

pub(crate) const SMALL_SLACK: &str =
    "`slack` is smaller than the delay between the capture and the stack";

/// What is known at a refused step, if the causes of its rule depend on it.
#[derive(Clone, Copy)]
pub enum Known {
    /// The answer refused is that of `listen`.
    Listen,
    /// The answer refused is that of `open`.
    Open,
    /// The answer refused is that of `accept`.
    Accept,
    /// The answer refused is that of `send`.
    Send,
    /// The answer refused is that of `recv`.
    Receive,
    /// The answer refused is that of `close` or `abort`.
    Close,
    /// The answer refused is that of `await`.
    Await,
    /// The answer refused is that of `status`.
    Status,
    /// The step builds a segment.
    Building,
    /// The step processes a segment.
    Processing,
    /// The step builds or sends a reset, and the last segment that arrived at its ports is a reset.
    ResetAnswered,
    /// The step builds a reset with other numbers than those that the last segment at its ports asks for.
    ResetNumber,
    /// The step builds a segment that isn't a reset, in a state that isn't CLOSED.
    OtherState,
    /// The endpoint that builds the segment is in TIME-WAIT.
    TimeWait,
    /// The segment begins beyond everything sent.
    Gap,
    /// The segment begins with data that is acknowledged already.
    Acknowledged,
    /// The segment repeats outstanding data, at the level `none`.
    OutstandingAtNone,
    /// The segment repeats a SYN, at the level `none`.
    SynAtNone,
    /// The segment has more bytes than SMSS.
    Oversized,
    /// The segment fits, or is said to fit, a window that the end of fast recovery didn't deflate.
    NotDeflated,
    /// The segment fits a window if no loss set ssthresh; or the step chooses an ssthresh that is too great.
    ThresholdKept,
    /// The segment fits the window before the expiry; or the step chooses a cwnd that is too great at one.
    NotReduced,
    /// One or two duplicate acknowledgments arrived, and fast recovery didn't begin.
    LimitedTransmit,
    /// Nothing but the SYN is acknowledged, and no timer expired.
    FirstWindow,
    /// The window is in congestion avoidance.
    Avoiding,
    /// The segment sent has a higher acknowledgment number than the one built, and else the same numbers.
    HigherAck,
    /// The segment sent has a lower acknowledgment number than the one built, and else the same numbers.
    LowerAck,
    /// The segment received differs in some bytes from a segment that was sent.
    OtherBytes,
    /// The segment was built and never sent.
    NeverSent,
    /// The timer is persist and isn't running, the window is open, and data could be sent.
    PersistOpen,
    /// The timer is persist, and isn't running.
    PersistOff,
    /// The timer is 2msl, and isn't running.
    Msl2Off,
    /// The timer is giveup, and isn't running.
    GiveupOff,
    /// The timer is pto, and the handshake isn't done.
    ProbeOfSyn,
    /// The timer is pto, and nothing is outstanding.
    ProbeIdle,
    /// The timer is pto, and not both SYNs permitted SACK.
    ProbePlain,
    /// The timer is pto, and a recovery is going on.
    ProbeRecovers,
    /// The timer is pto, and a probe is due, or was sent and isn't acknowledged.
    ProbeTwice,
    /// The timer is pto, and the peer reported something outstanding.
    ProbeReported,
    /// The timer is pto, and expires too early.
    ProbeEarly,
    /// The step undoes a recovery, but none began since the last one was undone.
    NothingToUndo,
    /// The step undoes a recovery, in which nothing was sent again.
    UndoneUnsent,
    /// The step undoes a recovery, and all is acknowledged that was sent before it.
    UndoneAtEnd,
    /// The step undoes a recovery, and none of these is known.
    UndoneNeeded,
    /// The segment acknowledges nothing new, or is a reset.
    NothingNew,
    /// The timer is rto, and expires on time, or the segment comes at that time, if a new acknowledgment didn't restart
    /// the timer.
    NotRestarted,
    /// The timer is rto, and expires on time if the expiries before didn't double its timeout.
    NotDoubled,
    /// The timer is rto, runs for less than a second, and no round trip was measured.
    Unsampled,
    /// The timer is rto, and runs for less than the minimum.
    BelowMinimum,
    /// The timer is persist, and expires too early.
    PersistEarly,
    /// The timer is 2msl, and expires too early.
    Msl2Early,
    /// Fast recovery begins with nothing outstanding, at the level `none`.
    NothingOutstanding,
    /// Both SYNs permitted SACK, and the peer reported the data that goes again.
    Reported,
    /// Both SYNs permitted SACK, and the data went again before in this recovery. Nothing built later was delivered.
    SentTwice,
    /// Both SYNs permitted SACK, and something built later was delivered, but the data doesn't count as lost yet.
    NotLostYet,
    /// A probe for a loss is due, but the segment isn't the last one.
    ProbeElsewhere,
    /// The segment is the last one, and a probe for a loss was sent. Nothing built later was delivered.
    ProbeAgain,
    /// Both SYNs permitted SACK, no recovery is going on, and the segment is the last one. Nothing built later was
    /// delivered.
    TailProbe,
    /// Both SYNs permitted SACK, and nothing that was built after the data was delivered.
    NothingLater,
    /// Both SYNs permitted SACK, and fast recovery begins before the last recovery ended.
    StillRecovers,
    /// Both SYNs permitted SACK, and a recovery that may be undone keeps fast recovery from beginning, or the timer pto
    /// from expiring.
    NotUndone,
}

impl Known {
    /// The usual cause if this is known.
    pub fn usual(self) -> &'static str {
        match self {
            Known::Listen =>
                "the stack allows two listeners on a port, or refuses a port that has none; or the witness \
has the effect at the wrong place",
            Known::Open =>
                "the stack opens ports again before their connection is closed, TIME-WAIT included, or \
refuses free ones; or the witness has the effect at the wrong place",
            Known::Accept =>
                "the stack accepts a connection before its handshake is done, or out of order; or the \
witness has the effect at the wrong place",
            Known::Send =>
                "the stack accepts data after a shut or a reset, or obeys a reset outside its window (Linux: \
just below, after a FIN); or the witness has the effect at the wrong place",
            Known::Receive =>
                "the stack delivers data twice, too early or not at all (Linux: MSG_OOB), or obeys a reset \
outside its window (Linux: just below, after a FIN); or the witness has the effect at the wrong place",
            Known::Close =>
                "the socket number was never returned, or was closed before; or the witness has the effect \
at the wrong place",
            Known::Await =>
                "the stack reports a connection before its handshake is done or after it failed, or obeys a \
reset outside its window; or the witness has the effect at the wrong place",
            Known::Status =>
                "the stack changes its state where it may not, or keeps it where it has to change; or the \
witness has the effect at the wrong place",
            Known::Building =>
                "the stack sends after a reset, an expiry or a call closed the connection, or before a call \
opens it",
            Known::Processing =>
                "the segment finds no connection, so the witness has to drop it (K) or answer it with a \
reset (R)",
            Known::ResetAnswered =>
                "the stack answers a reset with a reset, which RFC 9293, 3.10.7.1, forbids",
            Known::ResetNumber => "the stack takes the numbers of its reset from the wrong field",
            Known::OtherState =>
                "the stack changed its state where it may not, or hasn't where it has to; or the witness has \
the step at the wrong place",
            Known::TimeWait => "the stack skips TIME-WAIT, or ends it before 2 `msl`",
            Known::HigherAck =>
                "the stack acknowledges what never arrived, skips a gap, or accepts data after the FIN",
            Known::LowerAck =>
                "the stack doesn't keep data inside the window that it offered: it shrinks the window, or \
drops data (`keep` 0 in the witness)",
            Known::Gap => "the stack skips positions that it hasn't sent yet",
            Known::Acknowledged =>
                "the stack retransmits acknowledged data, or the witness has the acknowledgment too early",
            Known::OutstandingAtNone =>
                "the witness lacks an F step before it; at `none` it may have one at any moment",
            Known::SynAtNone =>
                "the trace lacks the expiry (a `T` line) before it, which a SYN needs at every level",
            Known::Oversized => IGNORED_MSS,
            Known::NotDeflated =>
                "the stack doesn't set cwnd to ssthresh when fast recovery ends (RFC 5681, 3.2, step 6)",
            Known::ThresholdKept =>
                "the stack doesn't set ssthresh at a loss, or sets it too high (RFC 5681, 3.1)",
            Known::NotReduced => "the stack doesn't reduce cwnd after an expiry",
            Known::LimitedTransmit =>
                "the stack sends more than two segments beyond cwnd at duplicate acknowledgments (RFC 5681, \
3.2, step 1)",
            Known::FirstWindow => "the stack starts with more than `initial` allows",
            Known::Avoiding =>
                "the window grows faster than congestion avoidance allows, or the stack doesn't follow RFC \
5681",
            Known::OtherBytes => "the wire changed the segment",
            Known::NeverSent =>
                "the stack never sends a segment that it built, or the witness builds one that the stack \
didn't build",
            Known::PersistOpen =>
                "the stack doesn't send although the window is open, and waits for the persist timer",
            Known::PersistOff =>
                "the stack probes although the window is open or nothing is left to send",
            Known::Msl2Off =>
                "the stack enters TIME-WAIT where it may not; or the witness lacks the segment that leads \
there, or has it later",
            Known::GiveupOff =>
                "the stack gives up after fewer than three expiries, or with nothing outstanding",
            Known::NothingToUndo => "the witness undoes a recovery twice, or one that didn't begin",
            Known::UndoneUnsent =>
                "the stack undoes a recovery before anything is sent again that an acknowledgment could answer",
            Known::UndoneAtEnd =>
                "all was acknowledged at once, which without an earlier timestamp (RFC 3522, 3.2) doesn't show that \
the recovery wasn't needed (RFC 5682, 3)",
            Known::UndoneNeeded =>
                "the stack undoes a recovery though no acknowledgment echoes an earlier timestamp (RFC 3522, 3.2), or \
delivers after a timeout what was sent before it (RFC 5682, 3)",
            Known::ProbeOfSyn =>
                "the stack probes for the loss of a SYN; probes are for data (RFC 8985, 7.2)",
            Known::ProbeIdle =>
                "the stack probes for a loss though all is acknowledged (RFC 8985, 7.2), or the witness has the \
acknowledgment too early",
            Known::ProbePlain =>
                "the stack probes for a loss without SACK, which RFC 8985, 4, requires",
            Known::ProbeRecovers =>
                "the stack probes for a loss while it recovers from one (RFC 8985, 7.2)",
            Known::ProbeTwice =>
                "the stack probes for a loss again before the last probe is acknowledged (RFC 8985, 7.3)",
            Known::ProbeReported =>
                "the stack probes for a loss though SACK blocks report what was sent later (RFC 8985, 7.2)",
            Known::ProbeEarly =>
                "the stack probes for a loss sooner than after two round trips (RFC 8985, 7.2), or the witness lacks \
a sample",
            Known::NothingNew =>
                "the witness has sample 1 for a reset, or for a segment that acknowledges nothing new",
            Known::NotRestarted =>
                "the stack doesn't restart the timer at a new acknowledgment (RFC 6298, 5.3)",
            Known::NotDoubled => "the timeout wasn't doubled after an expiry (RFC 6298, 5.5)",
            Known::Unsampled =>
                "the timeout before the first sample is below a second (RFC 6298, 2.1), or the witness lacks a \
sample",
            Known::BelowMinimum =>
                "the timeout is below `minrto`, or `minrto` is above the stack's",
            Known::PersistEarly => "the stack probes a closed window before its timeout",
            Known::Msl2Early => "TIME-WAIT is shorter than 2 `msl`",
            Known::NothingOutstanding => "everything was already acknowledged",
            Known::Reported => "the stack sends again what SACK blocks report as received",
            Known::SentTwice =>
                "the stack sends data twice for one loss, or the trace lacks the expiry (a `T` line)",
            Known::NotLostYet =>
                "the stack counts data as lost earlier than RFC 6675 and RFC 8985 do",
            Known::ProbeElsewhere =>
                "the stack probes for a loss with a segment that isn't the last one (RFC 8985, 7.3)",
            Known::ProbeAgain =>
                "the stack sends a second segment for one probe (RFC 8985, 7.3), or the trace lacks the expiry (a `T` \
line)",
            Known::TailProbe =>
                "the trace lacks the expiry (a `T` line), or that of a tail loss probe (`pto`: RFC 8985, 7)",
            Known::NothingLater =>
                "the stack retransmits data that isn't lost, or the trace lacks the expiry (a `T` line)",
            Known::StillRecovers =>
                "the stack begins fast recovery before the last recovery ends (RFC 6675, 5)",
            Known::NotUndone => "the witness lacks the U step of a recovery that wasn't needed",
        }
    }

    /// A further cause if the segments were captured. Empty: none.
    pub fn captured(self) -> &'static str {
        match self {
            Known::HigherAck => "the capture lost a segment that arrived",
            Known::LowerAck => "the stack processed a segment later than the capture shows",
            Known::Gap => "the capture lost the segments before this one",
            Known::Oversized => JOINED_SEGMENTS,
            Known::OtherBytes => REWRITTEN,
            Known::NeverSent => "the capture lost the segment",
            Known::NotRestarted | Known::NotDoubled | Known::Unsampled => COARSE_CLOCK,
            Known::BelowMinimum | Known::PersistEarly => COARSE_CLOCK,
            Known::Msl2Early | Known::ProbeEarly => COARSE_CLOCK,
            Known::Reported => "the stack processed the SACK blocks later than the capture shows",
            Known::SentTwice | Known::ProbeAgain | Known::UndoneNeeded => LOST_ACK,
            Known::TailProbe | Known::NothingLater => LOST_ACK,
            Known::NotLostYet => COARSE_CLOCK,
            _ => "",
        }
    }
}
