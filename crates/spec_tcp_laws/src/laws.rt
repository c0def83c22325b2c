//! The consequences of every run, for callers that prove more.

ghost use Rattle.std.specs.Prelude.{List, ℕ, ◌+◌, ◌^◌, ◌<◌, ◌≡◌, false, true};
ghost use Rattle.case_forms.specs.Versions.{is_half};
ghost use Rattle.case_forms.specs.declared.trace.Header.{Header};
ghost use Rattle.case_forms.specs.declared.calls.Host.{Host};
ghost use Rattle.spec_network.specs.Hosts.{At, Makes, Stamped, Step, World};
ghost use Rattle.spec_network.specs.HostRules.{Permitted};
ghost use Rattle.spec_network.specs.HostSteps.{Lawful, start};
ghost use Rattle.spec_tcp.specs.declared.endpoint.Emission.{Emission};
ghost use Rattle.spec_tcp.specs.declared.endpoint.Endpoint.{Endpoint};
ghost use Rattle.spec_tcp.specs.Endpoints.{rcv_nxt};
ghost use Rattle.spec_tcp.specs.Arrives.OtherStates.Sequence.{is_bad_number};
ghost use Rattle.case_forms.specs.declared.steps.SegmentPlan.{SegmentPlan};
ghost use Rattle.spec_tcp.specs.Machine.{tcp, tcp_shape};
ghost use Rattle.spec_tcp_laws.specs.Runs.{world_at_end};
ghost use Rattle.spec_tcp_laws.specs.Bounds.{NewDataFits, ProfilesAreNamed, WindowsFollow};
ghost use Rattle.spec_tcp_laws.specs.Ascending.{RulesAscend};
ghost use Rattle.spec_tcp_laws.specs.Transitions.{StatesFollow, PositionsNeverFall};
ghost use Rattle.spec_tcp_laws.specs.Carried.{ReadsWereCarried};
ghost use Rattle.spec_tcp_laws.specs.HeardNumbers.{HeardNumbersAreRead};
ghost use Rattle.spec_tcp_laws.specs.Sameness.{SamenessIsEquality};
ghost use Rattle.seqno.specs.declared.word.Word.{Word};
ghost use Rattle.spec_tcp_laws.specs.Consequences.{ReceivedIsAPrefix, EndIsWhole, AcknowledgedWasTaken};

use seqno::numbers_are_found_near;

/// The bytes that reads on a socket number returned are a prefix of the bytes that its peer's sends accepted.
pub fn received_is_a_prefix()
    ensures { (h : Header) → is_half h.version ≡ false → (steps : List (Stamped tcp_shape))
        → Lawful (tcp h) (start (tcp h)) steps → ReceivedIsAPrefix h steps }
{}

/// Once a read returned the end, the reads have returned all that the peer's sends ever accept, and the peer has ended
/// its sending.
pub fn end_is_whole()
    ensures { (h : Header) → is_half h.version ≡ false → (steps : List (Stamped tcp_shape))
        → Lawful (tcp h) (start (tcp h)) steps → EndIsWhole h steps }
{}

/// Every position that is acknowledged, except the SYN's, was received by the peer before the step that acknowledged
/// it.
pub fn acknowledged_was_taken()
    ensures { (h : Header) → is_half h.version ≡ false → (steps : List (Stamped tcp_shape)) (x : Stamped tcp_shape) →
        Lawful (tcp h) (start (tcp h)) steps → Permitted (tcp h) x.moment (world_at_end h steps) x.step →
        AcknowledgedWasTaken h steps x }
{}

/// What the reads on a socket number returned was in segments that its endpoint processed: byte i at position 1 + i,
/// and if one returned the end, a FIN at the position after all of them (RFC 9293, 3.4 and 3.10.7.4). This holds in
/// every case, even if only one host was recorded.
pub fn reads_were_carried()
    ensures { (h : Header) (steps : List (Stamped tcp_shape)) → Lawful (tcp h) (start (tcp h)) steps
        → ReadsWereCarried h steps }
{}

/// New data ends in the window that the peer offers and in the congestion window. The other segments that are built,
/// resets in answer to segments, carry no bytes.
pub fn new_data_fits()
    ensures { (h : Header) (moment : ℕ) (w : World tcp_shape) (host : Host) (m : SegmentPlan) →
        Permitted (tcp h) moment w (At host (Makes m)) → NewDataFits w host moment m }
{}

/// Three steps leave the congestion window and the slow start threshold at or below what the endpoint's profile then
/// allows, even if a loss lowers it. These are processing a segment, an expiry of the retransmission timer, and the
/// beginning of fast recovery. Every other step leaves all of congestion control unchanged. No step changes a profile.
pub fn windows_follow()
    ensures { (h : Header) (moment : ℕ) (w : World tcp_shape) (step : Step tcp_shape) → Permitted (tcp h) moment w step
        → WindowsFollow h moment w step }
{}

/// At the end of each run, every endpoint's congestion control follows the profile that the header names.
pub fn profiles_are_named()
    ensures { (h : Header) (steps : List (Stamped tcp_shape)) → Lawful (tcp h) (start (tcp h)) steps
        → ProfilesAreNamed h (world_at_end h steps) }
{}

/// A step leaves an endpoint in its state, or in one to which an arrow of RFC 9293, 3.3.2, figure 5, leads at such a
/// step. That step is a `shut` or a `close` of its socket number, or a segment that it processes, with the SYN or
/// acknowledgment first and then the FIN. The endpoint becomes CLOSED by a reset, by an `abort`, if its listener is
/// closed before it is accepted, if TIME-WAIT is over, if it gives up, and if it sends a reset. TIME-WAIT doesn't
/// restart. A new endpoint begins in SYN-SENT, or as a child in SYN-RECEIVED. This holds for every step in every world.
pub fn states_follow()
    ensures { (h : Header) (moment : ℕ) (w : World tcp_shape) (step : Step tcp_shape) → StatesFollow h moment w step }
{}

/// A step of a run never decreases these positions of an endpoint (RFC 9293, 3.3.1): the oldest unacknowledged one; the
/// one after all that it sent; the next one that it expects from its peer; and the greatest that its windows reached.
pub fn positions_never_fall()
    ensures { (h : Header) (steps : List (Stamped tcp_shape)) (x : Stamped tcp_shape)
        → Lawful (tcp h) (start (tcp h)) steps →
        Permitted (tcp h) x.moment (world_at_end h steps) x.step → PositionsNeverFall h steps x }
{}

/// The model's rules of each step are in the order of their numbers, after the six of order. So the first broken rule
/// is the lowest-numbered one.
pub fn rules_ascend()
    ensures { RulesAscend }
{}

/// A copy of a segment that begins more than half the number space below the next position expected is refused: its
/// sequence number no longer reads as its position (RFC 9293, 3.4).
pub fn old_copies_are_refused()
    ensures { (e : Endpoint) (m : Emission) → m.is_reset_reply ≡ false → m.pos + 2 ^ 31 < rcv_nxt e
        → is_bad_number e m ≡ true }
{}

/// A number of a segment from a host that isn't recorded reads back exactly if it reads as a position near the expected
/// one, and then as that position (RFC 9293, 3.4). This doesn't cover positions above those that a text can contain.
pub fn heard_numbers_are_read()
    ensures { (near : ℕ) (base w : Word) → base.0 < 2 ^ 32 → w.0 < 2 ^ 32 → HeardNumbersAreRead near base w }
{
    numbers_are_found_near();
}

/// Two answers, and two lists of bytes, states, numbers, names or flags, are the same to the model if and only if they
/// are equal. So a call ends with exactly the answer of its effect, and bytes that compare as the same are equal.
pub fn sameness_is_equality()
    ensures { SamenessIsEquality }
{}
