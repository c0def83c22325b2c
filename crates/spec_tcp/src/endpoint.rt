//! The state of a host, as values: endpoints, built segments, listeners, and what socket numbers name.

ghost use Rattle.std.specs.Prelude.{◌≡◌, ◌<◌, ◌+◌, ◌^◌, if◌then◌else◌, None, Some, IfOk, length, nat_le};
ghost use Rattle.case_forms.specs.declared.calls.Host.TheVariants as host;
ghost use Rattle.spec_tcp.specs.Endpoints.{flight, is_scaling, is_up, snd_max, new_endpoint, rcv_nxt, peer_window};
ghost use Rattle.spec_tcp.specs.Endpoints.{receive_window, segment_length, window_in};

use crate::arrived::Arrived;
use crate::queue::Queue;
use case_forms::{Flags, Host, State};
use segment::{Bytes, OutOfMemory};
use seqno::Word;
use std::alloc::Global;
use streams::{ReceiveBuffer, SendBuffer, Transmissions};
use timer_rules::Timers;
use window_rules::{Control, Profile, scaled_window};

/// An endpoint, by its host and its place in the order of creation there. An identity is never reused.
#[derive(Clone, Copy, PartialEq, Eq)]
pub struct EndpointId {
    pub host: Host,
    pub number: u32,
}

/// The two streams of an endpoint, by position (RFC 9293, 3.4).
#[derive(Drop)]
pub struct Stream {
    /// The sender of the first SYN that was received.
    pub peer: Option<EndpointId>,
    /// The bytes that sends accepted.
    pub accepted: SendBuffer,
    /// Whether sending was ended.
    pub ended: bool,
    /// What was received, and how much of it was delivered.
    pub receive: ReceiveBuffer,
    /// The oldest unacknowledged position (RFC 9293, 3.3.1: SND.UNA).
    pub snd_una: u64,
}

/// The window that the peer offers, and how far the endpoint's own windows reached (RFC 9293, 3.3.1).
#[derive(Clone, Copy, Debug)]
pub struct Windows {
    /// The offered window in bytes (SND.WND).
    pub snd_wnd: u32,
    /// The position of the segment that last updated it (SND.WL1).
    pub snd_wl1: u64,
    /// The position that this segment acknowledged (SND.WL2).
    pub snd_wl2: u64,
    /// The right edge of its own windows: the greatest RCV.NXT + RCV.WND that it offered.
    pub rcv_adv: u64,
}

/// When the text of a segment, or its FIN, last raised RCV.NXT. RFC 9293, 3.10.7.4, processes a segment's
/// acknowledgment (fifth) before its text (seventh), so what is built at this moment may have been built in between.
#[derive(Clone, Copy, Debug)]
pub struct TextTaken {
    /// The moment, in microseconds.
    pub moment: u64,
    /// RCV.NXT before the first text that raised it at this moment; 0 if none ever did.
    pub before: u64,
}

/// Why an endpoint failed.
#[derive(Clone, Copy, Debug)]
pub enum Fault {
    /// The peer refused the connection with a reset.
    Refused,
    /// The peer reset the connection.
    Reset,
    /// The endpoint gave up (RFC 9293, 3.8.3).
    Timeout,
}

/// One end of a connection (RFC 9293, 3.3).
#[derive(Drop)]
pub struct Endpoint {
    /// The local port.
    pub lport: u16,
    /// The peer's port.
    pub rport: u16,
    /// The place of the listener that created it, until it is accepted; `None` for one that was opened.
    pub listener: Option<u32>,
    /// The initial send sequence number, once it is chosen.
    pub iss: Option<Word>,
    /// The initial receive sequence number, once the peer's SYN was received.
    pub irs: Option<Word>,
    /// The shift, in bits, of the windows that it offers, if it gave one with its `iss` (RFC 7323, 2.2).
    pub shift: Option<u8>,
    /// The shift of the peer's windows, if the SYN that was received carries one; above 14 it is read as 14.
    pub peer_shift: Option<u8>,
    pub state: State,
    /// Why it failed, if it did.
    pub fault: Option<Fault>,
    /// Whether a reset is to be sent.
    pub reset_due: bool,
    /// Whether its socket was closed.
    pub closed: bool,
    pub stream: Stream,
    /// When each position was first built.
    pub transmissions: Transmissions,
    pub window: Windows,
    pub text: TextTaken,
    pub control: Control,
    /// Outstanding positions below this one may be retransmitted.
    pub recover: u64,
    /// Whether a probe is due: a byte beyond a window of 0 (RFC 9293, 3.8.6.1).
    pub probe_due: bool,
    pub timers: Timers,
    /// Expiries since a segment was last processed.
    pub unanswered_expiries: u32,
    /// Expiries of the retransmission timer since a new acknowledgment.
    pub backoffs: u32,
    /// Whether one of them was before the SYN was acknowledged.
    pub syn_lost: bool,
}

impl Endpoint {
    /// A new endpoint, with its local port and the peer's. A child has the place of its listener. Its congestion
    /// control follows this profile.
    pub fn new(
        alloc: Global,
        lport: u16,
        rport: u16,
        listener: Option<u32>,
        state: State,
        profile: Profile,
    ) -> Endpoint
        ensures { result ≡ new_endpoint lport rport listener state profile }
    {
        Endpoint {
            lport,
            rport,
            listener,
            iss: None,
            irs: None,
            shift: None,
            peer_shift: None,
            state,
            fault: None,
            reset_due: false,
            closed: false,
            stream: Stream {
                peer: None,
                accepted: SendBuffer::new(alloc),
                ended: false,
                receive: ReceiveBuffer::new(alloc),
                snd_una: 0,
            },
            transmissions: Transmissions::new(alloc),
            window: Windows {
                snd_wnd: 0,
                snd_wl1: 0,
                snd_wl2: 0,
                rcv_adv: 0,
            },
            text: TextTaken {
                moment: 0,
                before: 0,
            },
            control: Control::start(profile),
            recover: 0,
            probe_due: false,
            timers: Timers::start(),
            unanswered_expiries: 0,
            backoffs: 0,
            syn_lost: false,
        }
    }

    /// Its local port, and the peer's.
    pub fn ports(&self) -> (u16, u16)
        ensures { result ≡ (self.now.lport, self.now.rport) }
    {
        (self.lport, self.rport)
    }

    /// The position after all that was sent (RFC 9293, 3.3.1: SND.NXT at its greatest).
    pub fn snd_max(&self) -> u64
        ensures { result ≡ snd_max self.now }
    {
        self.transmissions.end()
    }

    /// The next position expected from the peer: 0 before its SYN was received (RFC 9293, 3.3.1: RCV.NXT).
    pub fn rcv_nxt(&self) -> u64
        ensures value { result ≡ rcv_nxt self.now }
        ensures small { result < 2 ^ 63 }
    {
        self.stream.receive.next()
    }

    /// How many positions from the next one on its own windows reach (RFC 9293, 3.3.1: RCV.WND).
    pub fn receive_window(&self) -> u64
        ensures { result ≡ receive_window self.now }
    {
        self.window.rcv_adv.saturating_sub(self.rcv_nxt())
    }

    /// How many positions are outstanding: sent and not acknowledged (RFC 5681, 2: FlightSize).
    pub fn flight(&self) -> u64
        ensures { result ≡ flight self.now }
    {
        self.snd_max().saturating_sub(self.stream.snd_una)
    }

    /// Whether its own SYN was acknowledged and the peer's SYN received.
    pub fn is_up(&self) -> bool
        ensures { result ≡ is_up self.now }
    {
        1 <= self.stream.snd_una && 1 <= self.rcv_nxt()
    }

    /// Whether windows are scaled: it gave a shift, and the SYN that it received carried one (RFC 7323, 2.2).
    pub fn is_scaling(&self) -> bool
        ensures { result ≡ is_scaling self.now }
    {
        self.shift.is_some() && self.peer_shift.is_some()
    }

    /// The window that a segment of the peer offers to this endpoint, in bytes.
    pub fn peer_window(&self, m: &Arrived<'_>) -> u32
        ensures value { result ≡ peer_window self.now m.now }
        ensures small { result < 2 ^ 30 }
    {
        window_in(
            self.is_scaling(),
            m.flags().syn,
            self.peer_shift,
            m.window(),
        )
    }
}

/// A window in bytes: shifted if scaling is in force, except for the window of a SYN (RFC 7323, 2.2 and 2.3).
pub fn window_in(scaling: bool, syn: bool, shift: Option<u8>, window: u16) -> u32
    ensures value { result ≡ window_in scaling syn shift window }
    ensures small { result < 2 ^ 30 }
{
    match shift {
        Some(shift) if scaling && !syn => scaled_window(window, shift),
        _ => u32::from(window),
    }
}

/// A segment that was built (RFC 9293, 3.1).
#[derive(Drop)]
pub struct Emission {
    /// Its sender; for a reset in answer to a segment, the sender of that segment.
    pub sender: EndpointId,
    /// Its sender's peer, as the sender knew it then.
    pub peer_at_send: Option<EndpointId>,
    pub lport: u16,
    pub rport: u16,
    /// The true position of its sequence number; 0 if that is not known.
    pub pos: u64,
    /// The true position of its acknowledgment number; 0 if it has none, or that is not known.
    pub ack: u64,
    /// The sequence number, 32 bits (SEG.SEQ).
    pub seq: Word,
    /// The acknowledgment number, 32 bits (SEG.ACK).
    pub ack_seq: Word,
    /// How far the segments taken at the moment of building had raised RCV.NXT by then: before it is sent, it may still
    /// have the acknowledgment number from before their text. 0 if it has none, or once it was sent.
    pub raised: u64,
    pub flags: Flags,
    pub window: u16,
    /// Also in `bytes`, but never shared: rules compare the two.
    pub payload: Bytes,
    /// The shift, in bits, of the windows that its sender offers, if it gave one (RFC 7323, 2.2).
    pub shift: Option<u8>,
    /// Whether windows were scaled at its sender when it was built.
    pub scaled: bool,
    /// Whether it is a reset in answer to a segment.
    pub is_reset_reply: bool,
    /// Its bytes, once it was sent; none before.
    pub bytes: Bytes,
    /// The MSS in its options, once it was sent.
    pub mss: Option<u16>,
    /// The byte of its Window Scale option, once it was sent.
    pub scale: Option<u8>,
    /// When it was sent, in microseconds.
    pub moment: u64,
}

impl Emission {
    /// How many positions it occupies: its bytes, its SYN and its FIN (RFC 9293, 3.3.1: SEG.LEN).
    pub fn length(&self) -> u128
        ensures value { result ≡ segment_length self.now }
        ensures small { result < 2 ^ 65 }
    {
        self.payload.len() as u128 + self.flags.syn as u128 + self.flags.fin as u128
    }

    /// An equal segment. The error means that memory ran out.
    pub fn copy(&self) -> Result<Emission, OutOfMemory>
        ensures { IfOk result (λ m. m ≡ self.now) }
    {
        Ok(Emission {
            sender: self.sender,
            peer_at_send: self.peer_at_send,
            lport: self.lport,
            rport: self.rport,
            pos: self.pos,
            ack: self.ack,
            seq: self.seq,
            ack_seq: self.ack_seq,
            raised: self.raised,
            flags: self.flags,
            window: self.window,
            payload: self.payload.copy()?,
            shift: self.shift,
            scaled: self.scaled,
            is_reset_reply: self.is_reset_reply,
            bytes: self.bytes.copy()?,
            mss: self.mss,
            scale: self.scale,
            moment: self.moment,
        })
    }
}

/// A listener (RFC 9293, 3.10.1).
#[derive(Drop)]
pub struct Listener {
    pub port: u16,
    /// How many children its queue holds, not counting `extra`.
    pub backlog: u16,
    pub is_open: bool,
    /// Its established children that aren't accepted yet, in the order of joining.
    pub queue: Queue,
}

impl Listener {
    /// Whether its queue holds as many children as it may: `extra` more than its backlog.
    pub fn is_full(&self, extra: u16) -> bool
        ensures { result ≡ nat_le (self.now.backlog + extra) (length self.now.queue) }
    {
        self.backlog as u64 + extra as u64 <= self.queue.len() as u64
    }
}

/// What a socket number names.
#[derive(Clone, Copy)]
pub enum SocketTarget {
    /// The host's listener at this place.
    ListenerAt(u32),
    /// The host's endpoint at this place.
    EndpointAt(u32),
}

/// A socket number that a call returned.
#[derive(Clone, Copy)]
pub struct Socket {
    /// The listener or endpoint that the number names.
    pub target: SocketTarget,
    /// Whether it was not closed or aborted since.
    pub live: bool,
}

/// The host that gave a socket number, by whether host 0 and host 1 gave it. None: neither did.
pub fn giver(zero: bool, one: bool) -> Option<Host>
    ensures { result ≡ (if zero then Some host.Zero else if one then Some host.One else None) }
{
    if zero {
        Some(Host::Zero)
    } else if one {
        Some(Host::One)
    } else {
        None
    }
}
