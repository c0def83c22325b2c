//! A segment as its receiving endpoint reads it, when it is processed: since it arrived, RCV.NXT may have advanced, so
//! that the same number means another position.

ghost use Rattle.std.specs.Prelude.{◌≡◌, ◌<◌, ◌≤◌, ◌^◌, IfSome, None};
ghost use Rattle.spec_tcp.specs.Bounds.{IsSmallEmission, greatest_position};
ghost use Rattle.spec_tcp.specs.Endpoints.{segment_length};
ghost use Rattle.spec_tcp.specs.Heard.{as_read, position_near, readable};

use crate::endpoint::{Emission, Endpoint, EndpointId};
use case_forms::{Flags, GREATEST_POSITION, POSITIONS, Version};
use seqno::{Word, read_near};
use std::marker::Model;

/// A segment with the positions that its numbers have at the endpoint that receives it. Contracts see it as a segment.
/// It isn't copied: a rule uses no memory.
#[derive(Drop)]
pub struct Arrived<'a> {
    made: &'a Emission,
    pos: u64,
    ack: u64,
    scaled: bool,
}

impl<'a> Model for Arrived<'a> {
    ghost use Rattle.spec_tcp.specs.declared.endpoint.Emission.{Emission};

    ghost Value = { Emission };

    ghost view = { λ a. record a.made.now { pos = a.pos; ack = a.ack; scaled = a.scaled } };
}

impl<'a> Arrived<'a> {
    /// The segment as the endpoint reads it. A segment of a recorded host has the positions it was built with. The
    /// numbers of a segment from a host that isn't recorded are read near the positions that the endpoint expects.
    pub fn read(version: Version, endpoint: &Endpoint, m: &'a Emission) -> Arrived<'a>
        requires { endpoint.now.stream.snd_una < 2 ^ 63 }
        ensures value { result ≡ as_read version endpoint.now m.now }
        ensures small { IsSmallEmission m.now → IsSmallEmission result }
    {
        if !version.is_half() {
            return Arrived {
                made: m,
                pos: m.pos,
                ack: m.ack,
                scaled: m.scaled,
            };
        }
        let pos = position_near(endpoint.rcv_nxt(), endpoint.irs, m.seq);
        let ack = if m.flags.ack && !m.flags.rst {
            position_near(endpoint.stream.snd_una, endpoint.iss, m.ack_seq)
        } else {
            0
        };
        Arrived {
            made: m,
            pos,
            ack,
            scaled: endpoint.is_scaling(),
        }
    }

    /// The same, if the endpoint's positions are below 2^63, as those of a run are. `None` means that they aren't.
    pub fn checked_read(
        version: Version,
        endpoint: &Endpoint,
        m: &'a Emission,
    ) -> Option<Arrived<'a>>
        ensures some { IfSome result (λ r. (r ≡ as_read version endpoint.now m.now)
            × (IsSmallEmission m.now → IsSmallEmission r)) }
        ensures none { result ≡ None → 2 ^ 63 ≤ endpoint.now.stream.snd_una }
    {
        if endpoint.stream.snd_una < POSITIONS {
            Some(Arrived::read(version, endpoint, m))
        } else {
            None
        }
    }

    /// Its sender.
    pub fn sender(&self) -> EndpointId
        ensures { result ≡ self.now.sender }
    {
        self.made.sender
    }

    /// Its sender's peer, as the sender knew it then. `None` means that the sender didn't know its peer.
    pub fn peer_at_send(&self) -> Option<EndpointId>
        ensures { result ≡ self.now.peer_at_send }
    {
        self.made.peer_at_send
    }

    /// The position at which it begins.
    pub fn pos(&self) -> u64
        ensures { result ≡ self.now.pos }
    {
        self.pos
    }

    /// The position that it acknowledges.
    pub fn ack(&self) -> u64
        ensures { result ≡ self.now.ack }
    {
        self.ack
    }

    /// Its sequence number.
    pub fn seq(&self) -> Word
        ensures { result ≡ self.now.seq }
    {
        self.made.seq
    }

    /// Its acknowledgment number.
    pub fn ack_seq(&self) -> Word
        ensures { result ≡ self.now.ack_seq }
    {
        self.made.ack_seq
    }

    /// Its flags.
    pub fn flags(&self) -> Flags
        ensures { result ≡ self.now.flags }
    {
        self.made.flags
    }

    /// Its window field, before scaling.
    pub fn window(&self) -> u16
        ensures { result ≡ self.now.window }
    {
        self.made.window
    }

    /// Its payload.
    pub fn payload(&self) -> &[u8]
        ensures { result.now ≡ self.now.payload }
    {
        self.made.payload.as_slice()
    }

    /// Whether windows were scaled at its sender.
    pub fn is_scaled(&self) -> bool
        ensures { result ≡ self.now.scaled }
    {
        self.scaled
    }

    /// Whether it is a reset in answer to a segment.
    pub fn is_reset_reply(&self) -> bool
        ensures { result ≡ self.now.is_reset_reply }
    {
        self.made.is_reset_reply
    }

    /// The MSS in its options, if they carry one.
    pub fn mss(&self) -> Option<u16>
        ensures { result ≡ self.now.mss }
    {
        self.made.mss
    }

    /// The byte of its Window Scale option, if it has one.
    pub fn scale(&self) -> Option<u8>
        ensures { result ≡ self.now.scale }
    {
        self.made.scale
    }

    /// How many positions it occupies: its bytes, its SYN and its FIN (RFC 9293, 3.3.1: SEG.LEN).
    pub fn length(&self) -> u128
        ensures value { result ≡ segment_length self.now }
        ensures small { result < 2 ^ 65 }
    {
        self.made.length()
    }
}

fn readable(position: Option<u64>) -> u64
    ensures value { result ≡ readable position }
    ensures small { result ≤ greatest_position }
{
    match position {
        Some(position) if position <= GREATEST_POSITION => position,
        _ => 0,
    }
}

fn position_near(near: u64, base: Option<Word>, number: Word) -> u64
    requires { near < 2 ^ 63 }
    ensures value { result ≡ position_near near base number }
    ensures small { result ≤ greatest_position }
{
    match base {
        Some(base) => readable(read_near(near, base, number)),
        None => readable(None),
    }
}
