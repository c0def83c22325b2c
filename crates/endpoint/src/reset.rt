//! The reset in answer to a segment (RFC 9293, 3.5.2).

ghost use Rattle.spec_tcp.specs.Bounds.{IsSmallEmission};
ghost use Rattle.spec_tcp.specs.Reset.{reset_of};
ghost use Rattle.seqno.specs.Numbers.{number_of};
ghost use Rattle.std.specs.Prelude.{◌≡◌};

use case_forms::Flags;
use segment::Bytes;
use seqno::Word;
use spec_tcp::Emission;
use std::alloc::Global;

/// How many numbers there are.
const TURN: u128 = 1 << 32;

/// The reset: at the number that the segment acknowledges, or at 0 with an acknowledgment of all its positions. That
/// number is kept of both. Uses no memory.
pub fn reset_of(alloc: Global, m: &Emission) -> Emission
    ensures reset { result ≡ reset_of m.now }
    ensures small { IsSmallEmission result }
{
    let acknowledges = m.flags.ack;
    Emission {
        sender: m.sender,
        peer_at_send: None,
        lport: m.rport,
        rport: m.lport,
        pos: 0,
        ack: 0,
        seq: if acknowledges { m.ack_seq } else { Word(0) },
        ack_seq: number_behind(m.seq, m.length()),
        raised: 0,
        flags: Flags {
            ack: !acknowledges,
            rst: true,
            syn: false,
            fin: false,
        },
        window: 0,
        payload: Bytes::from(Vec::new(alloc)),
        shift: None,
        scaled: false,
        is_reset_reply: true,
        bytes: Bytes::from(Vec::new(alloc)),
        mss: None,
        scale: None,
        moment: 0,
    }
}

// The number this many positions further.
fn number_behind(base: Word, length: u128) -> Word
    ensures { result ≡ number_of base length }
{
    let turned = (length % TURN) as u32;
    Word(base.0.wrapping_add(turned))
}
