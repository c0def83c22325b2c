//! First, the sequence number.

ghost use Rattle.spec_tcp.specs.Arrives.OtherStates.Sequence.{read_position, is_bad_number, reads_as, is_acceptable};
ghost use Rattle.spec_tcp.specs.Arrives.OtherStates.Sequence.{is_acceptable_at, is_in_window};
ghost use Rattle.std.specs.Prelude.{◌≡◌, ◌&&◌, ◌+◌, ◌^◌, nat_le, nat_lt};

use crate::same::same_word;
use seqno::{Word, number, read_near};
use spec_tcp::{Arrived, Endpoint};

/// A position less than this far above another reads ahead of it; one at most this far below reads before it.
const HALF_TURN: u64 = 1 << 31;

// The position at which the segment begins; for a reset in answer, the position its number has near the next one.
// `None` means that it would be below position 0, or the endpoint received no SYN.
fn read_position(endpoint: &Endpoint, m: &Arrived<'_>) -> Option<u64>
    ensures { result ≡ read_position endpoint.now m.now }
{
    if !m.is_reset_reply() {
        return Some(m.pos());
    }
    match endpoint.irs {
        Some(irs) => read_near(endpoint.rcv_nxt(), irs, m.seq()),
        None => None,
    }
}

/// Whether a number of the segment does not read back to its position. For a reset in answer to a segment: whether its
/// sequence number reads as no position.
pub(crate) fn is_bad_number(endpoint: &Endpoint, m: &Arrived<'_>) -> bool
    ensures { result ≡ is_bad_number endpoint.now m.now }
{
    if m.is_reset_reply() {
        return read_position(endpoint, m).is_none();
    }
    !reads_as(endpoint.rcv_nxt(), endpoint.irs, m.seq(), m.pos())
        || (m.flags().ack && !reads_as(endpoint.stream.snd_una, endpoint.iss, m.ack_seq(), m.ack()))
}

fn reads_as(near: u64, base: Option<Word>, w: Word, pos: u64) -> bool
    ensures { result ≡ reads_as near base w pos }
{
    match base {
        Some(base) => same_word(number(base, pos), w) && is_near(near, pos),
        None => false,
    }
}

fn is_near(near: u64, pos: u64) -> bool
    ensures { result ≡ nat_le near (pos + 2 ^ 31) && nat_lt pos (near + 2 ^ 31) }
{
    near.saturating_sub(pos) <= HALF_TURN && pos.saturating_sub(near) < HALF_TURN
}

/// Whether the segment is acceptable: its first or its last position is in the receive window; with a window of 0 it
/// begins at the next position. In SYN-RECEIVED the peer's SYN is accepted again with its acknowledgment (RFC 9293,
/// 3.5); no other segment with a SYN is, unless it is a reset.
pub(crate) fn is_acceptable(endpoint: &Endpoint, m: &Arrived<'_>) -> bool
    ensures { result ≡ is_acceptable endpoint.now m.now }
{
    if endpoint.state.is_syn_received()
        && m.flags().syn
        && m.flags().ack
        && m.pos() == 0
        && !m.is_reset_reply()
    {
        return true;
    }
    if m.flags().syn && !m.flags().rst {
        return false;
    }
    match read_position(endpoint, m) {
        Some(pos) => is_acceptable_at(endpoint, m, pos),
        None => false,
    }
}

fn is_acceptable_at(endpoint: &Endpoint, m: &Arrived<'_>, pos: u64) -> bool
    ensures { result ≡ is_acceptable_at endpoint.now m.now pos }
{
    if endpoint.receive_window() == 0 {
        return pos == endpoint.rcv_nxt();
    }
    if is_in_window(endpoint, pos as u128) {
        return true;
    }
    let length = m.length();
    if length == 0 {
        return false;
    }
    is_in_window(endpoint, pos as u128 + (length - 1))
}

fn is_in_window(endpoint: &Endpoint, pos: u128) -> bool
    ensures { result ≡ is_in_window endpoint.now pos }
{
    let next = endpoint.rcv_nxt() as u128;
    next <= pos && pos < next + endpoint.receive_window() as u128
}
