//! Which segments need not be processed, which dropped ones ask for an acknowledgment, and what may not be discarded.
//! `lib.rt` says why each function here is inlined.

ghost use Rattle.std.specs.Prelude.{◌≡◌, nat_lt, not, ◌&&◌};
ghost use Rattle.std.specs.Result.{result_err};
ghost use Rattle.duties.specs.Targets.{processing_place};
ghost use Rattle.spec_duties.specs.Dropped.{asks, discards, dropping_of, has_content, holds_next, is_ack_range};
ghost use Rattle.spec_duties.specs.Dropped.{is_below_irs, is_challenged, is_next, is_number, is_unacceptable};
ghost use Rattle.spec_duties.specs.Dropped.{keeps_order, meets_closed_window, reads_old_numbers};
ghost use Rattle.case_forms.specs.States.{is_syn_received, is_syn_sent};
ghost use Rattle.case_forms.specs.Versions.{says_sender};

use case_forms::{Host, State, TakeChoice, Version};
use seqno::{number, read_near};
use spec_duties::{Droppable, Dropping};
use spec_tcp::{Arrived, Emission, Endpoint};
use verdict::Rule;

/// What may process a segment, by its place.
#[derive(Clone, Copy)]
pub enum Target {
    Nobody,
    Listener(u32),
    Endpoint(u32),
}

/// The place of the endpoint that processes a segment: a listener's child gets the next place. `None`: nobody does.
#[inline(always)]
pub fn processing_place(target: Target, next: u32) -> Option<u32>
    ensures { result ≡ processing_place target next }
{
    match target {
        Target::Nobody => None,
        Target::Listener(_) => Some(next),
        Target::Endpoint(place) => Some(place),
    }
}

#[inline(always)]
fn is_unacceptable(processing: Result<(), Rule>) -> bool
    ensures { result ≡ is_unacceptable (result_err processing) }
{
    matches!(processing, Err(Rule::Unacceptable))
}

#[inline(always)]
fn is_number(processing: Result<(), Rule>) -> bool
    ensures { result ≡ is_number (result_err processing) }
{
    matches!(processing, Err(Rule::Number))
}

/// Whether the numbers of segments below the initial ones are old ones.
#[inline(always)]
pub fn reads_old_numbers(version: Version) -> bool
    ensures { result ≡ reads_old_numbers version }
{
    version.says_sender() && version.is_half()
}

/// Whether a segment's number is below the peer's initial one.
#[inline(always)]
pub fn is_below_irs(e: &Endpoint, m: &Emission) -> bool
    ensures { result ≡ is_below_irs e.now m.now }
{
    match e.irs {
        Some(irs) => read_near(e.rcv_nxt(), irs, m.seq).is_none(),
        None => false,
    }
}

/// Whether a segment, as an endpoint reads it, acknowledges less than is acknowledged, which version 6 asks.
#[inline(always)]
pub fn acknowledges_less(version: Version, e: &Endpoint, m: &Arrived<'_>) -> bool
    ensures { result ≡ (says_sender version && not (is_syn_sent e.now.state) && not (is_syn_received e.now.state)
        && m.now.flags.ack && not m.now.flags.rst && nat_lt m.now.ack e.now.stream.snd_una) }
{
    version.says_sender()
        && !e.state.is_syn_sent()
        && !e.state.is_syn_received()
        && m.flags().ack
        && !m.flags().rst
        && m.ack() < e.stream.snd_una
}

#[inline(always)]
fn is_ack_range(processing: Result<(), Rule>) -> bool
    ensures { result ≡ is_ack_range (result_err processing) }
{
    matches!(processing, Err(Rule::AckRange))
}

#[inline(always)]
fn is_next(e: &Endpoint, m: &Emission) -> bool
    ensures { result ≡ is_next e.now m.now }
{
    match e.irs {
        Some(irs) => m.seq == number(irs, e.rcv_nxt()),
        None => false,
    }
}

/// Whether a segment is a reset that may be challenged instead (RFC 5961, 3.2).
#[inline(always)]
pub fn is_challenged(e: &Endpoint, m: &Emission) -> bool
    ensures { result ≡ is_challenged e.now m.now }
{
    m.flags.rst && !e.state.is_syn_sent() && !is_next(e, m)
}

/// Whether a segment doesn't fit into a closed receive window (RFC 9293, 3.10.7.4, first).
#[inline(always)]
pub fn meets_closed_window(e: &Endpoint, m: &Emission) -> bool
    ensures { result ≡ meets_closed_window e.now m.now }
{
    !e.state.is_syn_sent() && e.receive_window() == 0 && 0 < m.length()
}

/// What a step that drops a segment shows of it. The results say whether the model permits processing the segment, and
/// answering it with a reset. `old`: its number is an old one.
#[inline(always)]
pub fn dropping_of(
    host: Host,
    processing: Result<(), Rule>,
    answering: Result<(), Rule>,
    droppable: Droppable,
    old: bool,
) -> Dropping
    ensures { result ≡ dropping_of host (result_err processing) (result_err answering) droppable old }
{
    Dropping {
        host,
        takeable: processing.is_ok(),
        droppable,
        answerable: answering.is_ok() && !(is_unacceptable(processing) || old),
    }
}

/// Whether a segment has bytes or a FIN.
#[inline(always)]
pub fn has_content(m: &Emission) -> bool
    ensures { result ≡ has_content m.now }
{
    0 < m.payload.len() || m.flags.fin
}

/// Whether a dropped segment asks for an acknowledgment. The result says whether the model permits processing it.
/// `old_numbers`: numbers below the initial ones are old ones.
#[inline(always)]
pub fn asks(old_numbers: bool, m: &Emission, processing: Result<(), Rule>, e: &Endpoint) -> bool
    ensures { result ≡ asks old_numbers m.now (result_err processing) e.now }
{
    if e.state.is_syn_sent() {
        return false;
    }
    if m.flags.rst {
        return processing.is_ok() && is_challenged(e, m);
    }
    is_unacceptable(processing)
        || is_ack_range(processing) && m.flags.ack
        || processing.is_ok()
        || old_numbers && is_number(processing)
}

#[inline(always)]
fn keeps_order(state: State) -> bool
    ensures { result ≡ keeps_order state }
{
    match state {
        State::SynReceived | State::Established | State::FinWait1 | State::FinWait2 => true,
        State::Closed
        | State::Listen
        | State::SynSent
        | State::CloseWait
        | State::Closing
        | State::LastAck
        | State::TimeWait => false,
    }
}

#[inline(always)]
fn holds_next(e: &Endpoint, m: &Arrived<'_>) -> bool
    ensures { result ≡ holds_next e.now m.now }
{
    m.pos() <= e.rcv_nxt() && ((e.rcv_nxt() - m.pos()) as u128) < m.length()
}

/// Whether an endpoint that processes a segment in this way discards what is next in order.
#[inline(always)]
pub fn discards(how: TakeChoice, e: &Endpoint, m: &Arrived<'_>) -> bool
    ensures { result ≡ discards how e.now m.now }
{
    !how.keep
        && keeps_order(e.state)
        && !e.closed
        && !m.flags().rst
        && e.rcv_nxt() < e.window.rcv_adv
        && holds_next(e, m)
}
