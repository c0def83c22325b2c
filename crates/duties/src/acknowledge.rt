//! What was received is acknowledged within half a second.
//! `lib.rt` says why each function here is inlined.

ghost use Rattle.std.specs.Prelude.{◌≡◌};
ghost use Rattle.spec_duties.specs.Acknowledge.{acknowledge_after, acknowledge_due, acknowledged_after};
ghost use Rattle.spec_duties.specs.Acknowledge.{answered_lately};
ghost use Rattle.spec_duties.specs.Acknowledge.{asks_ack, is_answer, longest_delay, receives};

use crate::deadlines::due_within;
use case_forms::State;
use spec_duties::Event;

/// The longest delay of an acknowledgment, in microseconds (RFC 9293, 3.8.6.3).
pub(crate) const LONGEST_DELAY: u64 = 500_000;

#[inline(always)]
fn receives(state: State) -> bool
    ensures { result ≡ receives state }
{
    match state {
        State::Listen
        | State::SynSent
        | State::SynReceived
        | State::Established
        | State::FinWait1
        | State::FinWait2 => true,
        State::Closed | State::CloseWait | State::Closing | State::LastAck | State::TimeWait =>
            false,
    }
}

/// Whether an endpoint sent a segment with ACK half a second ago or later.
#[inline(always)]
pub(crate) fn answered_lately(moment: u64, acknowledged: Option<u64>) -> bool
    ensures { result ≡ answered_lately moment acknowledged }
{
    match acknowledged {
        Some(m) => moment as u128 <= m as u128 + LONGEST_DELAY as u128,
        None => false,
    }
}

/// Whether a step makes an acknowledgment due.
#[inline(always)]
pub(crate) fn asks_ack(event: &Event, state: State, moment: u64, acknowledged: Option<u64>) -> bool
    ensures { result ≡ asks_ack event.now state moment acknowledged }
{
    match event {
        Event::Processes { length, rst } => receives(state) && 0 < *length && !*rst,
        Event::Drops { asks, unlimited } => {
            *asks && (*unlimited || !answered_lately(moment, acknowledged))
        }
        Event::Opens
        | Event::Calls { .. }
        | Event::Builds(_)
        | Event::Sends(_)
        | Event::Expires(_)
        | Event::Recovers(_) => false,
    }
}

#[inline(always)]
fn is_answer(event: &Event) -> bool
    ensures { result ≡ is_answer event.now }
{
    match event {
        Event::Sends(sending) => sending.flags.ack || sending.flags.rst,
        Event::Opens
        | Event::Calls { .. }
        | Event::Processes { .. }
        | Event::Drops { .. }
        | Event::Builds(_)
        | Event::Expires(_)
        | Event::Recovers(_) => false,
    }
}

/// Since when an acknowledgment is owed after a step at an endpoint that was in this state.
#[inline(always)]
pub(crate) fn acknowledge_after(
    event: &Event,
    state: State,
    moment: u64,
    acknowledged: Option<u64>,
    since: Option<u64>,
) -> Option<u64>
    ensures { result ≡ acknowledge_after event.now state moment acknowledged since }
{
    if is_answer(event) {
        None
    } else if asks_ack(event, state, moment, acknowledged) {
        since.or(Some(moment))
    } else {
        since
    }
}

/// By when an acknowledgment is due that is owed since this moment, in microseconds. None: none is owed.
#[inline(always)]
pub fn acknowledge_due(since: Option<u64>) -> Option<u128>
    ensures { result ≡ acknowledge_due since }
{
    due_within(LONGEST_DELAY, since)
}

/// When the endpoint last sent a segment with ACK, after a step.
#[inline(always)]
pub(crate) fn acknowledged_after(
    event: &Event,
    moment: u64,
    acknowledged: Option<u64>,
) -> Option<u64>
    ensures { result ≡ acknowledged_after event.now moment acknowledged }
{
    match event {
        Event::Sends(sending) => {
            if sending.flags.ack {
                Some(moment)
            } else {
                acknowledged
            }
        }
        Event::Opens
        | Event::Calls { .. }
        | Event::Processes { .. }
        | Event::Drops { .. }
        | Event::Builds(_)
        | Event::Expires(_)
        | Event::Recovers(_) => acknowledged,
    }
}
