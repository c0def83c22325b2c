//! The timers after a segment.

ghost use Rattle.spec_tcp.specs.Arrives.OtherStates.Ack.{snd_una_after_segment, acknowledges_syn, is_new_ack};
ghost use Rattle.spec_tcp.specs.Arrives.OtherStates.Timers.{rto_after_ack, since_made, state_timers, timeout_after_ack};
ghost use Rattle.spec_tcp.specs.Arrives.OtherStates.Window.{persist_after_window, takes_window};
ghost use Rattle.spec_tcp.specs.Endpoints.{snd_max};
ghost use Rattle.std.specs.Prelude.{◌≡◌, ◌==◌, ◌&&◌, if◌then◌else◌};

use crate::arrives::other_states::ack::{acknowledges_syn, is_new_ack, snd_una_after_segment};
use crate::arrives::other_states::window::{persist_after_window, takes_window};
use case_forms::{Header, State, TakeChoice, Timer};
use spec_tcp::{Arrived, Endpoint};
use timer_rules::Timers;

/// The timers before the state is considered: `timers_after_segment` is `state_timers` of them.
pub(crate) fn timers_before(
    header: &Header,
    endpoint: &Endpoint,
    how: TakeChoice,
    m: &Arrived<'_>,
    moment: u64,
) -> Timers
    ensures { let measured = timeout_after_ack header.now endpoint.now
        (how.sample && is_new_ack endpoint.now m.now) m.now.ack (acknowledges_syn endpoint.now m.now) moment in
        let running = rto_after_ack measured (snd_una_after_segment endpoint.now m.now == snd_max endpoint.now)
        (is_new_ack endpoint.now m.now) moment in
        result ≡ (if takes_window endpoint.now m.now then persist_after_window running m.now.window moment
        else running) }
{
    let is_new = is_new_ack(endpoint, m);
    let syn = acknowledges_syn(endpoint, m);
    let measured = timeout_after_ack(header, endpoint, how.sample && is_new, m.ack(), syn, moment);
    let all_acked = snd_una_after_segment(endpoint, m) == endpoint.snd_max();
    let running = rto_after_ack(measured, all_acked, is_new, moment);
    if takes_window(endpoint, m) {
        persist_after_window(running, m.window(), moment)
    } else {
        running
    }
}

/// The wait in TIME-WAIT begins on entering it; CLOSED turns all timers off (RFC 9293, 3.6.1).
pub(crate) fn state_timers(timers: Timers, old: State, new: State, moment: u64) -> Timers
    ensures { result ≡ state_timers timers old new moment }
{
    let mut timers = timers;
    match new {
        State::Closed => timers.stop_all(),
        State::TimeWait => {
            if !old.is_time_wait() {
                timers.arm(Timer::Msl2, moment);
            }
        }
        State::Listen
        | State::SynSent
        | State::SynReceived
        | State::Established
        | State::FinWait1
        | State::FinWait2
        | State::CloseWait
        | State::Closing
        | State::LastAck => {}
    }
    timers
}

// The retransmission timer stops if all is acknowledged, and restarts at a new acknowledgment (RFC 6298, 5.2 and 5.3).
pub(crate) fn rto_after_ack(timers: Timers, all_acked: bool, is_new: bool, moment: u64) -> Timers
    ensures { result ≡ rto_after_ack timers all_acked is_new moment }
{
    let mut timers = timers;
    if all_acked {
        timers.stop(Timer::Rto);
    } else if is_new {
        timers.arm(Timer::Rto, moment);
    }
    timers
}

// The timeout after a new acknowledgment up to a position, with a sample if one is measured, and longer if the SYN was
// lost (RFC 6298, 2, 3 and 5.7).
pub(crate) fn timeout_after_ack(
    header: &Header,
    endpoint: &Endpoint,
    sample: bool,
    ack: u64,
    syn: bool,
    moment: u64,
) -> Timers
    ensures { result ≡ timeout_after_ack header.now endpoint.now sample ack syn moment }
{
    let mut timers = endpoint.timers;
    if sample {
        timers.sample(since_made(endpoint, ack.saturating_sub(1), moment), header);
    }
    if syn && endpoint.syn_lost {
        timers.raise_for_lost_syn();
    }
    timers
}

// How long ago a position was first built.
fn since_made(endpoint: &Endpoint, pos: u64, moment: u64) -> u64
    ensures { result ≡ since_made endpoint.now pos moment }
{
    moment.saturating_sub(endpoint.transmissions.moment(pos).unwrap_or(moment))
}
