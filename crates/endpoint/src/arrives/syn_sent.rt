//! A segment arrives in SYN-SENT (RFC 9293, 3.10.7.3): the peer's SYN is received.

ghost use Rattle.case_forms.specs.declared.calls.State.TheVariants as states;
ghost use Rattle.streams.specs.Received as received;
ghost use Rattle.spec_tcp.specs.Forgetting.{forget_endpoint};
ghost use Rattle.case_forms.specs.States.{is_syn_received};
ghost use Rattle.spec_tcp.specs.Same.{same_word};
ghost use Rattle.spec_tcp.specs.Arrives.SynSent.{on_syn, snd_una_after_syn, timers_after_syn, syn_sent_rules};
ghost use Rattle.spec_tcp.specs.Arrives.SynSent.{answers_syn};
ghost use Rattle.spec_tcp.specs.Arrives.OtherStates.Ack.{acknowledges_syn};
ghost use Rattle.seqno.specs.Numbers.{number_of};
ghost use Rattle.std.specs.Option.{option_map_or};
ghost use Rattle.std.specs.Prelude.{◌≡◌, ◌<◌, ◌^◌, false, ◌&&◌, if◌then◌else◌};
ghost use Rattle.std.specs.Result.{result_err};
ghost use Rattle.verdict.specs.Rules.{first_broken};
ghost use Rattle.window_rules.specs.Counts.{HasCounts};

use crate::arrives::other_states::ack::{acknowledges_syn, is_no_sample};
use crate::arrives::other_states::timers::{rto_after_ack, timeout_after_ack};
use crate::arrives::other_states::window::{is_unread, persist_after_window};
use crate::same::same_word;
use crate::signals::{control_taken, greatest_taking};
use case_forms::{Header, State, TakeChoice};
use seqno::number;
use spec_tcp::{Arrived, Endpoint, Windows};
use timer_rules::Timers;
use verdict::Rule;

/// Whether an endpoint in SYN-SENT may process the segment (RFC 9293, 3.10.7.3). The error is the first rule that is
/// broken.
pub fn admits_syn_sent(
    endpoint: &Endpoint,
    how: TakeChoice,
    m: &Arrived<'_>,
    moment: u64,
) -> Result<(), Rule>
    ensures { result_err result ≡ first_broken (syn_sent_rules endpoint.now how m.now moment) }
{
    if !(m.flags().syn || m.flags().rst) {
        return Err(Rule::State);
    }
    if (m.flags().ack || m.flags().rst) && !answers_syn(endpoint, m) {
        return Err(Rule::AckRange);
    }
    if greatest_taking(endpoint, m, moment) < how.cwnd as u64 {
        return Err(Rule::Growth);
    }
    if how.sample && is_no_sample(endpoint, m) {
        return Err(Rule::Sample);
    }
    if is_unread(endpoint, m) {
        return Err(Rule::ScaleUnread);
    }
    Ok(())
}

// Whether it acknowledges, in SYN-SENT, the endpoint's SYN, which is all that was sent.
fn answers_syn(endpoint: &Endpoint, m: &Arrived<'_>) -> bool
    ensures { result ≡ answers_syn endpoint.now m.now }
{
    m.flags().ack && endpoint.snd_max() == 1 && has_syn_number(endpoint, m)
}

fn has_syn_number(endpoint: &Endpoint, m: &Arrived<'_>) -> bool
    ensures { result ≡ option_map_or (λ iss. same_word m.now.ack_seq (number_of iss 1)) endpoint.now.iss false }
{
    match endpoint.iss {
        Some(iss) => same_word(m.ack_seq(), number(iss, 1)),
        None => false,
    }
}

/// Whether the segment acknowledges the own SYN of a child in SYN-RECEIVED, so that the child joins its listener's
/// queue.
pub fn completes_handshake(endpoint: &Endpoint, m: &Arrived<'_>) -> bool
    ensures { result ≡ is_syn_received endpoint.now.state && acknowledges_syn endpoint.now m.now }
{
    endpoint.state.is_syn_received() && acknowledges_syn(endpoint, m)
}

/// In SYN-SENT the peer's SYN is received: ESTABLISHED with an acknowledgment, else SYN-RECEIVED.
pub(crate) fn on_syn(
    header: &Header,
    endpoint: &mut Endpoint,
    how: TakeChoice,
    m: &Arrived<'_>,
    moment: u64,
)
    requires unmet { endpoint.old.stream.receive ≡ received.empty }
    requires counts { HasCounts endpoint.old.control }
    requires small { m.now.ack < 2 ^ 63 }
    ensures { endpoint.new ≡ forget_endpoint (on_syn header.now endpoint.old how m.now moment) }
{
    let snd_una = snd_una_after_syn(endpoint, m);
    let control = control_taken(endpoint, how, m, moment);
    let window = window_after_syn(endpoint, m);
    let backoffs = if m.flags().ack { 0 } else { endpoint.backoffs };
    endpoint.timers = timers_after_syn(header, endpoint, how, m, moment, snd_una);
    endpoint.state = state_after_syn(m);
    endpoint.irs = Some(m.seq());
    endpoint.peer_shift = m.scale();
    endpoint.stream.peer = Some(m.sender());
    endpoint.stream.receive.take_syn();
    endpoint.stream.snd_una = snd_una;
    endpoint.window = window;
    endpoint.control = control;
    endpoint.unanswered_expiries = 0;
    endpoint.backoffs = backoffs;
    endpoint.stream.accepted.forget_below(snd_una);
    endpoint.transmissions.forget_below(snd_una);
}

fn state_after_syn(m: &Arrived<'_>) -> State
    ensures { result ≡ (if m.now.flags.ack then states.Established else states.SynReceived) }
{
    if m.flags().ack {
        State::Established
    } else {
        State::SynReceived
    }
}

fn snd_una_after_syn(endpoint: &Endpoint, m: &Arrived<'_>) -> u64
    ensures { result ≡ snd_una_after_syn endpoint.now m.now }
{
    let snd_una = endpoint.stream.snd_una;
    if m.flags().ack {
        snd_una.max(1)
    } else {
        snd_una
    }
}

fn window_after_syn(endpoint: &Endpoint, m: &Arrived<'_>) -> Windows
    ensures { result ≡ record endpoint.now.window {
      snd_wnd = m.now.window;
      snd_wl1 = m.now.pos;
      snd_wl2 = if m.now.flags.ack then 1 else 0;
    } }
{
    let mut window = endpoint.window;
    window.snd_wnd = u32::from(m.window());
    window.snd_wl1 = m.pos();
    window.snd_wl2 = if m.flags().ack { 1 } else { 0 };
    window
}

// The timers after the peer's SYN was received in SYN-SENT. A round trip is that of the own SYN, if it was not
// acknowledged before.
fn timers_after_syn(
    header: &Header,
    endpoint: &Endpoint,
    how: TakeChoice,
    m: &Arrived<'_>,
    moment: u64,
    snd_una: u64,
) -> Timers
    requires { snd_una ≡ snd_una_after_syn endpoint.now m.now }
    ensures { result ≡ timers_after_syn header.now endpoint.now how m.now moment }
{
    let sample = how.sample && m.flags().ack && endpoint.stream.snd_una == 0;
    let measured = timeout_after_ack(header, endpoint, sample, 1, m.flags().ack, moment);
    let running = rto_after_ack(measured, snd_una == endpoint.snd_max(), false, moment);
    persist_after_window(running, m.window(), moment)
}
