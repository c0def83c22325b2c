//! A timer expires (RFC 9293, 3.10.8): which ones may, and the endpoint afterwards.

ghost use Rattle.case_forms.specs.declared.timer.Timer.TheVariants.{Giveup};
ghost use Rattle.spec_tcp.specs.Bounds.{HasRoom};
ghost use Rattle.spec_tcp.specs.Calls.Close.{shut_down};
ghost use Rattle.spec_tcp.specs.Forgetting.{forget_endpoint};
ghost use Rattle.spec_tcp.specs.Timeouts.{expiry_rules, grows_above, is_above, is_off, greatest_values, has_more};
ghost use Rattle.spec_tcp.specs.Timeouts.{may_give_up, may_probe, after_expiry, after_rto, after_persist};
ghost use Rattle.spec_tcp.specs.declared.endpoint.Fault.TheVariants.{Timeout};
ghost use Rattle.std.specs.Prelude.{◌≡◌, ◌≢◌, ◌<◌, ◌+◌, ◌^◌, ◌&&◌, true, Some};
ghost use Rattle.std.specs.Result.{result_err};
ghost use Rattle.timer_rules.specs.Timers.{is_early};
ghost use Rattle.verdict.specs.Rules.{first_broken};
ghost use Rattle.window_rules.specs.Counts.{HasCounts};

use crate::calls::close::shut_down;
use crate::signals::{at_moment, timeout_signal};
use case_forms::{Expired, Header, RtoChoice, Timer};
use spec_tcp::{Endpoint, Fault};
use timer_rules::{TimerFault, Timers};
use verdict::Rule;

/// Whether a timer may expire at an endpoint at this moment, in microseconds; the retransmission timer with the values
/// chosen then. The error is the first rule that is broken.
pub fn admits_expiry(
    header: &Header,
    moment: u64,
    endpoint: &Endpoint,
    expired: Expired,
) -> Result<(), Rule>
    ensures { result_err result ≡ first_broken (expiry_rules header.now moment endpoint.now expired) }
{
    let timer = expired.timer();
    if endpoint.state.is_closed() {
        return Err(Rule::NoEndpoint);
    }
    if grows_above(endpoint, expired, moment) {
        return Err(Rule::Growth);
    }
    if is_off(endpoint, timer) {
        return Err(Rule::TimerOff);
    }
    if is_early(&endpoint.timers, timer, moment, header) {
        return Err(Rule::TimerEarly);
    }
    Ok(())
}

// Whether the values chosen at the retransmission timer are above the greatest allowed.
fn grows_above(endpoint: &Endpoint, expired: Expired, moment: u64) -> bool
    ensures { result ≡ grows_above endpoint.now expired moment }
{
    match expired {
        Expired::Rto(growth) => is_above(endpoint, growth, moment),
        Expired::Persist | Expired::Msl2 | Expired::Giveup | Expired::Pto => false,
    }
}

/// The greatest congestion window and the greatest slow start threshold, in bytes, that an endpoint may have after its
/// retransmission timer expired at a moment in microseconds (RFC 5681, 3.1).
pub fn greatest_values(endpoint: &Endpoint, moment: u64) -> (u64, u64)
    ensures { result ≡ greatest_values endpoint.now moment }
{
    let signal = timeout_signal(endpoint);
    endpoint
        .control
        .greatest(signal, at_moment(endpoint, moment))
}

fn is_above(endpoint: &Endpoint, growth: RtoChoice, moment: u64) -> bool
    ensures { result ≡ is_above endpoint.now growth moment }
{
    let greatest = greatest_values(endpoint, moment);
    greatest.0 < growth.cwnd as u64 || greatest.1 < growth.ssthresh as u64
}

fn is_off(endpoint: &Endpoint, timer: Timer) -> bool
    ensures { result ≡ is_off endpoint.now timer }
{
    match timer {
        Timer::Rto => endpoint.timers.rto_armed.is_none(),
        Timer::Persist => {
            !(endpoint.timers.persist_armed.is_some() && endpoint.is_up() && has_more(endpoint))
        }
        Timer::Msl2 => endpoint.timers.msl_armed.is_none(),
        Timer::Giveup => !may_give_up(endpoint),
        Timer::Pto => !may_probe(endpoint),
    }
}

/// Whether data or the FIN is unsent or unacknowledged.
pub fn has_more(endpoint: &Endpoint) -> bool
    ensures { result ≡ has_more endpoint.now }
{
    let end = endpoint.stream.accepted.end();
    if endpoint.stream.ended {
        endpoint.stream.snd_una <= end
    } else {
        endpoint.stream.snd_una < end
    }
}

fn may_probe(endpoint: &Endpoint) -> bool
    ensures { result ≡ may_probe endpoint.now }
{
    endpoint.is_up() && endpoint.stream.snd_una < endpoint.snd_max()
}

fn may_give_up(endpoint: &Endpoint) -> bool
    ensures { result ≡ may_give_up endpoint.now }
{
    let is_open = endpoint.stream.snd_una < endpoint.snd_max()
        || endpoint.timers.persist_armed.is_some();
    (is_open && 3 <= endpoint.unanswered_expiries)
        || (endpoint.closed && endpoint.state.is_fin_wait_2())
}

fn is_early(timers: &Timers, timer: Timer, moment: u64, header: &Header) -> bool
    ensures { result ≡ is_early timers.now timer moment header.now }
{
    match timer {
        Timer::Giveup | Timer::Pto => false,
        Timer::Rto => is_refused_early(timers, Timer::Rto, moment, header),
        Timer::Persist => is_refused_early(timers, Timer::Persist, moment, header),
        Timer::Msl2 => is_refused_early(timers, Timer::Msl2, moment, header),
    }
}

fn is_refused_early(timers: &Timers, timer: Timer, moment: u64, header: &Header) -> bool
    requires { timer ≢ Giveup }
    ensures { result ≡ is_early timers.now timer moment header.now }
{
    matches!(
        timers.may_expire(timer, moment, header),
        Err(TimerFault::Early)
    )
}

/// A timer expires at a moment in microseconds. After the retransmission timer, the congestion window and the slow
/// start threshold are the chosen ones, in bytes, and all that was sent may be retransmitted. After the persist timer,
/// a probe is due. A timer that probes for a loss rearms the retransmission timer if that is armed (RFC 8985, 7.3).
/// Otherwise, the wait in TIME-WAIT is over, or the endpoint gives up and a reset is due.
pub fn expire(endpoint: &mut Endpoint, expired: Expired, moment: u64)
    requires { HasRoom endpoint.old }
    ensures { endpoint.new ≡ forget_endpoint (after_expiry endpoint.old expired moment) }
{
    match expired {
        Expired::Rto(growth) => expire_retransmission(endpoint, growth, moment),
        Expired::Persist => expire_persist(endpoint, moment),
        Expired::Msl2 => shut_down(endpoint),
        Expired::Giveup => give_up(endpoint),
        Expired::Pto => endpoint.timers.rearm(moment),
    }
}

fn expire_retransmission(endpoint: &mut Endpoint, growth: RtoChoice, moment: u64)
    requires unanswered_expiries { endpoint.old.unanswered_expiries + 1 < 2 ^ 32 }
    requires backoffs { endpoint.old.backoffs + 1 < 2 ^ 32 }
    requires counts { HasCounts endpoint.old.control }
    ensures { endpoint.new ≡ after_rto endpoint.old growth moment }
{
    let signal = timeout_signal(endpoint);
    let at = at_moment(endpoint, moment);
    let control = endpoint
        .control
        .after(signal, at, growth.cwnd, growth.ssthresh);
    endpoint.recover = endpoint.snd_max();
    endpoint.control = control;
    endpoint.timers.back_off();
    endpoint.timers.arm(Timer::Rto, moment);
    endpoint.unanswered_expiries += 1;
    endpoint.backoffs += 1;
    endpoint.syn_lost = endpoint.syn_lost || endpoint.stream.snd_una == 0;
}

fn expire_persist(endpoint: &mut Endpoint, moment: u64)
    requires { endpoint.old.unanswered_expiries + 1 < 2 ^ 32 }
    ensures { endpoint.new ≡ after_persist endpoint.old moment }
{
    endpoint.recover = endpoint.snd_max();
    endpoint.probe_due = true;
    endpoint.timers.arm(Timer::Persist, moment);
    endpoint.unanswered_expiries += 1;
}

fn give_up(endpoint: &mut Endpoint)
    ensures { endpoint.new ≡ record (shut_down endpoint.old) { fault = Some Timeout; reset_due = true } }
{
    shut_down(endpoint);
    endpoint.fault = Some(Fault::Timeout);
    endpoint.reset_due = true;
}
