//! The timers of one endpoint, and its retransmission timeout (RFC 6298; RFC 9293, 3.8.6.1).

ghost use Rattle.std.specs.Prelude.{◌≡◌, ◌≢◌, ◌≤◌, nat_lt, OnOk, OnErr};
ghost use Rattle.std.specs.Result.{result_err};
ghost use Rattle.case_forms.specs.declared.timer.Timer.TheVariants.{Giveup, Pto};
ghost use Rattle.timer_rules.specs.Timeouts.{longest_rto, srtt_after, rttvar_after, timeout};
ghost use Rattle.timer_rules.specs.Timers.{start, sampled, backed_off, raised_for_lost_syn, armed_since, with_timer};
ghost use Rattle.timer_rules.specs.Timers.{armed, stopped, all_stopped, run_time, earliest, refusal, expired};

use crate::fault::TimerFault;
use case_forms::{Header, Timer};

/// The greatest retransmission timeout, in microseconds.
pub const LONGEST_RTO: u64 = 60_000_000;

/// The timers of an endpoint. All times and moments are in microseconds.
///
/// These are the retransmission timer, the persist timer and the wait in TIME-WAIT. `Timer::Giveup` is never armed, so
/// the calls that name a timer accept any but that one. `Timer::Pto` is always off here: to arm it does nothing.
#[derive(Clone, Copy)]
pub struct Timers {
    /// The smoothed round trip time (SRTT); `None` before the first sample.
    pub srtt: Option<u64>,
    /// The variation of the round trip time (RTTVAR); 0 before the first sample.
    pub rttvar: u64,
    /// The retransmission timeout, at most 60,000,000.
    pub rto: u64,
    /// Since when the retransmission timer is armed; `None` if it is off.
    pub rto_armed: Option<u64>,
    /// Since when the persist timer is armed; `None` if it is off.
    pub persist_armed: Option<u64>,
    /// When the wait in TIME-WAIT began; `None` if it is off.
    pub msl_armed: Option<u64>,
}

impl Timers {
    /// No sample yet and no timer armed; the timeout is 1,000,000 microseconds (RFC 6298, 2.1).
    pub fn start() -> Timers
        ensures { result ≡ start }
    {
        Timers {
            srtt: None,
            rttvar: 0,
            rto: 1_000_000,
            rto_armed: None,
            persist_armed: None,
            msl_armed: None,
        }
    }

    /// Applies a sample: a round trip took `r` microseconds (RFC 6298, 2.2 to 2.5).
    pub fn sample(&mut self, r: u64, header: &Header)
        ensures value { self.new ≡ sampled self.old r header.now }
        ensures limit { self.new.rto ≤ longest_rto }
    {
        let rttvar = rttvar_after(self.srtt, self.rttvar, r);
        let srtt = srtt_after(self.srtt, r);
        self.srtt = Some(srtt);
        self.rttvar = rttvar;
        self.rto = timeout(header, srtt, rttvar);
    }

    /// Arms or rearms a timer, any but `Giveup`, at a moment in microseconds.
    pub fn arm(&mut self, timer: Timer, moment: u64)
        requires { timer ≢ Giveup }
        ensures { self.new ≡ armed self.old timer moment }
    {
        self.set(timer, Some(moment));
    }

    /// Turns a timer off, any but `Giveup`.
    pub fn stop(&mut self, timer: Timer)
        requires { timer ≢ Giveup }
        ensures { self.new ≡ stopped self.old timer }
    {
        self.set(timer, None);
    }

    /// Turns all timers off.
    pub fn stop_all(&mut self)
        ensures { self.new ≡ all_stopped self.old }
    {
        self.rto_armed = None;
        self.persist_armed = None;
        self.msl_armed = None;
    }

    /// Doubles the timeout, at most to 60,000,000 microseconds (RFC 6298, 5.5).
    pub fn back_off(&mut self)
        ensures value { self.new ≡ backed_off self.old }
        ensures limit { self.new.rto ≤ longest_rto }
    {
        self.rto = self.rto.saturating_mul(2).min(LONGEST_RTO);
    }

    /// Raises the timeout to 3,000,000 microseconds if it is below: the SYN was lost, and is now acknowledged (RFC
    /// 6298, 5.7).
    pub fn raise_for_lost_syn(&mut self)
        ensures { self.new ≡ raised_for_lost_syn self.old }
    {
        self.rto = self.rto.max(3_000_000);
    }

    /// Rearms the retransmission timer at a moment in microseconds if it is armed: a probe for a loss is due (RFC 8985,
    /// 7.3).
    pub fn rearm(&mut self, moment: u64)
        ensures { self.new ≡ expired self.old Pto moment }
    {
        if self.rto_armed.is_some() {
            self.rto_armed = Some(moment);
        }
    }

    /// Lets a timer, any but `Giveup`, expire at a moment in microseconds. An expiry of the retransmission timer
    /// doubles the timeout and rearms the timer (RFC 6298, 5.5 and 5.6). One of the persist timer rearms it. One of the
    /// wait in TIME-WAIT ends it. The error is `Off` if the timer is not armed, or else `Early` if the moment is before
    /// the earliest.
    pub fn expire(&mut self, timer: Timer, moment: u64, header: &Header) -> Result<(), TimerFault>
        requires { timer ≢ Giveup }
        ensures exact { result_err result ≡ refusal self.old timer moment header.now }
        ensures ok { OnOk result (self.new ≡ expired self.old timer moment) }
        ensures err { OnErr result (self.new ≡ self.old) }
    {
        self.may_expire(timer, moment, header)?;
        match timer {
            Timer::Rto => {
                self.back_off();
                self.rto_armed = Some(moment);
            }
            Timer::Persist => self.persist_armed = Some(moment),
            Timer::Msl2 => self.msl_armed = None,
            Timer::Pto => {}
            Timer::Giveup => unreachable!(),
        }
        Ok(())
    }

    /// Whether a timer, any but `Giveup`, may expire at a moment in microseconds. The errors are those of `expire`;
    /// nothing changes.
    pub fn may_expire(&self, timer: Timer, moment: u64, header: &Header) -> Result<(), TimerFault>
        requires { timer ≢ Giveup }
        ensures { result_err result ≡ refusal self.now timer moment header.now }
    {
        match self.armed_since(timer) {
            None => Err(TimerFault::Off),
            Some(since) => {
                if is_early(since, self.run_time(timer, header), header.grain, moment) {
                    return Err(TimerFault::Early);
                }
                Ok(())
            }
        }
    }

    /// Since when a timer, any but `Giveup`, is armed, in microseconds; `None` if it is off.
    pub fn armed_since(&self, timer: Timer) -> Option<u64>
        requires { timer ≢ Giveup }
        ensures { result ≡ armed_since self.now timer }
    {
        match timer {
            Timer::Rto => self.rto_armed,
            Timer::Persist => self.persist_armed,
            Timer::Msl2 => self.msl_armed,
            Timer::Pto => None,
            Timer::Giveup => unreachable!(),
        }
    }

    fn set(&mut self, timer: Timer, since: Option<u64>)
        requires { timer ≢ Giveup }
        ensures { self.new ≡ with_timer self.old timer since }
    {
        match timer {
            Timer::Rto => self.rto_armed = since,
            Timer::Persist => self.persist_armed = since,
            Timer::Msl2 => self.msl_armed = since,
            Timer::Pto => {}
            Timer::Giveup => unreachable!(),
        }
    }

    // Twice the maximum segment lifetime may exceed 64 bits.
    fn run_time(&self, timer: Timer, header: &Header) -> u128
        requires { timer ≢ Giveup }
        ensures { result ≡ run_time self.now timer header.now }
    {
        match timer {
            Timer::Rto | Timer::Persist => self.rto as u128,
            Timer::Msl2 => 2 * header.msl as u128,
            Timer::Pto => 0,
            Timer::Giveup => unreachable!(),
        }
    }
}

fn is_early(since: u64, time: u128, grain: u64, moment: u64) -> bool
    ensures { result ≡ nat_lt moment (earliest since time grain) }
{
    moment < since || (moment - since) as u128 + (grain as u128) < time
}

fn srtt_after(srtt: Option<u64>, r: u64) -> u64
    ensures { result ≡ srtt_after srtt r }
{
    match srtt {
        None => r,
        Some(srtt) => ((7 * srtt as u128 + r as u128) / 8) as u64,
    }
}

fn rttvar_after(srtt: Option<u64>, rttvar: u64, r: u64) -> u64
    ensures { result ≡ rttvar_after srtt rttvar r }
{
    match srtt {
        None => r / 2,
        Some(srtt) => ((3 * rttvar as u128 + srtt.abs_diff(r) as u128) / 4) as u64,
    }
}

fn timeout(header: &Header, srtt: u64, rttvar: u64) -> u64
    ensures value { result ≡ timeout header.now srtt rttvar }
    ensures limit { result ≤ longest_rto }
{
    let spread = (4 * rttvar as u128).max(header.grain as u128);
    let timeout = (srtt as u128 + spread).max(header.minrto as u128);
    timeout.min(LONGEST_RTO as u128) as u64
}
