//! If a retransmission timer expires too early, or data is retransmitted too early: since when the timer would run if
//! an acknowledgment hadn't restarted it. It is kept for one endpoint while a case is replayed.

use case_forms::{Event, Header, Host, Label, Step, Timer};
use endpoint_state::World;
use replayed::Case;

/// When the retransmission timer of a step's endpoint was armed. Moments are microseconds.
#[derive(Clone, Copy)]
pub(crate) struct Restarts {
    host: Host,
    lport: u16,
    rport: u16,
    /// The oldest position that isn't acknowledged.
    una: u64,
    /// Since when it is armed. None: it is off.
    armed: Option<u64>,
    /// The same if the last new acknowledgment hadn't restarted it.
    before_last: Option<u64>,
    /// The same if no new acknowledgment had.
    before_all: Option<u64>,
}

// By how much a timer may run longer, if it never expired: in version 6, SRTT and RTTVAR are up to a clock tick wrong.
fn clock_error(header: &Header) -> u64 {
    if header.version.says_sender() {
        header.grain.saturating_mul(5)
    } else {
        header.grain
    }
}

impl Restarts {
    /// The timer of the endpoint that builds a segment, or the timer that expires. None: the step does neither.
    pub(crate) fn from_step(case: &Case, step: Option<&Step>) -> Option<Restarts> {
        match &step?.label {
            Label::M { host, plan } => Some(Restarts::new(*host, plan.lport, plan.rport)),
            Label::L(named) => match &case.line(named.number)?.event {
                Event::Expired(host, lport, rport, Timer::Rto) => {
                    Some(Restarts::new(*host, *lport, *rport))
                }
                _ => None,
            },
            _ => None,
        }
    }

    fn new(host: Host, lport: u16, rport: u16) -> Restarts {
        Restarts {
            host,
            lport,
            rport,
            una: 0,
            armed: None,
            before_last: None,
            before_all: None,
        }
    }

    /// Follows the world, once between two steps.
    pub(crate) fn follow(&mut self, world: &World) {
        let Some(endpoint) = world.body(self.host).endpoint_of(self.lport, self.rport) else {
            return;
        };
        let (armed, una) = (endpoint.timers.rto_armed, endpoint.stream.snd_una);
        if armed != self.armed {
            let is_restart = armed.is_some() && self.armed.is_some() && self.una < una;
            self.before_last = if is_restart { self.armed } else { armed };
            self.before_all = if is_restart { self.before_all } else { armed };
        }
        self.armed = armed;
        self.una = una;
    }

    /// Since when the timer would run without a restart if its expiry at a moment is early, and then on time. None: it
    /// isn't early, or not by a restart.
    pub(crate) fn fitting(&self, header: &Header, rto: u64, moment: u64) -> Option<u64> {
        let late = header.slack.unwrap_or(0).max(clock_error(header));
        let latest = moment.saturating_add(header.grain);
        if self.armed?.saturating_add(rto) <= latest {
            return None;
        }
        for since in [self.before_last, self.before_all] {
            if let Some(since) = since
                && since.saturating_add(rto) <= latest
                && moment <= since.saturating_add(rto).saturating_add(late)
            {
                return Some(since);
            }
        }
        None
    }
}
