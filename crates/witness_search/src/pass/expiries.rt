//! Expiries that the trace shows, and lines that are added for others.

use super::Pass;
use crate::calls::{Meant, endpoint_at};
use crate::key::EndpointKey;
use crate::progress::{Progress, saturated};
use crate::stop::{Stop, permitted};
use case_forms::{Expired, Recovery, RecoveryChange, RtoChoice, Timer};
use endpoint::{greatest_at_recovery, greatest_values};

impl Progress {
    // The expiry of a timer, with the greatest values that may be chosen then.
    fn greatest_expiry(&self, key: EndpointKey, timer: Timer) -> Expired {
        match timer {
            Timer::Rto => Expired::Rto(self.greatest_choice(key)),
            Timer::Persist => Expired::Persist,
            Timer::Msl2 => Expired::Msl2,
            Timer::Giveup => Expired::Giveup,
            Timer::Pto => Expired::Pto,
        }
    }

    fn greatest_choice(&self, key: EndpointKey) -> RtoChoice {
        let (cwnd, ssthresh) = match self.endpoint(key) {
            Some(endpoint) => greatest_values(endpoint, self.moment()),
            None => (0, 0),
        };
        RtoChoice {
            cwnd: saturated(cwnd),
            ssthresh: saturated(ssthresh),
        }
    }

    /// What a call on an endpoint means. None: the endpoint doesn't exist.
    pub(crate) fn meant_at(&self, key: EndpointKey) -> Option<Meant> {
        let body = self.world().body(key.host());
        let place = body.place_of(key.lport, key.rport)?;
        Some(endpoint_at(key.host(), place))
    }

    /// Adds a line for an expiry, if the timer may expire now and the trace doesn't show its host's expiries: before
    /// the current line, or after it if its step was written. The result is whether the line was added.
    pub(crate) fn add_expiry(&mut self, key: EndpointKey, timer: Timer) -> Result<bool, Stop> {
        if self.log.expiries.of_host(key.host()) {
            return Ok(false);
        }
        self.undo_before(key, timer)?;
        let expired = self.greatest_expiry(key, timer);
        Ok(permitted(self.add_line(key, expired))?.is_some())
    }

    // Fast recovery begins or is undone with the greatest values. None: there is no such endpoint.
    fn greatest_recovery(&self, key: EndpointKey, change: RecoveryChange) -> Option<Recovery> {
        let (cwnd, ssthresh) = greatest_at_recovery(self.endpoint(key)?, self.moment());
        Some(Recovery {
            change,
            lport: key.lport,
            rport: key.rport,
            cwnd: saturated(cwnd),
            ssthresh: saturated(ssthresh),
        })
    }

    /// Fast recovery begins with the greatest values, if that's permitted. If an earlier recovery, which may be undone,
    /// keeps it from beginning after three duplicate acknowledgments, that is undone first. The result is whether it
    /// began.
    pub(crate) fn try_recovery(&mut self, key: EndpointKey) -> Result<bool, Stop> {
        if self.try_beginning(key)? {
            return Ok(true);
        }
        let endpoint = self.endpoint(key);
        let is_repeated = endpoint.is_some_and(|endpoint| 2 < endpoint.control.values.dup);
        Ok(is_repeated && self.try_undo(key)? && self.try_beginning(key)?)
    }

    // Fast recovery begins, if that's permitted. The result is whether it did.
    fn try_beginning(&mut self, key: EndpointKey) -> Result<bool, Stop> {
        match self.greatest_recovery(key, RecoveryChange::Begins) {
            Some(recovery) => Ok(permitted(self.recover(key, recovery))?.is_some()),
            None => Ok(false),
        }
    }

    // A recovery is undone that is going on, if it wasn't needed. The result is whether it was undone.
    fn try_undo(&mut self, key: EndpointKey) -> Result<bool, Stop> {
        if !self.may_undo(key) {
            return Ok(false);
        }
        match self.greatest_recovery(key, RecoveryChange::IsUndone) {
            Some(recovery) => Ok(permitted(self.undo(key, recovery))?.is_some()),
            None => Ok(false),
        }
    }

    // A recovery keeps an endpoint from probing for a loss, so it is undone first if that's permitted.
    fn undo_before(&mut self, key: EndpointKey, timer: Timer) -> Result<(), Stop> {
        if let Timer::Pto = timer {
            self.try_undo(key)?;
        }
        Ok(())
    }
}

impl Pass<'_> {
    /// The current line shows that a timer expired.
    pub(crate) fn expire_shown(&mut self, key: EndpointKey, timer: Timer) -> Result<(), Stop> {
        self.progress.undo_before(key, timer)?;
        let expired = self.progress.greatest_expiry(key, timer);
        self.progress.expire(key, expired)?;
        self.wake_endpoint(key)
    }

    /// Calls on an endpoint are tried, and one that waits for its ports.
    pub(crate) fn wake_endpoint(&mut self, key: EndpointKey) -> Result<(), Stop> {
        if let Some(meant) = self.progress.meant_at(key) {
            self.wake(meant)?;
        }
        self.open_again(key)?;
        Ok(())
    }

    /// Adds a line for an expiry, if that's permitted now, and tries the calls on the endpoint. The result is whether
    /// it did.
    pub(crate) fn try_expiry(&mut self, key: EndpointKey, timer: Timer) -> Result<bool, Stop> {
        let is_added = self.progress.add_expiry(key, timer)?;
        if is_added {
            self.wake_endpoint(key)?;
        }
        Ok(is_added)
    }
}
