//! What keeps an endpoint from probing for a loss, to explain a step that is refused.

use crate::flight::Flight;
use flight_parts::{are_selective, is_recovering, probe_moment, probe_timeout};
use spec_duties::View;
use spec_flights::Probe;

/// When an endpoint may probe for a loss. Times are in microseconds.
#[derive(Clone, Copy)]
pub struct ProbeWait {
    /// When something was last acknowledged, or sent for the first time.
    pub quiet: u64,
    /// How long nothing may come or go since then.
    pub time: u128,
    /// When a probe is due: after that time, or when the retransmission timer runs out if that is earlier.
    pub due: u128,
}

/// Whether an endpoint that has something outstanding may probe for a loss, and if not, why (RFC 8985, 7.2 and 7.3).
#[derive(Clone, Copy)]
pub enum ProbeStanding {
    /// Not both SYNs permitted selective acknowledgments.
    Plain {
        /// Whether its own did.
        own: bool,
        /// Whether its peer's did.
        peers: bool,
    },
    /// It recovers from a loss up to this position.
    Recovers(u64),
    /// A probe is due.
    Due,
    /// A probe was built, and ended at this position, which isn't acknowledged.
    Out(u64),
    /// Nothing was sent or acknowledged yet.
    Unsent,
    /// The peer reported this position.
    Reported(u64),
    /// It may, but not too early.
    Waits(ProbeWait),
}

// When a probe may be sent if nothing came or went since.
fn wait_since(v: &View, quiet: u64) -> ProbeWait {
    ProbeWait {
        quiet,
        time: probe_timeout(v),
        due: probe_moment(v, quiet),
    }
}

impl Flight {
    // The same where no recovery is going on, and no probe is due or on its way.
    fn probe_wait(&self, v: &View) -> ProbeStanding {
        let Some(quiet) = self.probing.quiet else {
            return ProbeStanding::Unsent;
        };
        match self.board.first_told(v.snd_una, v.snd_max) {
            Some(position) => ProbeStanding::Reported(position),
            None => ProbeStanding::Waits(wait_since(v, quiet)),
        }
    }

    /// Whether the endpoint may probe for a loss, and if not, why.
    pub(crate) fn probe_standing(&self, v: &View) -> ProbeStanding {
        let (own, peers) = (self.sides.own, self.sides.peers);
        if !are_selective(self.sides) {
            return ProbeStanding::Plain { own, peers };
        }
        if is_recovering(v, self.recovery) {
            return ProbeStanding::Recovers(self.recovery.point);
        }
        match self.probing.probe {
            Probe::Due => ProbeStanding::Due,
            Probe::Out(upto) => ProbeStanding::Out(upto),
            Probe::Nothing => self.probe_wait(v),
        }
    }
}
