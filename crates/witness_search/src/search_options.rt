//! What a search is asked for.

use crate::ways::Ways;
use case_forms::Host;

/// How many steps are spent on going back for one line, unless another budget is given.
pub const USUAL_BUDGET: u64 = 1_000_000;

/// The hosts of which a trace shows each expiry of a timer. A search adds no expiry for them.
#[derive(Clone, Copy)]
pub struct ShownExpiries {
    pub zero: bool,
    pub one: bool,
}

impl ShownExpiries {
    /// Whether each expiry of a host's timers is shown.
    pub fn of_host(self, host: Host) -> bool {
        match host {
            Host::Zero => self.zero,
            Host::One => self.one,
        }
    }
}

/// What a search is asked for.
#[derive(Clone, Copy)]
pub struct SearchOptions {
    /// How many steps are spent on going back for one line, at most, and 20 times as many in all. With 0, the search
    /// goes over the lines once.
    pub budget: u64,
    /// The hosts whose expiries the trace shows.
    pub expiries: ShownExpiries,
    /// How the hosts do what the RFCs leave open. Where that explains a further line, a host is tried in other ways.
    pub ways: Ways,
}

impl SearchOptions {
    /// The usual ones: the trace may lack expiries, and hosts do everything in the usual way.
    pub fn usual() -> SearchOptions {
        SearchOptions {
            budget: USUAL_BUDGET,
            expiries: ShownExpiries {
                zero: false,
                one: false,
            },
            ways: Ways::usual(),
        }
    }
}
