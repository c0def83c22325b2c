//! Ways of a host: how it does, throughout a run, what the RFCs leave open.
//!
//! A pass assumes one way of each kind for each host. The usual ones permit the most, so they explain most hosts. But a
//! host that does everything in another way needs that one at each line, which no change at single lines gives.
//!
//! - `growth`: how the congestion window grows in congestion avoidance
//! - `samples`: which round trips are measured
//! - `recovery`: when fast recovery ends
//! - `state`: what they depend on during a pass

mod growth;
mod recovery;
mod samples;
mod state;

use case_forms::Host;
pub(crate) use growth::Growth;
pub(crate) use recovery::Leaving;
pub(crate) use samples::Samples;
pub(crate) use state::WayState;
use verdict::Rule;

/// What a way is called, and what a host does in it.
#[derive(Clone, Copy)]
pub struct WayWords {
    /// As `--ways` names it.
    pub name: &'static str,
    /// The end of a sentence that begins with the host.
    pub does: &'static str,
}

/// The ways of a host.
#[derive(Clone, Copy, PartialEq, Eq)]
pub(crate) struct HostWays {
    growth: Growth,
    samples: Samples,
    leaving: Leaving,
}

// The usual ways.
const USUAL: HostWays = HostWays {
    growth: Growth::EachAck,
    samples: Samples::Each,
    leaving: Leaving::FirstAck,
};

// How many kinds of ways there are.
const KINDS: usize = 3;

/// A way of a host that isn't the usual one.
#[derive(Clone, Copy)]
pub struct Unusual {
    pub host: Host,
    pub words: WayWords,
}

impl HostWays {
    // These ways, but the one that has this name. None: no way has it.
    fn with_named(self, name: &str) -> Option<HostWays> {
        if let Some(growth) = Growth::named(name) {
            return Some(HostWays { growth, ..self });
        }
        if let Some(samples) = Samples::named(name) {
            return Some(HostWays { samples, ..self });
        }
        let leaving = Leaving::named(name)?;
        Some(HostWays { leaving, ..self })
    }

    /// The ways in which a host is tried whose line breaks a rule, in their order. None: it isn't tried otherwise.
    pub(crate) fn others(self, rule: Rule) -> [Option<HostWays>; KINDS] {
        if concerns_windows(rule) {
            let growth = self.growth.other();
            let leaving = self.leaving.other();
            return [
                Some(HostWays { growth, ..self }),
                Some(HostWays { leaving, ..self }),
                Some(HostWays {
                    growth,
                    leaving,
                    ..self
                }),
            ];
        }
        if concerns_timers(rule) {
            let [first, second] = self.samples.others();
            return [
                Some(HostWays {
                    samples: first,
                    ..self
                }),
                Some(HostWays {
                    samples: second,
                    ..self
                }),
                None,
            ];
        }
        [None, None, None]
    }
}

// Whether a line that breaks a rule may show another congestion window.
fn concerns_windows(rule: Rule) -> bool {
    matches!(
        rule,
        Rule::Congestion | Rule::Growth | Rule::Recovery | Rule::ResentBeyond
    )
}

// Whether a line that breaks a rule may show another retransmission timeout.
fn concerns_timers(rule: Rule) -> bool {
    matches!(
        rule,
        Rule::TimerEarly
            | Rule::ExpiryLate
            | Rule::ResendLate
            | Rule::ProbeLate
            | Rule::OldData
            | Rule::Resent
    )
}

/// The ways of both hosts.
#[derive(Clone, Copy, PartialEq, Eq)]
pub struct Ways {
    zero: HostWays,
    one: HostWays,
}

impl Ways {
    /// Both hosts do everything in the usual way.
    pub fn usual() -> Ways {
        Ways {
            zero: USUAL,
            one: USUAL,
        }
    }

    /// The ways that aren't usual, those of host 0 first.
    pub fn unusual(&self) -> [Option<Unusual>; 6] {
        let of = |host, words: Option<WayWords>| words.map(|words| Unusual { host, words });
        [
            of(Host::Zero, self.zero.growth.words()),
            of(Host::Zero, self.zero.samples.words()),
            of(Host::Zero, self.zero.leaving.words()),
            of(Host::One, self.one.growth.words()),
            of(Host::One, self.one.samples.words()),
            of(Host::One, self.one.leaving.words()),
        ]
    }

    /// The ways of a host.
    pub(crate) fn of_host(&self, host: Host) -> HostWays {
        match host {
            Host::Zero => self.zero,
            Host::One => self.one,
        }
    }

    /// The same, with these ways of a host.
    pub(crate) fn with(self, host: Host, ways: HostWays) -> Ways {
        match host {
            Host::Zero => Ways { zero: ways, ..self },
            Host::One => Ways { one: ways, ..self },
        }
    }

    /// The same, with the way of a host that has this name. None: no way has it.
    pub fn with_named(self, host: Host, name: &str) -> Option<Ways> {
        Some(self.with(host, self.of_host(host).with_named(name)?))
    }
}
