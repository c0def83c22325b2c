//! What is remembered of an endpoint and its retransmissions, and the remarks on these. Moments and times are
//! microseconds.

use crate::acknowledgments::EqualAcks;
use crate::blocks::Blockless;
use crate::bursts::Burst;
use crate::found::{Found, Repeats, Time};
use crate::sendings::Sending;
use crate::waits::{Clock, Now, Probes, Stall, is_short, required_wait};
use case_forms::{OutOfMemory, Timer};
use plain_words::word_if;
use spec_tcp::{Endpoint, EndpointId};
use std::fmt;

/// The key of a position of an endpoint, which is named by its host and its place there.
pub(crate) fn position_key(id: EndpointId, position: u64) -> (u8, u32, u64) {
    (id.host as u8, id.number, position)
}

/// What is remembered of an endpoint.
#[derive(Clone, Copy, Default)]
pub(crate) struct Note {
    /// The position after all that was sent.
    pub sent_end: u64,
    /// The position after the windows of the segments that lines show.
    pub edge: u64,
    /// When its SYN was first sent.
    pub begun: Option<u64>,
    /// When something that takes positions, or an empty probe, was last sent; 0 if nothing was.
    pub last_sent: u64,
    /// The persist timer if it is armed, otherwise the retransmission timer.
    pub clock: Option<Clock>,
    /// The probes since the window closed.
    pub probes: Probes,
    /// How many times anything let it retransmit when it last sent a probe again.
    pub probed_at: u64,
    pub stall: Option<Stall>,
    /// Since when its window is closed although its program was given all that it received. None: it isn't.
    pub shut: Option<u64>,
    pub permits: Permits,
    /// Since when nothing was sent before the retransmission timer expired last.
    pub waited_from: u64,
    pub chain: Option<Chain>,
    pub burst: Option<Burst>,
    /// The oldest position that was not acknowledged when the retransmission timer expired last with a line.
    pub expired_at: u64,
    /// How many times the retransmission timer expired, also with no line for it.
    pub expiries: u32,
    /// How many times it may have expired with no line since it was armed: so late was the oldest segment sent again.
    pub unseen: u32,
    /// Something arrived since it last sent something that takes positions.
    pub heard: bool,
    pub equal_acks: Option<EqualAcks>,
    pub blockless: Option<Blockless>,
    /// How many segments arrived that ask for an acknowledgment.
    pub asked: u64,
    /// Its program aborted it.
    pub aborted: bool,
}

impl Note {
    /// Takes the timer and the stall that the endpoint has at a moment.
    pub(crate) fn see(&mut self, endpoint: &Endpoint, moment: u64) {
        let timers = &endpoint.timers;
        if self.armed(Timer::Rto).map(|clock| clock.armed) != timers.rto_armed {
            self.unseen = 0;
        }
        self.probes = match timers.persist_armed {
            Some(_) => self.probes.with(timers.rto),
            None => Probes::default(),
        };
        self.clock = self.clock_of(endpoint, moment);
        self.stall = self.stall_of(endpoint, moment);
        self.shut = self.shut_of(endpoint, moment);
    }

    /// The timer, if it is this one.
    pub(crate) fn armed(&self, timer: Timer) -> Option<Clock> {
        self.clock.filter(|clock| clock.timer as u8 == timer as u8)
    }

    /// Something that takes positions is sent.
    pub(crate) fn send(&mut self, sending: &Sending, moment: u64) {
        if sending.position == 0 {
            self.begun = self.begun.or(Some(moment));
        }
        self.sent_end = self.sent_end.max(sending.end);
        self.last_sent = moment;
        self.heard = false;
    }

    /// A timer expires with a line; this is the oldest position that is not acknowledged.
    pub(crate) fn expire(&mut self, timer: Timer, now: Now, una: u64) {
        match timer {
            Timer::Rto => {
                let since = self.armed(timer).map_or(0, |clock| clock.since);
                self.waited_from = since.max(self.last_sent);
                self.expired_at = una;
                self.expiries = self.expiries.saturating_add(1);
                self.permits.add(Permit::Rto(now.line));
            }
            Timer::Persist => {
                self.add_probe(now.moment);
                self.permits.add(Permit::Persist(now.line));
            }
            Timer::Pto => self.permits.add(Permit::Pto(now.line)),
            Timer::Msl2 | Timer::Giveup => {}
        }
    }

    /// Counts a probe that is sent although nothing allowed it since the last one.
    pub(crate) fn count_probe(&mut self, sending: &Sending, moment: u64) {
        if self.armed(Timer::Persist).is_some() {
            if self.probed_at == sending.permits.count {
                self.add_probe(moment);
            }
            self.probed_at = sending.permits.count;
            self.last_sent = moment;
        }
    }

    // One more probe is due at a moment.
    fn add_probe(&mut self, moment: u64) {
        let since = self
            .armed(Timer::Persist)
            .map_or(moment, |clock| clock.since);
        let wait = moment.saturating_sub(since.max(self.last_sent));
        self.probes = self.probes.longer(wait);
    }

    /// Compares the waits before retransmissions of the oldest segment. Returns those that have come to an end.
    pub(crate) fn retransmit(&mut self, sending: &Sending, now: Now, grain: u64) -> Option<Chain> {
        if sending.una < sending.position || sending.end <= sending.una {
            return None;
        }
        let chain = self.chain.filter(|chain| chain.una == sending.una);
        if let Some(chain) = chain {
            if chain.permits == sending.permits.count {
                if sending.answers {
                    return None;
                }
                let unseen = u32::from(sending.is_late(chain.moment, now.moment, grain));
                self.unseen = self.unseen.saturating_add(unseen);
                self.expiries = self.expiries.saturating_add(unseen);
            }
        }
        let is_expired = matches!(sending.permits.last, Permit::Rto(_));
        let goes_on = is_expired && chain.is_some();
        let ended = if goes_on { None } else { self.chain };
        let chain = chain.unwrap_or(Chain::new(sending, self.waited_from));
        self.chain = is_expired.then_some(chain.longer(sending.permits.count, now, grain));
        ended
    }
}

/// What let an endpoint retransmit.
#[derive(Clone, Copy, Default)]
pub(crate) enum Permit {
    /// Nothing did.
    #[default]
    Nothing,
    /// An expiry of the retransmission timer, in this line.
    Rto(u64),
    /// An expiry of the persist timer, in this line.
    Persist(u64),
    /// A tail loss probe was due, in this line.
    Pto(u64),
    /// Fast recovery began.
    Recovery,
    /// A closed window opened by the segment of this line.
    Opening(u64),
}

impl fmt::Display for Permit {
    fn fmt<W: fmt::Write>(&self, f: &mut fmt::Formatter<W>) -> fmt::Result {
        match self {
            Permit::Nothing => write!(f, "without an expiry"),
            Permit::Rto(line) => write!(f, "after one rto expiry (line {line})"),
            Permit::Persist(line) => write!(f, "after one persist expiry (line {line})"),
            Permit::Pto(line) => write!(f, "after one pto expiry (line {line})"),
            Permit::Recovery => write!(f, "in one fast recovery"),
            Permit::Opening(line) => write!(f, "after the window opened once (line {line})"),
        }
    }
}

/// What let an endpoint retransmit last, and how many times anything did.
#[derive(Clone, Copy, Default)]
pub(crate) struct Permits {
    pub last: Permit,
    pub count: u64,
}

impl Permits {
    /// Something lets it retransmit.
    pub(crate) fn add(&mut self, permit: Permit) {
        self.last = permit;
        self.count = self.count.saturating_add(1);
    }
}

/// The retransmissions from one position after one permit.
#[derive(Clone, Copy)]
pub(crate) struct Again {
    pub permits: Permits,
    /// The moment of the last one.
    pub moment: u64,
    pub repeats: Repeats,
}

impl Again {
    /// Remarks on them, unless there is one alone.
    pub(crate) fn say(&self, found: &mut Found) -> Result<(), OutOfMemory> {
        if self.repeats.times < 2 {
            return Ok(());
        }
        self.repeats.say(found, &self.permits.last)
    }
}

/// Retransmissions of the oldest segment after expiries, with no new acknowledgment between them.
#[derive(Clone, Copy)]
pub(crate) struct Chain {
    /// The oldest position that is not acknowledged.
    una: u64,
    /// When it was last sent.
    moment: u64,
    /// The longest wait before one of them.
    wait: u64,
    /// How many permits there were until then.
    permits: u64,
    /// Those that came too early.
    early: Repeats,
    /// The wait before the first of these, and the longest one before that.
    waits: (u64, u64),
}

impl Chain {
    // No retransmission so far; the wait before the first one begins at a moment.
    fn new(sending: &Sending, moment: u64) -> Chain {
        Chain {
            una: sending.una,
            moment,
            wait: 0,
            permits: 0,
            early: sending.repeats(),
            waits: (0, 0),
        }
    }

    // The chain with one more retransmission, after so many permits.
    fn longer(mut self, permits: u64, now: Now, grain: u64) -> Chain {
        let wait = now.moment.saturating_sub(self.moment);
        if is_short(wait, self.wait, grain) {
            if self.early.times == 0 {
                self.waits = (wait, self.wait);
            }
            self.early.add(now.line);
        }
        self.moment = now.moment;
        self.wait = wait.max(self.wait);
        self.permits = permits;
        self
    }

    /// Remarks on those that came too early, if any did.
    pub(crate) fn say(&self, found: &mut Found) -> Result<(), OutOfMemory> {
        if self.early.times == 0 {
            return Ok(());
        }
        let at_first = word_if(1 < self.early.times, "first ");
        let (wait, required) = (Time(self.waits.0), Time(required_wait(self.waits.1)));
        let waits = &format_args!("{at_first}after {wait} instead of {required}");
        let how = &format_args!("without back-off: {waits} (RFC 6298, 5.5)");
        self.early.say(found, how)
    }
}
