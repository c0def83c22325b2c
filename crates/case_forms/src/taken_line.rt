//! A trace line as the model uses it.

ghost use Rattle.std.specs.Prelude.{◌≡◌};
ghost use Rattle.case_forms.specs.TakenLines.{expired_by, taken_of, timer_of};

use crate::OutOfMemory;
use crate::calls::{Answer, Call, Host, Ports};
use crate::named_line::Extras;
use crate::steps::Takes;
use crate::timer::{RtoChoice, Timer};
use crate::trace::{Event, Line, Wire};

/// A timer that expired, with the values chosen then.
#[derive(Clone, Copy)]
pub enum Expired {
    /// The congestion window and the slow start threshold, in bytes, are chosen (RFC 5681, 3.1).
    Rto(RtoChoice),
    Persist,
    Msl2,
    Giveup,
    Pto,
}

impl Expired {
    /// Which timer it was.
    pub fn timer(self) -> Timer
        ensures { result ≡ timer_of self }
    {
        match self {
            Expired::Rto(_) => Timer::Rto,
            Expired::Persist => Timer::Persist,
            Expired::Msl2 => Timer::Msl2,
            Expired::Giveup => Timer::Giveup,
            Expired::Pto => Timer::Pto,
        }
    }
}

/// The content of a line that a step uses, with the extra numbers of the step. `line` is its number among all lines of
/// the trace, including the header's.
#[derive(Drop)]
pub enum TakenLine {
    /// The thread begins a call.
    CallBegin {
        line: u64,
        thread: u32,
        call: Call,
    },
    /// The thread's open call ends with this answer.
    CallEnd {
        line: u64,
        thread: u32,
        answer: Answer,
    },
    /// The host sends a segment, which was built under the number `made`.
    Sent {
        line: u64,
        host: Host,
        made: u32,
        wire: Wire,
    },
    /// A segment arrives at the host, a copy of the one sent in line `copied`.
    Came {
        line: u64,
        host: Host,
        copied: u64,
        wire: Wire,
    },
    /// A segment arrives at the host from the other one, which isn't recorded.
    Heard {
        line: u64,
        host: Host,
        wire: Wire,
    },
    /// A timer of the host's endpoint at these ports expires.
    Expired {
        line: u64,
        host: Host,
        ports: Ports,
        expired: Expired,
    },
}

impl Takes for TakenLine {
    fn copy(&self) -> Result<Self, OutOfMemory> {
        Ok(match self {
            TakenLine::CallBegin { line, thread, call } => TakenLine::CallBegin {
                line: *line,
                thread: *thread,
                call: call.copy()?,
            },
            TakenLine::CallEnd {
                line,
                thread,
                answer,
            } => TakenLine::CallEnd {
                line: *line,
                thread: *thread,
                answer: answer.copy()?,
            },
            TakenLine::Sent {
                line,
                host,
                made,
                wire,
            } => TakenLine::Sent {
                line: *line,
                host: *host,
                made: *made,
                wire: wire.copy()?,
            },
            TakenLine::Came {
                line,
                host,
                copied,
                wire,
            } => TakenLine::Came {
                line: *line,
                host: *host,
                copied: *copied,
                wire: wire.copy()?,
            },
            TakenLine::Heard { line, host, wire } => TakenLine::Heard {
                line: *line,
                host: *host,
                wire: wire.copy()?,
            },
            TakenLine::Expired {
                line,
                host,
                ports,
                expired,
            } => TakenLine::Expired {
                line: *line,
                host: *host,
                ports: *ports,
                expired: *expired,
            },
        })
    }
}

// The timer that expired, given the extra numbers of its line.
fn expired_by(timer: Timer, extras: Extras) -> Option<Expired>
    ensures { result ≡ expired_by timer extras }
{
    match (timer, extras) {
        (Timer::Rto, Extras::Two(cwnd, ssthresh)) => Some(Expired::Rto(RtoChoice {
            cwnd,
            ssthresh,
        })),
        (Timer::Persist, Extras::Bare) => Some(Expired::Persist),
        (Timer::Msl2, Extras::Bare) => Some(Expired::Msl2),
        (Timer::Giveup, Extras::Bare) => Some(Expired::Giveup),
        (Timer::Pto, Extras::Bare) => Some(Expired::Pto),
        _ => None,
    }
}

impl Line {
    /// The line as the model uses it, with a step's extra numbers. `None` means that a line of its kind needs another
    /// count of them.
    // A call would copy the line and the result.
    #[inline(always)]
    pub fn taken(self, extras: Extras) -> Option<TakenLine>
        ensures { result ≡ taken_of extras self }
    {
        let line = self.number;
        let thread = self.thread;
        match (self.event, extras) {
            (Event::CallBegin(call), Extras::Bare) => {
                Some(TakenLine::CallBegin { line, thread, call })
            }
            (Event::CallEnd(answer), Extras::Bare) => Some(TakenLine::CallEnd {
                line,
                thread,
                answer,
            }),
            (Event::Sent(host, wire), Extras::One(made)) => Some(TakenLine::Sent {
                line,
                host,
                made,
                wire,
            }),
            (Event::Came(host, wire), Extras::One(copied)) => Some(TakenLine::Came {
                line,
                host,
                copied: u64::from(copied),
                wire,
            }),
            (Event::Came(host, wire), Extras::Bare) => Some(TakenLine::Heard { line, host, wire }),
            (Event::Expired(host, lport, rport, timer), extras) => {
                let expired = expired_by(timer, extras)?;
                Some(TakenLine::Expired {
                    line,
                    host,
                    ports: Ports { lport, rport },
                    expired,
                })
            }
            _ => None,
        }
    }
}
