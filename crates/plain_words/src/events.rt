//! Segments, the events of lines, and steps in words.

use crate::numbers::Numbers;
use crate::words::{AnswerWords, CallWords, FlagWords, HostName};
use case_forms::{
    Event, Flags, Host, Label, Line, NamedLine, Recovery, RecoveryChange, SegmentPlan, TakeChoice,
};
use line_fields::timer_name;
use segment::{Flag, Segment};
use std::fmt;

/// The flags, positions, byte count and window of a segment that a host sends.
#[derive(Clone, Copy)]
pub struct SegmentWords<'s> {
    pub numbers: &'s Numbers,
    /// The host that sends it.
    pub host: Host,
    pub seg: &'s Segment,
}

impl fmt::Display for SegmentWords<'_> {
    fn fmt<W: fmt::Write>(&self, f: &mut fmt::Formatter<W>) -> fmt::Result {
        let seg = self.seg;
        let flags = Flags {
            ack: seg.has(Flag::Ack),
            rst: seg.has(Flag::Rst),
            syn: seg.has(Flag::Syn),
            fin: seg.has(Flag::Fin),
        };
        let position = self.numbers.position(self.host, seg);
        write!(f, "{}{position}", FlagWords(flags))?;
        if !seg.payload.is_empty() {
            write!(f, " +{}", seg.payload.len())?;
        }
        self.end(f, flags.ack)
    }
}

impl SegmentWords<'_> {
    // The acknowledgment, if there is one, and the window.
    fn end<W: fmt::Write>(&self, f: &mut fmt::Formatter<W>, ack: bool) -> fmt::Result {
        if ack {
            write!(f, " ack {}", self.numbers.acknowledged(self.host, self.seg))?;
        }
        write!(f, " win {}", self.seg.window)
    }
}

/// The event of a line.
#[derive(Clone, Copy)]
pub struct EventWords<'e> {
    pub numbers: &'e Numbers,
    pub line: &'e Line,
}

impl EventWords<'_> {
    // A segment of a host, at the host that sends or receives it.
    fn passing<W: fmt::Write>(
        &self,
        f: &mut fmt::Formatter<W>,
        at: Host,
        host: Host,
        seg: &Segment,
    ) -> fmt::Result {
        let verb = if at == host { "sends" } else { "receives" };
        let (numbers, src, dst) = (self.numbers, seg.src, seg.dst);
        let words = SegmentWords { numbers, host, seg };
        let at = HostName(at);
        write!(f, "{at} {verb} {src} to {dst}: {words}")
    }
}

impl fmt::Display for EventWords<'_> {
    fn fmt<W: fmt::Write>(&self, f: &mut fmt::Formatter<W>) -> fmt::Result {
        let thread = self.line.thread;
        match &self.line.event {
            Event::CallBegin(call) => begin(f, thread, CallWords(call)),
            Event::CallEnd(answer) => end(f, thread, AnswerWords(answer)),
            Event::Sent(host, wire) => self.passing(f, *host, *host, &wire.seg),
            Event::Came(host, wire) => self.passing(f, *host, host.other(), &wire.seg),
            Event::Expired(host, lport, rport, timer) => {
                expire(f, *host, timer_name(*timer), *lport, *rport)
            }
        }
    }
}

fn begin<W: fmt::Write>(f: &mut fmt::Formatter<W>, thread: u32, call: CallWords) -> fmt::Result {
    write!(f, "thread {thread} calls {call}")
}

fn end<W: fmt::Write>(f: &mut fmt::Formatter<W>, thread: u32, answer: AnswerWords) -> fmt::Result {
    write!(f, "thread {thread} gets{answer}")
}

fn expire<W: fmt::Write>(
    f: &mut fmt::Formatter<W>,
    host: Host,
    timer: &str,
    lport: u16,
    rport: u16,
) -> fmt::Result {
    let host = HostName(host);
    write!(f, "{host}: timer {timer} expires at {lport} to {rport}")
}

/// What a step does.
#[derive(Clone, Copy)]
pub struct StepWords<'l>(pub &'l Label<NamedLine>);

impl fmt::Display for StepWords<'_> {
    fn fmt<W: fmt::Write>(&self, f: &mut fmt::Formatter<W>) -> fmt::Result {
        match self.0 {
            Label::L(named) => write!(f, "line {}", named.number),
            Label::D { thread, answer } => take_effect(f, *thread, AnswerWords(answer)),
            Label::M { host, plan } => build(f, HostName(*host), PlanWords(plan)),
            Label::T { host, line, choice } => process(f, *host, *line, *choice),
            Label::K { host, line } => drop_line(f, HostName(*host), *line),
            Label::R { host, line } => answer_line(f, HostName(*host), *line),
            Label::F { host, recovery } => recover(f, *host, *recovery),
        }
    }
}

fn take_effect<W: fmt::Write>(
    f: &mut fmt::Formatter<W>,
    thread: u32,
    answer: AnswerWords,
) -> fmt::Result {
    write!(f, "the call of thread {thread} has its effect:{answer}")
}

fn build<W: fmt::Write>(f: &mut fmt::Formatter<W>, host: HostName, plan: PlanWords) -> fmt::Result {
    write!(f, "{host} builds {plan}")
}

fn drop_line<W: fmt::Write>(f: &mut fmt::Formatter<W>, host: HostName, line: u64) -> fmt::Result {
    write!(f, "{host} drops line {line}")
}

fn answer_line<W: fmt::Write>(f: &mut fmt::Formatter<W>, host: HostName, line: u64) -> fmt::Result {
    write!(f, "{host} answers line {line} with a reset")
}

fn process<W: fmt::Write>(
    f: &mut fmt::Formatter<W>,
    host: Host,
    line: u64,
    choice: TakeChoice,
) -> fmt::Result {
    let (host, cwnd) = (HostName(host), choice.cwnd);
    let kept = match (choice.keep, choice.sample) {
        (true, true) => "kept, measured",
        (true, false) => "kept",
        (false, true) => "not kept, measured",
        (false, false) => "not kept",
    };
    write!(f, "{host} processes line {line}, cwnd {cwnd}, {kept}")
}

fn recover<W: fmt::Write>(
    f: &mut fmt::Formatter<W>,
    host: Host,
    recovery: Recovery,
) -> fmt::Result {
    let (host, lport, rport) = (HostName(host), recovery.lport, recovery.rport);
    match recovery.change {
        RecoveryChange::Begins => {
            write!(f, "{host} begins fast recovery at {lport} to {rport}")?;
        }
        RecoveryChange::IsUndone => {
            write!(f, "{host} undoes a recovery at {lport} to {rport}")?;
        }
    }
    write!(
        f,
        ", cwnd {}, ssthresh {}",
        recovery.cwnd, recovery.ssthresh
    )
}

// A segment that is built: its ports, flags, position, byte count and window.
#[derive(Clone, Copy)]
struct PlanWords<'p>(&'p SegmentPlan);

impl fmt::Display for PlanWords<'_> {
    fn fmt<W: fmt::Write>(&self, f: &mut fmt::Formatter<W>) -> fmt::Result {
        let plan = self.0;
        let flags = FlagWords(plan.flags);
        let (lport, rport, pos) = (plan.lport, plan.rport, plan.pos);
        write!(f, "{lport} to {rport}: {flags}{pos}")?;
        write!(f, " +{} win {}", plan.len, plan.window)
    }
}
