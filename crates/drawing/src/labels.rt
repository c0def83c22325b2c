//! What is written beside an event.

use case_forms::{Answer, Call, Label, NamedLine};
use plain_words::{AnswerWords, CallWords, FlagWords, HostName, Sheet, StepWords};
use replayed::Refusal;
use std::fmt;
use verdict::Rule;

/// Writes a call. No label names the host, which is beside it.
pub(crate) fn push_call(out: &mut Sheet, call: &Call) {
    match call {
        Call::Listen(_, port, backlog) => out.say(
            "listen {}, backlog {}",
            &[u64::from(*port), u64::from(*backlog)],
        ),
        Call::Connect(_, lport, rport) => {
            out.say("open {} -> {}", &[u64::from(*lport), u64::from(*rport)]);
        }
        Call::Await(_)
        | Call::Accept(_)
        | Call::Send(..)
        | Call::Recv(..)
        | Call::Shut(_)
        | Call::Close(_)
        | Call::Abort(_)
        | Call::Status(_) => out.show(&CallWords(call)),
    }
}

/// Writes the answer of a call. `opens`: the call is `listen`, `open` or `accept`, which return a socket number.
pub(crate) fn push_answer(out: &mut Sheet, answer: &Answer, opens: bool) {
    match answer {
        Answer::Given(number) if opens => out.say("= socket {}", &[u64::from(*number)]),
        Answer::Given(count) => out.say("= {} bytes", &[u64::from(*count)]),
        Answer::Bytes(bytes) => out.say("= {} bytes", &[bytes.len() as u64]),
        answer => {
            out.put("=");
            out.show(&AnswerWords(answer));
        }
    }
}

/// Microseconds as milliseconds.
#[derive(Clone, Copy)]
pub(crate) struct Milliseconds(pub u128);

impl fmt::Display for Milliseconds {
    fn fmt<W: fmt::Write>(&self, f: &mut fmt::Formatter<W>) -> fmt::Result {
        write!(f, "{}.{:03} ms", self.0 / 1000, self.0 % 1000)
    }
}

/// Microseconds as seconds or milliseconds, rounded.
#[derive(Clone, Copy)]
pub(crate) struct Length(pub u64);

impl fmt::Display for Length {
    fn fmt<W: fmt::Write>(&self, f: &mut fmt::Formatter<W>) -> fmt::Result {
        let tenths = self.0.saturating_add(50_000) / 100_000;
        if tenths < 10 {
            write!(f, "{} ms", self.0.saturating_add(500) / 1000)
        } else {
            write!(f, "{}.{} s", tenths / 10, tenths % 10)
        }
    }
}

/// Writes what is refused: a step with its rule, a line that no step uses, or a duty that is late at the end.
pub(crate) fn push_refusal(out: &mut Sheet, refusal: Refusal) {
    match refusal {
        Refusal::Nowhere => {}
        Refusal::At { step, rule } => {
            push_rule(out, rule);
            push_step(out, &step.label);
        }
        Refusal::Unplaced(line) => out.say("refused (unplaced): no step uses line {}", &[line]),
        Refusal::Late { rule, .. } => {
            push_rule(out, rule);
            out.put("a duty is late at the end");
        }
    }
}

fn push_rule(out: &mut Sheet, rule: Rule) {
    out.put("refused (");
    out.show(&rule);
    out.put("): ");
}

// Writes what the refused step does. A segment that is built is described as its label would be.
fn push_step(out: &mut Sheet, label: &Label<NamedLine>) {
    let Label::M { host, plan } = label else {
        return out.show(&StepWords(label));
    };
    out.show(&HostName(*host));
    out.put(" builds ");
    out.show(&FlagWords(plan.flags));
    out.number(plan.pos);
    if plan.len != 0 {
        let end = plan.pos.saturating_add(u64::from(plan.len));
        out.say("..{}", &[end]);
    }
}
