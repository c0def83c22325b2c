//! The verdict on a case, and the reason for it in plain words.

use crate::comparison::compare;
use crate::described::describe_ports;
use crate::known::{Origin, say_cause};
use crate::marks::mark;
use crate::scene::{Object, Past, Scene};
use crate::unjudged::say_unjudged;
use crate::wrap::say_wrap;
use crate::{arrivals, calls, inbox, late, wire};
use case_forms::{Event, Label, Line, Step};
use checker::{CaseFault, check_case};
use line_fields::{FaultKind, TextFault};
use plain_words::{Sheet, Shown, fault_line};
use replayed::{Case, ReplayFault, Texts, line_at};
use std::alloc::Global;
use verdict::{Rule, Verdict};

/// What is printed for a case: the line that `tcpwit check` prints, its status, and more lines after a no or a fault.
#[derive(Drop)]
pub struct Explanation {
    pub text: String,
    /// 0: yes. 1: no. 2: a text is refused.
    pub status: u8,
    /// The result of checking the case.
    pub checked: Result<Verdict, CaseFault>,
}

/// Explains the verdict on a case, whose segments have this origin.
pub fn explain(alloc: Global, text: &[u8], origin: Origin) -> Result<Explanation, ReplayFault> {
    let checked = check_case(alloc, text);
    let mut said = Sheet::new(alloc);
    let status = say(alloc, &mut said, text, origin, checked);
    let text = said.finish();
    match status {
        Ok(status) => Ok(Explanation {
            text: text?,
            status,
            checked,
        }),
        Err(fault) => Err(fault),
    }
}

// Writes what is said, and returns the status.
fn say(
    alloc: Global,
    out: &mut Sheet,
    text: &[u8],
    origin: Origin,
    checked: Result<Verdict, CaseFault>,
) -> Result<u8, ReplayFault> {
    match checked {
        Ok(verdict) => say_verdict(alloc, out, text, origin, verdict),
        Err(CaseFault::Trace(fault)) => {
            say_fault(alloc, out, "bad trace ", Texts::new(text).trace, &fault)
        }
        Err(CaseFault::Witness(fault)) => {
            say_fault(alloc, out, "bad witness ", Texts::new(text).witness, &fault)
        }
        Err(CaseFault::Read | CaseFault::OutOfMemory) => Err(ReplayFault::OutOfMemory),
    }
}

fn say_verdict(
    alloc: Global,
    out: &mut Sheet,
    text: &[u8],
    origin: Origin,
    verdict: Verdict,
) -> Result<u8, ReplayFault> {
    out.show(&verdict);
    out.put("\n");
    match verdict {
        Verdict::Yes { .. } => Ok(0),
        // Both texts were read before, so that only memory can fail.
        Verdict::No { rule, .. } => match Case::with_verdict(alloc, text, verdict) {
            Ok(case) => explain_no(alloc, out, &case, rule, origin),
            Err(_) => Err(ReplayFault::OutOfMemory),
        },
    }
}

// The line of a fault, and where it is in its text.
fn say_fault(
    alloc: Global,
    out: &mut Sheet,
    refusal: &str,
    bytes: &[u8],
    fault: &TextFault,
) -> Result<u8, ReplayFault> {
    if let FaultKind::OutOfMemory = fault.kind {
        return Err(ReplayFault::OutOfMemory);
    }
    match fault_line(alloc, refusal, fault) {
        Ok(line) => out.put(line.as_str()),
        Err(error) => out.note(Err(error)),
    }
    mark(out, bytes, fault);
    Ok(2)
}

// What is refused, and the reason for it.
fn explain_no(
    alloc: Global,
    out: &mut Sheet,
    case: &Case,
    rule: Rule,
    origin: Origin,
) -> Result<u8, ReplayFault> {
    quote(out, case);
    let mut past = Past::new(alloc, case);
    let explained = run_and_explain(out, &mut past, rule, origin);
    drop(past);
    explained
}

fn run_and_explain(
    out: &mut Sheet,
    past: &mut Past,
    rule: Rule,
    origin: Origin,
) -> Result<u8, ReplayFault> {
    past.run()?;
    let scene = past.scene();
    describe(out, &scene, rule);
    explain_refusal(out, &scene, rule, origin);
    Ok(1)
}

// What is known at the refused step or after the last one.
fn describe(out: &mut Sheet, scene: &Scene, rule: Rule) {
    match scene.step {
        Some(step) if !is_of_order(rule) => describe_step(out, scene, step),
        Some(_) => {}
        None => late::describe_end(out, scene),
    }
}

// What the rule compares, and the usual causes.
fn explain_refusal(out: &mut Sheet, scene: &Scene, rule: Rule, origin: Origin) {
    compare(out, scene, rule);
    say_cause(out, scene, rule, origin);
    if !is_of_order(rule) {
        say_wrap(out, scene);
    }
    say_unjudged(out, scene, rule);
}

// Whether a rule is about nothing but the order of the lines.
fn is_of_order(rule: Rule) -> bool {
    matches!(
        rule,
        Rule::LineRange
            | Rule::LineAgain
            | Rule::ThreadOrder
            | Rule::MomentFalls
            | Rule::MomentOff
            | Rule::Overdue
            | Rule::Unplaced
    )
}

// The step and the trace line, as written.
fn quote(out: &mut Sheet, case: &Case) {
    let Ok(
        Verdict::No {
            witness_line,
            trace_line,
            ..
        },
    ) = &case.verdict
    else {
        return;
    };
    if let Some(line) = line_at(case.texts.witness, *witness_line) {
        out.put("the step: ");
        out.show(&Shown(line));
        out.put("\n");
    }
    if let Some(line) = line_at(case.texts.trace, *trace_line) {
        out.say("trace line {}: ", &[*trace_line]);
        out.show(&Shown(line));
        out.put("\n");
    }
}

// What the step is about.
fn describe_step(out: &mut Sheet, scene: &Scene, step: &Step) {
    match &step.label {
        Label::L(named) => match scene.line(named.number) {
            Some(line) => describe_line(out, scene, line),
            None => {}
        },
        Label::D { thread, .. } => calls::describe_thread(out, scene, *thread),
        Label::M { host, plan } => describe_ports(out, scene, *host, plan.lport, plan.rport),
        Label::T { host, line, .. } => {
            inbox::describe_arrival(out, scene, *host, *line);
            match scene.object() {
                Object::Listening(host, m, _) => arrivals::listener(out, scene.world, host, m),
                _ => {}
            }
        }
        Label::K { host, line } | Label::R { host, line } => {
            inbox::describe_arrival(out, scene, *host, *line);
        }
        Label::F { host, recovery } => {
            describe_ports(out, scene, *host, recovery.lport, recovery.rport);
        }
    }
}

fn describe_line(out: &mut Sheet, scene: &Scene, line: &Line) {
    match &line.event {
        Event::CallBegin(_) => calls::describe_thread(out, scene, line.thread),
        Event::CallEnd(answer) => calls::describe_end(out, scene, line.thread, answer),
        Event::Sent(host, _) => wire::describe_sent(out, scene, *host),
        Event::Came(host, wire) => wire::describe_came(out, scene, *host, wire),
        Event::Expired(host, lport, rport, _) => describe_ports(out, scene, *host, *lport, *rport),
    }
}
