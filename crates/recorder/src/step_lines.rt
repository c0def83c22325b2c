//! Steps written as lines of a trace, and as steps of a witness.

ghost use Rattle.std.specs.Prelude.{◌≡◌, ◌≤◌, ◌+◌, ◌++◌, ◌∷◌, [], Some, IfOk, OnOk};
ghost use Rattle.spec_network.specs.Tables.{on};
ghost use Rattle.spec_tcp.specs.Steps.{line_step, step_of};
ghost use Rattle.recorder.specs.Numbers.{AllSmall, IsSmallItem, IsSmallStep, names_by};
ghost use Rattle.recorder.specs.Saying.{all_renumbered, event_said, extras_said, growth_said, label_said, line_said};
ghost use Rattle.recorder.specs.Saying.{lines_said, names, own_number, renumbered, said, steps_said, thread_said};
ghost use Rattle.checker.specs.Again.{nowhere};

use crate::numbers::Counts;
use crate::order::{InOrder, rank};
use case_forms::{
    Event, Expired, Extras, Host, Line, Lines, NamedLine, OutOfMemory, Span, Step, Steps, TakenLine,
};
use spec_step::Label;
use stack_core::{Entry, Item};
use std::alloc::Global;

// What is written for a step: its label in a witness, and the line that it takes.
#[derive(Drop)]
struct RecordedStep {
    label: case_forms::Label<NamedLine>,
    line: Option<Line>,
}

// No place in a text.
fn nowhere() -> Span
    ensures { result ≡ nowhere }
{
    Span {
        line: 0,
        start: 0,
        stop: 0,
    }
}

// A label that takes a line, with these numbers.
fn told_line(number: u32, moment: u64, thread: u32, event: Event, extras: Extras) -> RecordedStep
    ensures label { result.label ≡ names number extras }
    ensures line { result.line ≡ Some (said number moment thread event) }
{
    let number = u64::from(number);
    RecordedStep {
        label: case_forms::Label::L(NamedLine { number, extras }),
        line: Some(Line {
            number,
            moment,
            thread,
            event,
            span: nowhere(),
        }),
    }
}

// The number of the line that a step takes, in its host's recording.
fn own_number(taken: &TakenLine) -> u64
    ensures { result ≡ own_number taken.now }
{
    match taken {
        TakenLine::CallBegin { line, .. }
        | TakenLine::CallEnd { line, .. }
        | TakenLine::Sent { line, .. }
        | TakenLine::Came { line, .. }
        | TakenLine::Heard { line, .. }
        | TakenLine::Expired { line, .. } => *line,
    }
}

// The thread of that line: lines of arriving segments, of timers, and of sent segments have threads of their own.
fn thread_of(taken: &TakenLine) -> u32
    ensures { result ≡ thread_said taken.now }
{
    match taken {
        TakenLine::CallBegin { thread, .. } | TakenLine::CallEnd { thread, .. } => *thread,
        TakenLine::Came { host, .. } | TakenLine::Heard { host, .. } => 4 + rank(*host),
        TakenLine::Expired { host, .. } => 6 + rank(*host),
        TakenLine::Sent { host, .. } => 8 + rank(*host),
    }
}

// The event of the line that a step takes.
fn event_of(taken: &TakenLine) -> Result<Event, OutOfMemory>
    ensures { IfOk result (λ event. event ≡ event_said taken.now) }
{
    Ok(match taken {
        TakenLine::CallBegin { call, .. } => Event::CallBegin(call.copy()?),
        TakenLine::CallEnd { answer, .. } => Event::CallEnd(answer.copy()?),
        TakenLine::Sent { host, wire, .. } => Event::Sent(*host, wire.copy()?),
        TakenLine::Came { host, wire, .. } | TakenLine::Heard { host, wire, .. } => {
            Event::Came(*host, wire.copy()?)
        }
        TakenLine::Expired {
            host,
            ports,
            expired,
            ..
        } => Event::Expired(*host, ports.lport, ports.rport, expired.timer()),
    })
}

// The numbers that the line's step adds in a witness.
fn extras_of(counts: &Counts, host: Host, taken: &TakenLine) -> Extras
    requires small { IsSmallStep (line_step taken.now) }
    requires lines { counts.now.lines.next ≤ 2147483647 }
    requires mades { counts.now.mades.next ≤ 2147483647 }
    ensures { result ≡ extras_said (names_by counts.now.lines counts.now.mades) host taken.now }
{
    match taken {
        TakenLine::CallBegin { .. } | TakenLine::CallEnd { .. } | TakenLine::Heard { .. } => {
            Extras::Bare
        }
        TakenLine::Sent { made, .. } => Extras::One(counts.mades.number(host, u64::from(*made))),
        TakenLine::Came { copied, .. } => Extras::One(counts.lines.number(host.other(), *copied)),
        TakenLine::Expired { expired, .. } => growth_of(*expired),
    }
}

fn growth_of(expired: Expired) -> Extras
    ensures { result ≡ growth_said expired }
{
    match expired {
        Expired::Rto(growth) => Extras::Two(growth.cwnd, growth.ssthresh),
        Expired::Persist | Expired::Msl2 | Expired::Giveup | Expired::Pto => Extras::Bare,
    }
}

// What is written for the step of a line.
#[tactic(auto, using(crate::proofs::TellLemmas::line_told, crate::proofs::TellLemmas::label_told, crate::proofs::TellLemmas::small_line))]
fn tell_line(
    counts: &Counts,
    moment: u64,
    host: Host,
    taken: &TakenLine,
) -> Result<RecordedStep, OutOfMemory>
    requires small { IsSmallStep (line_step taken.now) }
    requires lines { counts.now.lines.next ≤ 2147483647 }
    requires mades { counts.now.mades.next ≤ 2147483647 }
    ensures label { IfOk result (λ t. t.label
        ≡ label_said (renumbered (names_by counts.now.lines counts.now.mades) host (line_step taken.now))) }
    ensures line { IfOk result (λ t. t.line ≡ line_said moment
        (renumbered (names_by counts.now.lines counts.now.mades) host (line_step taken.now))) }
{
    let event = event_of(taken)?;
    let number = counts.lines.number(host, own_number(taken));
    let extras = extras_of(counts, host, taken);
    Ok(told_line(number, moment, thread_of(taken), event, extras))
}

// What is written for a step of a host, under new numbers.
fn tell_step(
    counts: &Counts,
    moment: u64,
    host: Host,
    label: &Label,
) -> Result<RecordedStep, OutOfMemory>
    requires small { IsSmallStep (step_of label.now) }
    requires lines { counts.now.lines.next ≤ 2147483647 }
    requires mades { counts.now.mades.next ≤ 2147483647 }
    ensures label { IfOk result (λ t. t.label
        ≡ label_said (renumbered (names_by counts.now.lines counts.now.mades) host (step_of label.now))) }
    ensures line { IfOk result (λ t. t.line ≡ line_said moment
        (renumbered (names_by counts.now.lines counts.now.mades) host (step_of label.now))) }
{
    let label = match label {
        Label::L(taken) => return tell_line(counts, moment, host, taken),
        Label::D { thread, answer } => case_forms::Label::D {
            thread: *thread,
            answer: answer.copy()?,
        },
        Label::M { host, plan } => case_forms::Label::M {
            host: *host,
            plan: *plan,
        },
        Label::T {
            host: at,
            line,
            choice,
        } => case_forms::Label::T {
            host: *at,
            line: u64::from(counts.lines.number(host, *line)),
            choice: *choice,
        },
        Label::K { host: at, line } => case_forms::Label::K {
            host: *at,
            line: u64::from(counts.lines.number(host, *line)),
        },
        Label::R { host: at, line } => case_forms::Label::R {
            host: *at,
            line: u64::from(counts.lines.number(host, *line)),
        },
        Label::F { host, recovery } => case_forms::Label::F {
            host: *host,
            recovery: *recovery,
        },
    };
    Ok(RecordedStep { label, line: None })
}

// Adds a line, if there is one.
fn push_told(line: Option<Line>, lines: &mut Lines) -> Result<(), OutOfMemory>
    ensures { OnOk result (lines.new ≡ lines.old ++ on line [] (λ l. l ∷ [])) }
{
    if let Some(line) = line {
        lines.push(line)?;
    }
    Ok(())
}

// Writes one more entry.
fn tell_entry(
    counts: &Counts,
    entry: &Entry,
    lines: &mut Lines,
    steps: &mut Steps,
) -> Result<(), OutOfMemory>
    requires small { IsSmallItem entry.now.item }
    requires lines { counts.now.lines.next ≤ 2147483647 }
    requires mades { counts.now.mades.next ≤ 2147483647 }
    ensures lines { OnOk result (lines.new ≡ lines.old
        ++ lines_said (all_renumbered (names_by counts.now.lines counts.now.mades) (entry.now ∷ []))) }
    ensures steps { OnOk result (steps.new ≡ steps.old
        ++ steps_said (all_renumbered (names_by counts.now.lines counts.now.mades) (entry.now ∷ []))) }
{
    let Item::Does(label) = entry.item() else {
        return Ok(());
    };
    let key = entry.key();
    let told = tell_step(counts, key.moment, key.host, label)?;
    push_told(told.line, lines)?;
    steps.push(Step {
        moment: key.moment,
        label: told.label,
        span: nowhere(),
    })?;
    Ok(())
}

/// The lines and the steps of all entries, in their order, under these numbers.
#[tactic(auto, using(crate::proofs::TellLemmas::lines_on, crate::proofs::TellLemmas::steps_on))]
pub(crate) fn tell_all(
    alloc: Global,
    counts: &Counts,
    mut entries: InOrder,
) -> Result<(Lines, Steps), OutOfMemory>
    requires small { AllSmall entries }
    requires lines { counts.now.lines.next ≤ 2147483647 }
    requires mades { counts.now.mades.next ≤ 2147483647 }
    ensures lines { IfOk result (λ r. r.0 ≡ lines_said
        (all_renumbered (names_by counts.now.lines counts.now.mades) entries.entry)) }
    ensures steps { IfOk result (λ r. r.1 ≡ steps_said
        (all_renumbered (names_by counts.now.lines counts.now.mades) entries.entry)) }
{
    let mut lines = Lines::new(alloc);
    let mut steps = Steps::new(alloc);
    while let Some(entry) = entries.next() {
        tell_entry(counts, entry, &mut lines, &mut steps)?;
    }
    Ok((lines, steps))
}
