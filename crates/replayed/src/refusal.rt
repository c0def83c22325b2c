//! What a verdict refuses, as values.

use crate::debts::{Late, debtor_after, debtor_at};
use crate::reasons::{Reason, congestion_reason, old_data_reason};
use crate::replay::{ReplayFault, apply_other, apply_taken};
use crate::touched::{touched_by_line, touched_by_other};
use crate::unsent::{held_after, held_at, sent_by};
use crate::unused_lines::UnusedLines;
use case_forms::{Header, Label, Step};
use endpoint_state::World;
use spec_step::{Act, act_of};
use spec_tcp::EndpointId;
use std::alloc::Global;
use std::io::BufRead;
use trace_reader::Counted;
use verdict::{Rule, Verdict};
use watched::Case;
use witness::StepReader;

/// The step that a verdict refuses, or what it refuses after the last step.
#[derive(Clone, Copy)]
pub struct Refused {
    /// The number of the step's line in the trace. If the step uses no line: the line of the segment that it processes,
    /// drops or answers, or else the line after the last one used. After the last step: the first line that isn't
    /// placed, or that of the segment that waits too long; 0 for any other duty that is late.
    pub line: u64,
    pub rule: Rule,
    pub reason: Reason,
}

// What a no says.
#[derive(Clone, Copy)]
struct No {
    /// The line of the refused step in the text of the witness. None: the case is refused after the last step.
    step_line: Option<u64>,
    /// The line of the trace that it names.
    line: u64,
    rule: Rule,
}

/// What the verdict on a case refuses. The case has been judged, so its texts have no fault. The trace is given by its
/// header and the text after that. Both texts are read up to the refused step, and neither is kept. None: the verdict
/// is yes.
pub fn refused_by<A: BufRead + Drop, B: BufRead + Drop>(
    alloc: Global,
    header: &Header,
    events: Counted<A>,
    witness: Counted<B>,
    verdict: Verdict,
) -> Result<Option<Refused>, ReplayFault> {
    match verdict {
        Verdict::Yes { .. } => Ok(None),
        Verdict::No {
            trace_line: line,
            rule: Rule::Unplaced,
            ..
        } => Ok(Some(Refused {
            line,
            rule: Rule::Unplaced,
            reason: Reason::Other,
        })),
        Verdict::No {
            witness_line,
            trace_line: line,
            rule,
        } => {
            let mut lines = UnusedLines::new(alloc, header, events);
            let mut steps = StepReader::new(alloc, header.version, witness);
            let step_line = (witness_line != 0).then_some(witness_line);
            let no = No {
                step_line,
                line,
                rule,
            };
            Ok(Some(refused_at(alloc, header, &mut lines, &mut steps, no)?))
        }
    }
}

fn refused_at<A: BufRead, B: BufRead>(
    alloc: Global,
    header: &Header,
    lines: &mut UnusedLines<A>,
    steps: &mut StepReader<B>,
    no: No,
) -> Result<Refused, ReplayFault> {
    let mut watched = Case::start(alloc, header);
    let refused = replay_to(header, &mut watched, lines, steps, no);
    drop(watched);
    refused
}

// Does the steps before the refused one, or all of them.
fn replay_to<A: BufRead, B: BufRead>(
    header: &Header,
    watched: &mut Case,
    lines: &mut UnusedLines<A>,
    steps: &mut StepReader<B>,
    no: No,
) -> Result<Refused, ReplayFault> {
    let (mut after, mut moment) = (header.first_event_line(), 0);
    for number in 2..=u64::MAX {
        let Some(step) = steps.next()? else {
            break;
        };
        if no.step_line == Some(number) {
            return refused_now(watched, lines, &step, no.rule, after);
        }
        if let Label::L(named) = &step.label {
            after = named.number.saturating_add(1);
        }
        moment = step.moment;
        apply_read(watched, lines, &step)?;
    }
    Ok(refused_after(watched, moment, no))
}

// Does a step. If it uses a line, that is read, and it isn't copied.
fn apply_read<A: BufRead>(
    watched: &mut Case,
    lines: &mut UnusedLines<A>,
    step: &Step,
) -> Result<(), ReplayFault> {
    match act_of(&step.label) {
        Act::Line(named) => match lines.remove(named.number)? {
            Some(line) => apply_taken(watched, step.moment, line, named.extras),
            None => Ok(()),
        },
        Act::Hidden(hidden) => apply_other(watched, step.moment, &hidden),
    }
}

// What is refused after the last step, which had this moment.
fn refused_after(watched: &Case, moment: u64, no: No) -> Refused {
    let (line, rule) = (no.line, no.rule);
    let late = if rule == Rule::ProcessLate {
        Late::at_once(watched.duties().waiting_since(line), moment)
    } else {
        late_after(watched, rule, moment)
    };
    let reason = late.map_or(Reason::Other, Reason::Late);
    Refused { line, rule, reason }
}

// What an endpoint or a segment that was never sent is late with after the last step.
fn late_after(watched: &Case, rule: Rule, moment: u64) -> Option<Late> {
    if let Some(debtor) = debtor_after(watched, rule, moment) {
        return Some(Late::new(debtor.debt, moment));
    }
    let slack = watched.world().header().slack?;
    Some(held_after(watched.duties(), slack, rule, moment)?.late)
}

// What is refused at a step. `after` is the line after the last one used.
fn refused_now<A: BufRead>(
    watched: &Case,
    lines: &mut UnusedLines<A>,
    step: &Step,
    rule: Rule,
    after: u64,
) -> Result<Refused, ReplayFault> {
    let line = line_of(step, after);
    let reason = match late_at(watched, lines, step, rule)? {
        Some(late) => Reason::Late(late),
        None => reason_of(watched.world(), step, rule),
    };
    Ok(Refused { line, rule, reason })
}

// The duty that is late at a step. None: the rule isn't about one.
fn late_at<A: BufRead>(
    watched: &Case,
    lines: &mut UnusedLines<A>,
    step: &Step,
    rule: Rule,
) -> Result<Option<Late>, ReplayFault> {
    let (duties, at) = (watched.duties(), step.moment);
    if rule == Rule::ProcessLate {
        return Ok(Late::at_once(duties.waiting_since(line_of(step, 0)), at));
    }
    if rule == Rule::SendLate {
        return Ok(Late::at_once(duties.built_since(sent_by(step)), at));
    }
    let touched = touched_at(watched.world(), lines, step)?;
    match touched.and_then(|id| debtor_at(watched, id, rule, at)) {
        Some(debtor) => Ok(Some(Late::new(debtor.debt, at))),
        None => Ok(late_with(watched, step, rule)),
    }
}

// What the segment is late with that a step sends.
fn late_with(watched: &Case, step: &Step, rule: Rule) -> Option<Late> {
    let slack = watched.world().header().slack?;
    Some(held_at(watched.duties(), slack, step, rule)?.late)
}

// The endpoint that a step touches, whose line is read.
fn touched_at<A: BufRead>(
    world: &World,
    lines: &mut UnusedLines<A>,
    step: &Step,
) -> Result<Option<EndpointId>, ReplayFault> {
    match act_of(&step.label) {
        Act::Line(named) => {
            let line = lines.remove(named.number)?;
            let taken = line.and_then(|line| line.taken(named.extras));
            Ok(taken.and_then(|taken| touched_by_line(world, step.moment, &taken)))
        }
        Act::Hidden(hidden) => Ok(touched_by_other(world, step.moment, &hidden)),
    }
}

// The line for `Refused`. `after` is the line after the last one used.
fn line_of(step: &Step, after: u64) -> u64 {
    match &step.label {
        Label::L(named) if named.number != 0 => named.number,
        Label::T { line, .. } | Label::K { line, .. } | Label::R { line, .. } => *line,
        Label::L(_) | Label::D { .. } | Label::M { .. } | Label::F { .. } => after,
    }
}

// What the rule compares at the step.
fn reason_of(world: &World, step: &Step, rule: Rule) -> Reason {
    let Label::M { host, plan } = &step.label else {
        return Reason::Other;
    };
    let Some(endpoint) = world.body(*host).endpoint_of(plan.lport, plan.rport) else {
        return Reason::Other;
    };
    match rule {
        Rule::Congestion => congestion_reason(endpoint, plan),
        Rule::OldData => old_data_reason(endpoint, plan),
        Rule::LineRange | Rule::LineAgain | Rule::ThreadOrder | Rule::MomentFalls => Reason::Other,
        Rule::MomentOff | Rule::Overdue | Rule::ThreadBusy | Rule::NoCall => Reason::Other,
        Rule::DoneTwice | Rule::AnswerDiffers | Rule::Socket | Rule::CallAnswer => Reason::Other,
        Rule::NoEndpoint | Rule::State | Rule::Iss | Rule::BytesDiffer => Reason::Other,
        Rule::NotMade | Rule::PayloadRange | Rule::AckField | Rule::Offered => Reason::Other,
        Rule::Size | Rule::NoEmission | Rule::CopyDiffers | Rule::Lifetime => Reason::Other,
        Rule::Inbox | Rule::NotPeer | Rule::Number | Rule::Unacceptable => Reason::Other,
        Rule::AckRange | Rule::QueueFull | Rule::Growth | Rule::Sample => Reason::Other,
        Rule::TimerOff | Rule::TimerEarly | Rule::Recovery | Rule::ScaleUnread => Reason::Other,
        Rule::Unplaced | Rule::Dropped | Rule::Discarded | Rule::ProcessLate => Reason::Other,
        Rule::SendLate | Rule::AckLate | Rule::ExpiryLate | Rule::ResendLate => Reason::Other,
        Rule::ProbeLate | Rule::StartLate | Rule::ResetLate | Rule::Resent => Reason::Other,
        Rule::ResentBeyond | Rule::AckExcess | Rule::SackUntrue => Reason::Other,
        Rule::Echo | Rule::ClockFalls => Reason::Other,
        Rule::SampleDue | Rule::AnswerLate => Reason::Other,
    }
}
