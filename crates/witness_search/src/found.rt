//! A trace becomes a case.

use crate::added_lines::{AddedLines, split_lines};
use crate::attempt::End;
use crate::case_text::{CaseText, join_case};
use crate::findings::Findings;
use crate::later_lines::LaterLines;
use crate::pass::Sought;
use crate::retries::Retries;
use crate::search_options::SearchOptions;
use crate::ways::Ways;
use case_forms::{Header, Line, OutOfMemory, Steps, Witness};
use line_fields::TextFault;
use std::alloc::Global;
use std::mem::replace;
use trace_reader::read_trace;

/// How a search ended.
#[derive(Clone, Copy)]
pub enum Ending {
    /// All lines are explained.
    Whole,
    /// No other choice explains this line of the trace. 0: each is explained, but a duty is late at the end.
    Exhausted { line: u64 },
    /// This line of the trace isn't explained, and the budget is spent. 0: as in `Exhausted`.
    BudgetSpent { line: u64 },
    /// Explaining this line of the trace would take more steps than a case can have.
    TooManySteps { line: u64 },
}

/// A witness that was found for a trace, and how far it explains it.
#[derive(Drop)]
pub struct Found {
    pub witness: Witness,
    /// The lines that are added to the trace, for the expiries that it doesn't show and that were needed.
    pub added: AddedLines,
    pub ending: Ending,
    /// How many times the search went back.
    pub tried: u64,
    /// How the hosts do what the RFCs leave open.
    pub ways: Ways,
}

/// A case that was found, and how far it explains its trace.
#[derive(Drop)]
pub struct FoundCase<'t> {
    pub case: CaseText<'t>,
    pub ending: Ending,
    /// How many times the search went back.
    pub tried: u64,
    /// How the hosts do what the RFCs leave open.
    pub ways: Ways,
}

/// The text of a case: the trace, with added lines for the expiries that it doesn't show and that were needed, and a
/// witness. If a line can't be explained, the witness ends with a step that is refused there, so that `check` names
/// the rule. If explaining all lines takes more than 40,000,000 steps, it ends there. The error is the trace's first
/// fault; its kind is `OutOfMemory` if memory ran out.
pub fn find(alloc: Global, text: &[u8]) -> Result<Vec<u8>, TextFault> {
    let search = Searched::new(alloc, text, SearchOptions::usual())?;
    Ok(join_case(alloc, search.header, search.events, &search.found)?)
}

/// Like `find`, with these options; it also returns how the search ended.
pub fn find_within(
    alloc: Global,
    text: &[u8],
    options: SearchOptions,
) -> Result<FoundCase<'_>, TextFault> {
    let mut search = Searched::new(alloc, text, options)?;
    Ok(case_of(alloc, &mut search)?)
}

// What was found for the text of a trace.
#[derive(Drop)]
struct Searched<'t> {
    /// The lines of the header, and the event lines.
    header: &'t [u8],
    events: &'t [u8],
    found: Found,
}

impl<'t> Searched<'t> {
    // Searches with these options. The trace isn't kept.
    fn new(
        alloc: Global,
        text: &'t [u8],
        options: SearchOptions,
    ) -> Result<Searched<'t>, TextFault> {
        let trace = read_trace(alloc, text)?;
        let above = trace.header.first_event_line().saturating_sub(1) as usize;
        let found = find_witness(alloc, &trace.header, trace.lines.as_slice(), options);
        drop(trace);
        let (header, events) = split_lines(text, above);
        Ok(Searched {
            header,
            events,
            found: found?,
        })
    }
}

// The case that was found.
fn case_of<'t>(alloc: Global, search: &mut Searched<'t>) -> Result<FoundCase<'t>, OutOfMemory> {
    let header = Vec::from_slice(alloc, search.header)?;
    let found = &mut search.found;
    Ok(FoundCase {
        case: CaseText::new(alloc, header, search.events, found)?,
        ending: found.ending,
        tried: found.tried,
        ways: found.ways,
    })
}

/// A witness for a trace with this header and these lines, whose own numbers aren't read.
pub fn find_witness(
    alloc: Global,
    header: &Header,
    lines: &[Line],
    options: SearchOptions,
) -> Result<Found, OutOfMemory> {
    let later = LaterLines::new(alloc, lines)?;
    let sought = Sought {
        alloc,
        header,
        lines,
        later: &later,
        ways: options.ways,
        expiries: options.expiries,
        forgives: false,
    };
    let mut retries = Retries::new(sought, options.budget, true);
    let found = find_by(&mut retries, options.ways);
    drop(retries);
    drop(later);
    found
}

// Runs a search. If it tried other ways than these in vain, one without them follows.
fn find_by(retries: &mut Retries<'_>, ways: Ways) -> Result<Found, OutOfMemory> {
    retries.run()?;
    if !retries.fails_with_other_ways(ways) {
        return found_by(retries);
    }
    let mut usual = retries.without_other_ways(ways);
    let found = better_of(retries, &mut usual);
    drop(usual);
    found
}

// Runs the second search. The result is what the one found that explains more.
fn better_of(retries: &mut Retries<'_>, usual: &mut Retries<'_>) -> Result<Found, OutOfMemory> {
    usual.run()?;
    if retries.explains_more(usual) {
        found_by(retries)
    } else {
        found_by(usual)
    }
}

// What a search found.
fn found_by(retries: &mut Retries<'_>) -> Result<Found, OutOfMemory> {
    let sought = retries.sought;
    let findings = &mut retries.best.findings;
    end_with_forgiven(sought.alloc, findings)?;
    let mut added = AddedLines::new(sought.alloc);
    added.print(sought.lines, findings.added.as_slice())?;
    let witness = Witness {
        version: sought.header.version,
        steps: replace(&mut findings.steps, Steps::new(sought.alloc)),
    };
    Ok(Found {
        witness,
        added,
        ending: ending_of(retries),
        tried: retries.tried,
        ways: sought.ways,
    })
}

// If a step was done that a duty refuses, the witness ends with it.
fn end_with_forgiven(alloc: Global, findings: &mut Findings) -> Result<(), OutOfMemory> {
    let Some(forgiven) = findings.forgiven else {
        return Ok(());
    };
    let mut steps = Steps::new(alloc);
    for step in findings
        .steps
        .as_slice()
        .iter()
        .take(forgiven.before.saturating_add(1))
    {
        steps.push(step.copy()?)?;
    }
    findings.steps = steps;
    findings.added.truncate(forgiven.added);
    Ok(())
}

// How a search ended.
fn ending_of(retries: &Retries<'_>) -> Ending {
    let first = retries.sought.header.first_event_line();
    let count = retries.sought.lines.len();
    let line_at = |place: usize| {
        if place < count {
            first.saturating_add(place as u64)
        } else {
            0
        }
    };
    if let Some(forgiven) = retries.best.findings.forgiven {
        let line = line_at(forgiven.place);
        return Ending::Exhausted { line };
    }
    match retries.best.end {
        End::Whole => Ending::Whole,
        End::TooManySteps { place } => {
            let line = line_at(place);
            Ending::TooManySteps { line }
        }
        End::Refused(failure) => {
            let line = line_at(failure.place);
            if retries.is_spent() {
                Ending::BudgetSpent { line }
            } else {
                Ending::Exhausted { line }
            }
        }
    }
}
