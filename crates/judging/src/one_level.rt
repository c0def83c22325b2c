//! A trace at one level.

use crate::connections::{Connections, Explained, connections_of};
use crate::levels::Answer;
use crate::version_five::{events_of, header_at, header_text};
use case_forms::{Header, Judged, OutOfMemory};
use checker::{CaseFault, check_streams};
use line_fields::{FaultKind, TextFault};
use replayed::{Refused, ReplayFault, refused_by};
use std::alloc::{AllocError, Global};
use thiserror::Error;
use trace_reader::{Counted, read_trace};
use witness_search::{
    CaseLines, CaseText, Ending, Found, SearchOptions, Ways, case_lines, find_witness,
};

/// Why a trace can't be judged.
#[derive(Clone, Copy, Debug, Error)]
pub enum JudgeFault {
    /// The first fault of the trace.
    #[error("the trace: {0}")]
    Trace(TextFault),
    /// The first fault of the witness that was found: it has too many lines.
    #[error("the witness: {0}")]
    Witness(TextFault),
    #[error("{0}")]
    Replay(#[from] ReplayFault),
    /// The case that was found isn't one of this trace, which is a fault of the search.
    #[error("the case that was found doesn't have every line of the trace")]
    Altered,
}

impl From<AllocError> for JudgeFault {
    fn from(e: AllocError) -> JudgeFault {
        JudgeFault::Replay(ReplayFault::from(e))
    }
}

impl From<TextFault> for JudgeFault {
    fn from(fault: TextFault) -> JudgeFault {
        match fault.kind {
            FaultKind::OutOfMemory => JudgeFault::Replay(ReplayFault::OutOfMemory),
            _ => JudgeFault::Trace(fault),
        }
    }
}

impl From<CaseFault> for JudgeFault {
    fn from(fault: CaseFault) -> JudgeFault {
        match fault {
            CaseFault::Trace(fault) => JudgeFault::from(fault),
            CaseFault::Witness(fault) => JudgeFault::Witness(fault),
            // The texts are in memory.
            CaseFault::Read | CaseFault::OutOfMemory => JudgeFault::from(AllocError),
        }
    }
}

/// A trace that is judged, and how.
#[derive(Clone, Copy)]
pub(crate) struct Question<'q, 't> {
    pub text: &'t [u8],
    /// The header of the trace.
    pub header: &'q Header,
    /// How late a host may be with its duties, in microseconds. None: they aren't judged.
    pub slack: Option<u64>,
    /// What the search at each level is asked for.
    pub search: SearchOptions,
}

impl Question<'_, '_> {
    /// The same without duties.
    pub(crate) fn without_duties(self) -> Self {
        Question {
            slack: None,
            ..self
        }
    }
}

/// The case that was found at a level.
#[derive(Drop)]
pub(crate) struct Tried<'t> {
    pub level: Judged,
    /// The trace in version 5 or 6, and the witness that was found.
    pub case: CaseText<'t>,
    /// How the search ended.
    pub ending: Ending,
    /// How the hosts do what the RFCs leave open.
    pub ways: Ways,
    pub facts: Facts,
}

/// What is known of a case that was found.
#[derive(Clone, Copy)]
pub(crate) struct Facts {
    pub answer: Answer,
    /// What the verdict refuses. None: it is yes.
    pub refused: Option<Refused>,
    pub lines: CaseLines,
    pub connections: Connections,
}

/// Looks for a witness of a trace at a level, and judges it.
pub(crate) fn try_level<'t>(
    alloc: Global,
    question: Question<'_, 't>,
    level: Judged,
) -> Result<Tried<'t>, JudgeFault> {
    let text = question.text;
    let first = question.header.first_event_line();
    let events = events_of(text, first);
    let header = header_at(question.header, level, question.slack);
    let (found, connections) = search(alloc, text, &header, question.search)?;
    let (ending, ways) = (found.ending, found.ways);
    let case = case_of(alloc, &header, events, found)?;
    let facts = facts_of(alloc, &header, &case, events, first, connections)?;
    Ok(Tried {
        level,
        case,
        ending,
        ways,
        facts,
    })
}

// What is found for a trace under this header, and the connections of the case. The trace is freed before that is
// printed and judged.
fn search(
    alloc: Global,
    text: &[u8],
    header: &Header,
    options: SearchOptions,
) -> Result<(Found, Connections), JudgeFault> {
    let trace = read_trace(alloc, text)?;
    let lines = trace.lines.as_slice();
    let found = find_witness(alloc, header, lines, options)?;
    let explained = Explained {
        header,
        lines,
        found: &found,
    };
    let connections = connections_of(alloc, explained);
    drop(trace);
    Ok((found, connections?))
}

// The text of the case that was found for a trace with these event lines. The steps are freed once they are printed.
fn case_of<'t>(
    alloc: Global,
    header: &Header,
    events: &'t [u8],
    mut found: Found,
) -> Result<CaseText<'t>, OutOfMemory> {
    let header = header_text(alloc, header)?;
    CaseText::new(alloc, header, events, &mut found)
}

// The verdict on a case that was found for a trace with these event lines, what it refuses, and what the case has.
// `first` is the number of the first event line in the trace as it was given.
fn facts_of(
    alloc: Global,
    header: &Header,
    case: &CaseText<'_>,
    events: &[u8],
    first: u64,
    connections: Connections,
) -> Result<Facts, JudgeFault> {
    let (trace, witness) = (Counted::new(case.trace()), Counted::new(case.witness()));
    let (verdict, _, _) = check_streams(alloc, trace, witness);
    let verdict = verdict?;
    let (events_left, witness) = (Counted::new(case.events()), Counted::new(case.witness()));
    let refused = refused_by(alloc, header, events_left, witness, verdict)?;
    let lines = case_lines(events, case).ok_or(JudgeFault::Altered)?;
    let place = match refused {
        Some(refused) => place_of(header, case, lines, refused.line),
        None => None,
    };
    let input_line = place.map(|place| first.saturating_add(place));
    Ok(Facts {
        answer: Answer {
            verdict,
            input_line,
        },
        refused,
        lines,
        connections,
    })
}

// The place among the trace's event lines of the line of this number in a case with this header. None: the line was
// added, or the case has no such event line.
fn place_of(header: &Header, case: &CaseText<'_>, lines: CaseLines, line: u64) -> Option<u64> {
    let place = line.checked_sub(header.first_event_line())?;
    let place = case.place_in_trace(usize::try_from(place).ok()?)? as u64;
    (place < lines.kept).then_some(place)
}
