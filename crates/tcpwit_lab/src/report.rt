//! An answer as one JSON object, for programs. docs/reference/tcpwit_lab.schema.json describes its members.

use case_forms::OutOfMemory;
use checker::CaseFault;
use judging::{Answer, Connections, Judgement, Level, level_name, sentence};
use line_fields::TextFault;
use remarks::Remarks;
use serde::Serialize;
use std::alloc::{AllocError, Global};
use verdict::Verdict;
use why::Explanation;
use witness_search::Unusual;

/// The answer for a case, or why a text is refused.
#[derive(Drop, Serialize)]
pub(crate) struct Report<'r> {
    /// The status with which the program ends.
    pub status: u8,
    #[serde(flatten)]
    pub outcome: Outcome,
    /// The lines that are printed without `--json`.
    pub said: Vec<&'r str>,
}

/// The answer for a trace.
#[derive(Drop, Serialize)]
pub(crate) struct JudgedReport<'r> {
    status: u8,
    /// The last level that was tried, and the answer at it.
    level: &'static str,
    #[serde(flatten)]
    outcome: Outcome,
    hosts: u8,
    /// In microseconds. None: duties aren't judged.
    #[serde(skip_serializing_if = "Option::is_none")]
    slack: Option<u64>,
    /// None: no level has a yes.
    #[serde(skip_serializing_if = "Option::is_none")]
    connections: Option<ConnectionMembers>,
    /// The ways of the hosts that the yes needs. None: it needs none, or there is no yes.
    #[serde(skip_serializing_if = "Option::is_none")]
    ways: Option<Vec<WayMembers>>,
    /// How many event lines of the trace the case has, and how many the search added.
    kept: u64,
    added: u64,
    levels: Vec<LevelMembers>,
    said: Vec<&'r str>,
}

/// The remarks on a case with a verdict.
#[derive(Drop, Serialize)]
pub(crate) struct RemarkedReport<'r> {
    status: u8,
    #[serde(flatten)]
    outcome: Outcome,
    remarks: Vec<RemarkMembers<'r>>,
    said: Vec<&'r str>,
}

/// A verdict, or why there is none.
#[derive(Clone, Copy, Serialize)]
pub(crate) struct Outcome {
    /// The first words of the line that `tcpwit check` prints: `yes`, `no`, `bad trace` or `bad witness`.
    answer: &'static str,
    #[serde(skip_serializing_if = "Option::is_none")]
    lines: Option<u64>,
    #[serde(skip_serializing_if = "Option::is_none")]
    hidden: Option<u64>,
    #[serde(skip_serializing_if = "Option::is_none")]
    witness_line: Option<u64>,
    #[serde(skip_serializing_if = "Option::is_none")]
    trace_line: Option<u64>,
    /// `judge`: the refused line of the trace as it was given. None: it was added, or comes after the last one.
    #[serde(skip_serializing_if = "Option::is_none")]
    input_line: Option<u64>,
    #[serde(skip_serializing_if = "Option::is_none")]
    rule: Option<&'static str>,
    #[serde(skip_serializing_if = "Option::is_none")]
    fault: Option<FaultMembers>,
}

// The first fault of a text.
#[derive(Clone, Copy, Serialize)]
struct FaultMembers {
    kind: &'static str,
    line: u64,
    /// The columns, in bytes from 0.
    start: usize,
    stop: usize,
}

#[derive(Clone, Copy, Serialize)]
struct ConnectionMembers {
    begun: u64,
    established: u64,
}

#[derive(Clone, Copy, Serialize)]
struct WayMembers {
    host: u8,
    way: &'static str,
    does: &'static str,
}

#[derive(Drop, Serialize)]
struct LevelMembers {
    level: &'static str,
    #[serde(flatten)]
    outcome: Outcome,
    /// What the level refused.
    #[serde(skip_serializing_if = "Option::is_none")]
    sentence: Option<String>,
    #[serde(skip_serializing_if = "Option::is_none")]
    without_duties: Option<Outcome>,
}

#[derive(Clone, Copy, Serialize)]
struct RemarkMembers<'r> {
    /// The lines of the trace that it is about. None: it is about the end.
    #[serde(skip_serializing_if = "Option::is_none")]
    first: Option<u64>,
    #[serde(skip_serializing_if = "Option::is_none")]
    last: Option<u64>,
    text: &'r str,
}

impl Outcome {
    // No more than an answer.
    fn bare(answer: &'static str) -> Outcome {
        Outcome {
            answer,
            lines: None,
            hidden: None,
            witness_line: None,
            trace_line: None,
            input_line: None,
            rule: None,
            fault: None,
        }
    }

    /// A verdict.
    pub(crate) fn from_verdict(verdict: Verdict) -> Outcome {
        match verdict {
            Verdict::Yes { lines, hidden } => Outcome {
                lines: Some(lines),
                hidden: Some(hidden),
                ..Outcome::bare("yes")
            },
            Verdict::No {
                witness_line,
                trace_line,
                rule,
            } => Outcome {
                witness_line: Some(witness_line),
                trace_line: Some(trace_line),
                rule: Some(rule.name()),
                ..Outcome::bare("no")
            },
        }
    }

    /// An answer of `judge`.
    fn from_answer(answer: Answer) -> Outcome {
        Outcome {
            input_line: answer.input_line,
            ..Outcome::from_verdict(answer.verdict)
        }
    }

    /// The first fault of a text, for which this is the answer.
    pub(crate) fn from_fault(answer: &'static str, fault: &TextFault) -> Outcome {
        let span = fault.span;
        Outcome {
            fault: Some(FaultMembers {
                kind: fault.kind.name(),
                line: span.line,
                start: span.start,
                stop: span.stop,
            }),
            ..Outcome::bare(answer)
        }
    }

    fn from_check(checked: &Result<Verdict, CaseFault>) -> Outcome {
        match checked {
            Ok(verdict) => Outcome::from_verdict(*verdict),
            Err(CaseFault::Trace(fault)) => Outcome::from_fault("bad trace", fault),
            Err(CaseFault::Witness(fault)) => Outcome::from_fault("bad witness", fault),
            Err(CaseFault::Read | CaseFault::OutOfMemory) => Outcome::bare("bad memory"),
        }
    }
}

impl<'r> Report<'r> {
    /// The explanation of a verdict.
    pub(crate) fn from_explanation(
        alloc: Global,
        said: &'r Explanation,
    ) -> Result<Report<'r>, OutOfMemory> {
        Ok(Report {
            status: said.status,
            outcome: Outcome::from_check(&said.checked),
            said: lines_of(alloc, said.text.as_str())?,
        })
    }
}

impl<'r> JudgedReport<'r> {
    /// A judgement, whose case is written to a file or not.
    pub(crate) fn new(
        alloc: Global,
        status: u8,
        judgement: &'r Judgement<'_>,
        is_written: bool,
    ) -> Result<JudgedReport<'r>, OutOfMemory> {
        let mut levels = Vec::new(alloc);
        for level in &judgement.levels {
            levels.push(LevelMembers::new(alloc, judgement.slack, level)?)?;
        }
        let mut said = lines_of(alloc, judgement.text.as_str())?;
        if is_written {
            said.push(judgement.kept.as_str().trim_end())?;
        }
        let Connections { begun, established } = judgement.connections;
        let connections = ConnectionMembers { begun, established };
        Ok(JudgedReport {
            status,
            level: level_name(judgement.last),
            outcome: Outcome::from_answer(judgement.answer),
            hosts: if judgement.is_half { 1 } else { 2 },
            slack: judgement.slack,
            connections: judgement.level.map(|_| connections),
            ways: ways_of(alloc, judgement)?,
            kept: judgement.lines.kept,
            added: judgement.lines.added,
            levels,
            said,
        })
    }
}

impl<'r> RemarkedReport<'r> {
    /// The remarks on a case with this verdict.
    pub(crate) fn new(
        alloc: Global,
        status: u8,
        verdict: Verdict,
        remarked: &'r Remarks,
    ) -> Result<RemarkedReport<'r>, OutOfMemory> {
        let said = lines_of(alloc, remarked.text.as_str())?;
        let mut remarks = Vec::new(alloc);
        for (text, place) in said.iter().zip(remarked.places.iter()) {
            remarks.push(RemarkMembers {
                first: place.map(|lines| lines.0),
                last: place.map(|lines| lines.1),
                text: *text,
            })?;
        }
        Ok(RemarkedReport {
            status,
            outcome: Outcome::from_verdict(verdict),
            remarks,
            said,
        })
    }
}

impl LevelMembers {
    fn new(alloc: Global, slack: Option<u64>, level: &Level) -> Result<LevelMembers, OutOfMemory> {
        let sentence = match level.refused {
            Some(_) => Some(sentence(alloc, slack, level)?),
            None => None,
        };
        Ok(LevelMembers {
            level: level_name(level.judged),
            outcome: Outcome::from_answer(level.answer),
            sentence,
            without_duties: level.without_duties.map(Outcome::from_answer),
        })
    }
}

// The ways of the hosts that a yes needs.
fn ways_of(
    alloc: Global,
    judgement: &Judgement<'_>,
) -> Result<Option<Vec<WayMembers>>, OutOfMemory> {
    let mut ways = Vec::new(alloc);
    if judgement.level.is_some() {
        for unusual in judgement.ways.unusual() {
            if let Some(Unusual { host, words }) = unusual {
                let (host, way, does) = (host as u8, words.name, words.does);
                ways.push(WayMembers { host, way, does })?;
            }
        }
    }
    Ok((!ways.is_empty()).then_some(ways))
}

/// An object as a line.
pub(crate) fn line_of<T: Serialize>(alloc: Global, object: &T) -> Result<Vec<u8>, OutOfMemory> {
    match serde_json::to_vec(alloc, object) {
        Ok(mut line) => {
            line.push(b'\n')?;
            Ok(line)
        }
        // The keys are words and no float is written, so only memory can fail.
        Err(_) => Err(AllocError),
    }
}

/// The lines of a text, without their ends.
pub(crate) fn lines_of(alloc: Global, text: &str) -> Result<Vec<&str>, OutOfMemory> {
    let mut lines = Vec::new(alloc);
    for line in text.lines() {
        lines.push(line)?;
    }
    Ok(lines)
}
