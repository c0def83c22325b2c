//! The levels, one after the other until one has a yes.

use crate::connections::Connections;
use crate::levels::{Answer, Level, is_stricter};
use crate::one_level::{Facts, JudgeFault, Question, Tried, try_level};
use crate::sentences::{answer, lines_kept};
use crate::version_five::{Slack, header_of, strictest_level};
use case_forms::Judged;
use std::alloc::{AllocError, Global};
use verdict::Verdict;
use witness_search::{CaseLines, CaseText, SearchOptions, Ways};

/// How a trace is judged.
#[derive(Clone, Copy)]
pub struct Settings {
    /// The level that is tried first.
    pub from: Judged,
    /// How late a host may be with its duties.
    pub slack: Slack,
    /// What the search at each level is asked for.
    pub search: SearchOptions,
}

/// The answer for a trace.
#[derive(Drop)]
pub struct Judgement<'t> {
    /// A line for each level that was tried, then what a yes means, and what each level refused.
    pub text: String,
    /// Which lines of the trace the case has, as a line.
    pub kept: String,
    /// The strictest of the levels tried that has a yes. None: no level has one.
    pub level: Option<Judged>,
    /// The levels that were tried, the strictest first.
    pub levels: Vec<Level>,
    /// The last of them, and the answer at it.
    pub last: Judged,
    pub answer: Answer,
    /// The strictest level at which this trace can be judged.
    strictest: Judged,
    /// How late a host may be with its duties, in microseconds. None: they weren't judged.
    pub slack: Option<u64>,
    /// Whether only host 0 was recorded.
    pub is_half: bool,
    /// The connections of the case.
    pub connections: Connections,
    /// How the hosts of the case do what the RFCs leave open.
    pub ways: Ways,
    /// The event lines of the case.
    pub lines: CaseLines,
    /// The case of the last level that was tried: the trace in version 5 or 6, and its witness.
    pub case: CaseText<'t>,
}

impl Judgement<'_> {
    /// Whether this level has a yes, or a stricter one that was tried. If the trace can't be judged at this level, the
    /// strictest one counts.
    pub fn meets(&self, least: Judged) -> bool {
        match self.level {
            Some(level) => { !is_stricter(least, level) || !is_stricter(self.strictest, level) }
            None => false,
        }
    }
}

/// Judges a trace of any version, from a level on, and tries no level after the first yes, nor one at which the trace
/// can't be judged. If a level is a no by a duty, it is tried without duties, too, which gives no level.
pub fn judge(alloc: Global, text: &[u8], settings: Settings) -> Result<Judgement<'_>, JudgeFault> {
    let Settings {
        from,
        slack,
        search,
    } = settings;
    let header = header_of(alloc, text)?;
    let question = Question {
        text,
        header: &header,
        slack: slack.under(&header),
        search,
    };
    let mut levels = Vec::new(alloc);
    for judged in [Judged::Full, Judged::Recovery] {
        if is_stricter(judged, from) || is_stricter(judged, strictest_level(&header)) {
            continue;
        }
        let tried = try_level(alloc, question, judged)?;
        let facts = tried.facts;
        if facts.refused.is_none() {
            return conclude(alloc, question, levels, tried);
        }
        drop(tried);
        add_level(alloc, question, &mut levels, judged, facts)?;
    }
    let tried = try_level(alloc, question, Judged::NoControl)?;
    conclude(alloc, question, levels, tried)
}

// Adds a level at which this was found to the stricter ones.
fn add_level(
    alloc: Global,
    question: Question<'_, '_>,
    levels: &mut Vec<Level>,
    judged: Judged,
    facts: Facts,
) -> Result<(), JudgeFault> {
    let level = Level::new(alloc, question, levels.as_slice(), judged, facts)?;
    match levels.push(level) {
        Ok(()) => Ok(()),
        Err(e) => Err(AllocError::from(e).into()),
    }
}

// The answer after the last level that is tried, with the levels before it.
fn conclude<'t>(
    alloc: Global,
    question: Question<'_, '_>,
    mut levels: Vec<Level>,
    tried: Tried<'t>,
) -> Result<Judgement<'t>, JudgeFault> {
    let (judged, facts) = (tried.level, tried.facts);
    add_level(alloc, question, &mut levels, judged, facts)?;
    let text = answer(alloc, question, levels.as_slice(), &tried)?;
    let kept = lines_kept(alloc, facts.lines)?;
    let level = match facts.answer.verdict {
        Verdict::Yes { .. } => Some(judged),
        Verdict::No { .. } => None,
    };
    let case = tried.case;
    Ok(Judgement {
        text,
        kept,
        level,
        levels,
        last: judged,
        answer: facts.answer,
        strictest: strictest_level(question.header),
        slack: question.slack,
        is_half: question.header.version.is_half(),
        connections: facts.connections,
        ways: tried.ways,
        lines: facts.lines,
        case,
    })
}
