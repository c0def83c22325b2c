//! The levels that were tried, and whether duties alone refuse one.

use crate::one_level::{Facts, JudgeFault, Question, try_level};
use case_forms::Judged;
use replayed::Refused;
use std::alloc::Global;
use verdict::{Rule, Verdict};

/// A verdict, and which line of the trace it refuses.
#[derive(Clone, Copy)]
pub struct Answer {
    pub verdict: Verdict,
    /// The number of the refused line in the trace as it was given, without added lines. None: the verdict is yes, or
    /// it refuses an added line or what comes after the last one.
    pub input_line: Option<u64>,
}

/// A level that was tried, once its case isn't needed any more.
#[derive(Clone, Copy)]
pub struct Level {
    pub judged: Judged,
    pub answer: Answer,
    /// What the verdict refuses. None: it is yes.
    pub refused: Option<Refused>,
    /// The answer at this level if duties aren't judged. None: that wasn't tried.
    pub without_duties: Option<Answer>,
}

impl Level {
    /// A level at which this was found, after these stricter ones. If a duty refuses it, it is tried without duties,
    /// too. That isn't done if a stricter level has a yes without duties; then this one also has.
    pub(crate) fn new(
        alloc: Global,
        question: Question<'_, '_>,
        stricter: &[Level],
        judged: Judged,
        facts: Facts,
    ) -> Result<Level, JudgeFault> {
        let is_asked = match facts.refused {
            Some(refused) => is_of_duties(refused.rule) && !is_yes_without_duties(stricter),
            None => false,
        };
        let without_duties = if is_asked {
            let tried = try_level(alloc, question.without_duties(), judged)?;
            Some(tried.facts.answer)
        } else {
            None
        };
        Ok(Level {
            judged,
            answer: facts.answer,
            refused: facts.refused,
            without_duties,
        })
    }
}

/// Whether a level is stricter than another.
pub fn is_stricter(level: Judged, other: Judged) -> bool {
    match level {
        Judged::Full => !matches!(other, Judged::Full),
        Judged::Recovery => matches!(other, Judged::NoControl),
        Judged::NoControl => false,
    }
}

/// Whether one of these levels is known to have a yes if duties aren't judged.
pub(crate) fn is_yes_without_duties(levels: &[Level]) -> bool {
    levels.iter().any(|level| match level.without_duties {
        Some(answer) => matches!(answer.verdict, Verdict::Yes { .. }),
        None => false,
    })
}

// Whether a rule is one that versions 5 and 6 add, and that `slack any` leaves out.
fn is_of_duties(rule: Rule) -> bool {
    match rule {
        Rule::LineRange | Rule::LineAgain | Rule::ThreadOrder | Rule::MomentFalls => false,
        Rule::MomentOff | Rule::Overdue | Rule::ThreadBusy | Rule::NoCall => false,
        Rule::DoneTwice | Rule::AnswerDiffers | Rule::Socket | Rule::CallAnswer => false,
        Rule::NoEndpoint | Rule::State | Rule::Iss | Rule::BytesDiffer => false,
        Rule::NotMade | Rule::PayloadRange | Rule::AckField | Rule::OldData => false,
        Rule::Offered | Rule::Congestion | Rule::Size | Rule::NoEmission => false,
        Rule::CopyDiffers | Rule::Lifetime | Rule::Inbox | Rule::NotPeer => false,
        Rule::Number | Rule::Unacceptable | Rule::AckRange | Rule::QueueFull => false,
        Rule::Growth | Rule::Sample | Rule::TimerOff | Rule::TimerEarly => false,
        Rule::Recovery | Rule::ScaleUnread | Rule::Unplaced => false,
        Rule::SackUntrue | Rule::Echo | Rule::ClockFalls => false,
        Rule::Dropped | Rule::Discarded | Rule::ProcessLate | Rule::SendLate => true,
        Rule::AckLate | Rule::ExpiryLate | Rule::ResendLate | Rule::ProbeLate => true,
        Rule::StartLate | Rule::ResetLate | Rule::Resent | Rule::ResentBeyond => true,
        Rule::AckExcess | Rule::SampleDue | Rule::AnswerLate => true,
    }
}
