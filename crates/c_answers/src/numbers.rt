//! The result whose numbers an answer has.

ghost use Rattle.std.specs.Prelude.{◌≡◌, ◌<◌, ◌⊎◌, ℕ, IfSome, None, Result, Some};
ghost use Rattle.verdict.specs.declared.rule.Rule.{Rule};
ghost use Rattle.verdict.specs.declared.report.Verdict.{Verdict};
ghost use Rattle.line_fields.specs.declared.fault.FaultKind.{FaultKind};
ghost use Rattle.line_fields.specs.declared.fault.TextFault.{TextFault};
ghost use Rattle.checker.specs.declared.case.CaseFault.{CaseFault};
ghost use Rattle.spec_tcp_laws.specs.Ascending.{rule_number};
ghost use Rattle.c_answers.specs.Answers.{answer_of, fault_number, of_fault};

use crate::answer::Answer;
use checker::CaseFault;
use line_fields::{FaultKind, Span, TextFault};
use segment::SegFault;
use verdict::{Rule, Verdict};

/// The result whose numbers these are. None: they are those of no result.
pub(crate) fn result_of(answer: &Answer) -> Option<Result<Verdict, CaseFault>>
    ensures found { (r : Result Verdict CaseFault) → answer.now ≡ answer_of r → result ≡ Some r }
    ensures only { IfSome result (λ r. answer.now ≡ answer_of r) }
{
    let result = result_with(answer)?;
    if Answer::from_result(result) == *answer {
        Some(result)
    } else {
        None
    }
}

// The result that has the numbers of its kind from here. None: no result has them.
fn result_with(answer: &Answer) -> Option<Result<Verdict, CaseFault>>
    ensures { (r : Result Verdict CaseFault) → answer.now ≡ answer_of r → result ≡ Some r }
{
    match answer.kind {
        0 => Some(Ok(Verdict::Yes {
            lines: answer.lines,
            hidden: answer.hidden,
        })),
        1 => Some(Ok(Verdict::No {
            witness_line: answer.witness_line,
            trace_line: answer.trace_line,
            rule: rule_numbered(answer.rule)?,
        })),
        2 => Some(Err(CaseFault::Trace(fault_of(answer)?))),
        3 => Some(Err(CaseFault::Witness(fault_of(answer)?))),
        4 => Some(Err(CaseFault::OutOfMemory)),
        5 => Some(Err(CaseFault::Read)),
        _ => None,
    }
}

// The fault whose numbers these are. None: they are those of no fault.
fn fault_of(answer: &Answer) -> Option<TextFault>
    ensures { (f : TextFault) → answer.now.fault ≡ fault_number f.kind → answer.now.fault_line ≡ f.span.line
        → answer.now.fault_start ≡ f.span.start → answer.now.fault_stop ≡ f.span.stop → result ≡ Some f }
{
    Some(TextFault {
        kind: fault_numbered(answer.fault)?,
        span: Span {
            line: answer.fault_line,
            start: answer.fault_start as usize,
            stop: answer.fault_stop as usize,
        },
    })
}

/// The rule with this number. None: no rule has it.
pub(crate) fn rule_numbered(number: u32) -> Option<Rule>
    ensures found { (rule : Rule) → number ≡ rule_number rule → result ≡ Some rule }
    ensures none { (number ≡ 0) ⊎ (57 < number) → result ≡ None }
{
    Some(match number {
        1 => Rule::LineRange,
        2 => Rule::LineAgain,
        3 => Rule::ThreadOrder,
        4 => Rule::MomentFalls,
        5 => Rule::MomentOff,
        6 => Rule::Overdue,
        7 => Rule::ThreadBusy,
        8 => Rule::NoCall,
        9 => Rule::DoneTwice,
        10 => Rule::AnswerDiffers,
        11 => Rule::Socket,
        12 => Rule::CallAnswer,
        13 => Rule::NoEndpoint,
        14 => Rule::State,
        15 => Rule::Iss,
        16 => Rule::BytesDiffer,
        17 => Rule::NotMade,
        18 => Rule::PayloadRange,
        19 => Rule::AckField,
        20 => Rule::OldData,
        21 => Rule::Offered,
        22 => Rule::Congestion,
        23 => Rule::Size,
        24 => Rule::NoEmission,
        25 => Rule::CopyDiffers,
        26 => Rule::Lifetime,
        27 => Rule::Inbox,
        28 => Rule::NotPeer,
        29 => Rule::Number,
        30 => Rule::Unacceptable,
        31 => Rule::AckRange,
        32 => Rule::QueueFull,
        33 => Rule::Growth,
        34 => Rule::Sample,
        35 => Rule::TimerOff,
        36 => Rule::TimerEarly,
        37 => Rule::Recovery,
        38 => Rule::ScaleUnread,
        39 => Rule::Unplaced,
        40 => Rule::Dropped,
        41 => Rule::Discarded,
        42 => Rule::ProcessLate,
        43 => Rule::SendLate,
        44 => Rule::AckLate,
        45 => Rule::ExpiryLate,
        46 => Rule::ResendLate,
        47 => Rule::ProbeLate,
        48 => Rule::StartLate,
        49 => Rule::ResetLate,
        50 => Rule::Resent,
        51 => Rule::ResentBeyond,
        52 => Rule::AckExcess,
        53 => Rule::SackUntrue,
        54 => Rule::Echo,
        55 => Rule::ClockFalls,
        56 => Rule::SampleDue,
        57 => Rule::AnswerLate,
        _ => return None,
    })
}

// The kind of fault with this number. None: no kind has it.
fn fault_numbered(number: u32) -> Option<FaultKind>
    ensures { (kind : FaultKind) → number ≡ fault_number kind → result ≡ Some kind }
{
    Some(match number {
        1 => FaultKind::Header,
        2 => FaultKind::Field,
        3 => FaultKind::Number,
        4 => FaultKind::Hex,
        5 => FaultKind::Segment(SegFault::Short),
        6 => FaultKind::Segment(SegFault::Offset),
        7 => FaultKind::Segment(SegFault::OptionLength),
        8 => FaultKind::Segment(SegFault::TooLong),
        9 => FaultKind::Segment(SegFault::OutOfMemory),
        10 => FaultKind::MomentFalls,
        11 => FaultKind::LineTooLong,
        12 => FaultKind::Cut,
        13 => FaultKind::TooManyLines,
        14 => FaultKind::OutOfMemory,
        _ => return None,
    })
}
