//! An answer to a case, in numbers.

ghost use Rattle.std.specs.Prelude.{◌≡◌};
ghost use Rattle.spec_tcp_laws.specs.Ascending.{rule_number};
ghost use Rattle.c_answers.specs.Answers.{answer_of, fault_number, of_fault};

use checker::CaseFault;
use line_fields::{FaultKind, TextFault};
use segment::SegFault;
use verdict::{Rule, Verdict};

/// The answer to a case. Numbers that the kind doesn't have are 0.
#[repr(C)]
#[derive(Clone, Copy, PartialEq, Eq)]
pub struct Answer {
    /// 0: yes; 1: no; 2: the trace can't be read; 3: the witness can't be read; 4: memory ran out.
    pub kind: u32,
    /// A no: the number of the rule that is broken: 1 to 57.
    pub rule: u32,
    /// A text that can't be read: the number of the fault, from 1.
    pub fault: u32,
    /// A yes: how many event lines the trace has.
    pub lines: u64,
    /// A yes: how many steps use no line.
    pub hidden: u64,
    /// A no: the line of the step in the witness, from 1; 0 if no step breaks a rule, but something is left at the end.
    pub witness_line: u64,
    /// A no: the number of a line of the trace that the step names; 0 if it names none.
    pub trace_line: u64,
    /// A text that can't be read: the line of the fault in its own text, from 1.
    pub fault_line: u64,
    /// Where the fault begins in that line, in bytes from 0.
    pub fault_start: u64,
    /// Where it ends.
    pub fault_stop: u64,
}

impl Answer {
    // An answer of this kind whose other numbers are 0.
    const fn blank(kind: u32) -> Answer
        ensures { result ≡ Rattle.c_answers.specs.Answers.blank kind }
    {
        Answer {
            kind,
            rule: 0,
            fault: 0,
            lines: 0,
            hidden: 0,
            witness_line: 0,
            trace_line: 0,
            fault_line: 0,
            fault_start: 0,
            fault_stop: 0,
        }
    }

    /// The numbers of a result.
    pub(crate) fn from_result(given: Result<Verdict, CaseFault>) -> Answer
        ensures { result ≡ answer_of given }
    {
        match given {
            Ok(Verdict::Yes { lines, hidden }) => Answer {
                lines,
                hidden,
                ..Answer::blank(0)
            },
            Ok(
                Verdict::No {
                    witness_line,
                    trace_line,
                    rule,
                },
            ) => Answer {
                rule: number_of(rule),
                witness_line,
                trace_line,
                ..Answer::blank(1)
            },
            Err(CaseFault::Trace(fault)) => fault_answer(2, fault),
            Err(CaseFault::Witness(fault)) => fault_answer(3, fault),
            Err(CaseFault::OutOfMemory) => Answer::blank(4),
            Err(CaseFault::Read) => Answer::blank(5),
        }
    }
}

// The answer of this kind that says where a text is at fault.
fn fault_answer(kind: u32, fault: TextFault) -> Answer
    ensures { result ≡ of_fault kind fault }
{
    Answer {
        fault: fault_number(fault.kind),
        fault_line: fault.span.line,
        fault_start: fault.span.start as u64,
        fault_stop: fault.span.stop as u64,
        ..Answer::blank(kind)
    }
}

// The number of a rule: they follow one another.
fn number_of(rule: Rule) -> u32
    ensures { result ≡ rule_number rule }
{
    rule as u32 + 1
}

// The number of a fault's kind.
fn fault_number(kind: FaultKind) -> u32
    ensures { result ≡ fault_number kind }
{
    match kind {
        FaultKind::Header => 1,
        FaultKind::Field => 2,
        FaultKind::Number => 3,
        FaultKind::Hex => 4,
        FaultKind::Segment(SegFault::Short) => 5,
        FaultKind::Segment(SegFault::Offset) => 6,
        FaultKind::Segment(SegFault::OptionLength) => 7,
        FaultKind::Segment(SegFault::TooLong) => 8,
        FaultKind::Segment(SegFault::OutOfMemory) => 9,
        FaultKind::MomentFalls => 10,
        FaultKind::LineTooLong => 11,
        FaultKind::Cut => 12,
        FaultKind::TooManyLines => 13,
        FaultKind::OutOfMemory => 14,
    }
}
