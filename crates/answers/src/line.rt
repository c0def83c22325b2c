//! The line of an answer to a case.

ghost use Rattle.std.specs.Prelude.{◌≡◌, ◌++◌, IfOk, codes, decimal};
ghost use Rattle.answers.specs.Output.{fault_text, line_of};

use case_forms::OutOfMemory;
use checker::CaseFault;
use line_fields::{TextFault, push_number, push_word};
use std::alloc::Global;
use verdict::{Verdict, print_verdict};

/// The line of a case's answer, with its end.
pub fn line_of(alloc: Global, answer: &Result<Verdict, CaseFault>) -> Result<Vec<u8>, OutOfMemory>
    ensures { IfOk result (λ line. line.items ≡ line_of answer.now) }
{
    let mut line = Vec::new(alloc);
    append_line(&mut line, answer)?;
    Ok(line)
}

/// Appends the line of a case's answer, with its end. If memory runs out, a part of it may be appended.
pub fn append_line(
    line: &mut Vec<u8>,
    answer: &Result<Verdict, CaseFault>,
) -> Result<(), OutOfMemory>
    ensures { IfOk result (λ _. line.new.items ≡ line.old.items ++ line_of answer.now) }
{
    match answer {
        Ok(verdict) => print_verdict(verdict, line)?,
        Err(CaseFault::Trace(fault)) => push_fault(line, "bad trace", fault)?,
        Err(CaseFault::Witness(fault)) => push_fault(line, "bad witness", fault)?,
        Err(CaseFault::Read) => push_word(line, "bad device")?,
        Err(CaseFault::OutOfMemory) => push_word(line, "bad memory")?,
    }
    line.push(b'\n')?;
    Ok(())
}

// Appends what is refused, where, and why.
fn push_fault(line: &mut Vec<u8>, refusal: &str, fault: &TextFault) -> Result<(), OutOfMemory>
    ensures { IfOk result (λ _. line.new.items ≡ line.old.items ++ (refusal.now ++ fault_text fault.now)) }
{
    push_word(line, refusal)?;
    push_column(line, fault.span.line)?;
    push_column(line, fault.span.start as u64)?;
    push_column(line, fault.span.stop as u64)?;
    push_word(line, " ")?;
    push_word(line, fault.kind.name())
}

// Appends a number after a space.
fn push_column(line: &mut Vec<u8>, number: u64) -> Result<(), OutOfMemory>
    ensures { IfOk result (λ _. line.new.items ≡ line.old.items ++ (codes " " ++ decimal number)) }
{
    push_word(line, " ")?;
    push_number(line, number)
}
