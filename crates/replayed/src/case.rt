//! The values of a case, and its verdict.

use crate::texts::Texts;
use case_forms::{Line, Step, Steps, Trace};
use checker::check;
use line_fields::{FaultKind, TextFault};
use std::alloc::Global;
use trace_reader::read_trace;
use verdict::{Rule, Verdict};
use witness::read_witness_for;

/// A case whose trace can be read.
#[derive(Drop)]
pub struct Case<'t> {
    pub texts: Texts<'t>,
    pub trace: Trace,
    /// The steps of the witness; none if it can't be read.
    pub steps: Steps,
    /// The verdict, or the first fault of the witness.
    pub verdict: Result<Verdict, TextFault>,
}

/// Where a case is refused.
#[derive(Clone, Copy)]
pub enum Refusal<'c> {
    /// The verdict is yes, or the witness can't be read.
    Nowhere,
    /// At this step.
    At {
        step: &'c Step,
        rule: Rule,
    },
    /// After the last step: no step uses this line of the trace.
    Unplaced(u64),
    /// After the last step: a duty is late, which breaks this rule.
    Late {
        rule: Rule,
        /// The line of the segment that still waits in an inbox; 0 for any other duty.
        line: u64,
    },
}

impl<'t> Case<'t> {
    /// Reads and judges a case. An error is the first fault of its trace; its kind is `OutOfMemory` if memory ran out.
    pub fn read(alloc: Global, text: &'t [u8]) -> Result<Case<'t>, TextFault> {
        let texts = Texts::new(text);
        let trace = read_trace(alloc, texts.trace)?;
        let (steps, verdict) = match read_witness_for(alloc, trace.header.version, texts.witness) {
            Ok(witness) => {
                let verdict = check(alloc, &trace, &witness)?;
                (witness.steps, Ok(verdict))
            }
            Err(fault) if fault.kind == FaultKind::OutOfMemory => return Err(fault),
            Err(fault) => (Steps::new(alloc), Err(fault)),
        };
        Ok(Case {
            texts,
            trace,
            steps,
            verdict,
        })
    }

    /// Reads a case that `checker` has judged, without judging it again. An error is as in `read`, and a fault of the
    /// witness is one too.
    pub fn with_verdict(
        alloc: Global,
        text: &'t [u8],
        verdict: Verdict,
    ) -> Result<Case<'t>, TextFault> {
        let texts = Texts::new(text);
        let trace = read_trace(alloc, texts.trace)?;
        let witness = read_witness_for(alloc, trace.header.version, texts.witness)?;
        Ok(Case {
            texts,
            trace,
            steps: witness.steps,
            verdict: Ok(verdict),
        })
    }

    /// Where the case is refused.
    pub fn refusal(&self) -> Refusal<'_> {
        let Ok(
            Verdict::No {
                trace_line,
                rule,
                ..
            },
        ) = &self.verdict
        else {
            return Refusal::Nowhere;
        };
        match self.refused_step() {
            Some(step) => Refusal::At { step, rule: *rule },
            None => refused_at_end(*trace_line, *rule),
        }
    }

    /// The steps before the refused one, or all of them.
    pub fn steps_before_refusal(&self) -> &[Step] {
        let steps = self.steps.as_slice();
        let count = match &self.verdict {
            Ok(Verdict::No { witness_line, .. }) => place_of(*witness_line),
            Ok(Verdict::Yes { .. }) | Err(_) => None,
        };
        count.and_then(|count| steps.get(..count)).unwrap_or(steps)
    }

    /// The refused step. None: no step is refused.
    pub fn refused_step(&self) -> Option<&Step> {
        self.steps.as_slice().get(self.steps_before_refusal().len())
    }

    /// The event line of this number. None: the trace has no such event line.
    pub fn line(&self, number: u64) -> Option<&Line> {
        let place = number.checked_sub(self.trace.header.first_event_line())?;
        let lines = self.trace.lines.as_slice();
        lines.get(usize::try_from(place).ok()?)
    }
}

// What breaks a rule after the last step, with its line.
fn refused_at_end<'c>(line: u64, rule: Rule) -> Refusal<'c> {
    match rule {
        Rule::Unplaced => Refusal::Unplaced(line),
        rule => Refusal::Late { rule, line },
    }
}

// The place of the step in a line of the witness, from 0. None: that line has no step.
fn place_of(witness_line: u64) -> Option<usize> {
    usize::try_from(witness_line.checked_sub(2)?).ok()
}
