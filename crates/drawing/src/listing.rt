//! A case as text: one event a line, with the steps of the witness between the lines.

use case_forms::{Label, Line, OutOfMemory, Step};
use plain_words::{EventWords, Numbers, Sheet, StepWords, word_if};
use replayed::{Case, Refusal};
use std::alloc::Global;
use std::collections::BTreeSet;
use verdict::Rule;

// A text that is written, and what is known of the case so far.
#[derive(Drop)]
struct Listing<'s> {
    out: &'s mut Sheet,
    numbers: Numbers,
    /// The lines that were shown.
    shown: BTreeSet<u64>,
}

/// The case as text: each line of the trace at its step, and hidden steps indented between them. A refused step is
/// marked, and lines that no step uses follow at the end; so does a duty that is late then.
pub fn show(alloc: Global, case: &Case) -> Result<String, OutOfMemory> {
    let mut out = Sheet::new(alloc);
    let mut listing = Listing {
        out: &mut out,
        numbers: Numbers::new(alloc, case.trace.header.version),
        shown: BTreeSet::new(alloc),
    };
    let done = listing.all(case);
    drop(listing);
    out.note(done);
    out.finish()
}

impl Listing<'_> {
    fn all(&mut self, case: &Case) -> Result<(), OutOfMemory> {
        self.steps(case)?;
        self.rest(case)?;
        self.late(case.refusal());
        Ok(())
    }

    // Writes all steps.
    fn steps(&mut self, case: &Case) -> Result<(), OutOfMemory> {
        let (refusal, refused) = (case.refusal(), case.steps_before_refusal().len());
        for (place, step) in case.steps.as_slice().iter().enumerate() {
            self.step(case, step)?;
            if place == refused {
                self.mark(refusal);
            }
        }
        Ok(())
    }

    // Writes the lines that no step uses. Without a witness, these are all lines.
    fn rest(&mut self, case: &Case) -> Result<(), OutOfMemory> {
        let not_used = word_if(!case.texts.witness.is_empty(), "not used: ");
        for line in case.trace.lines.as_slice() {
            if !self.shown.contains(&line.number) {
                self.out.put(not_used);
                self.line(line, line.moment)?;
            }
        }
        Ok(())
    }

    fn step(&mut self, case: &Case, step: &Step) -> Result<(), OutOfMemory> {
        if let Label::L(named) = &step.label {
            if let Some(line) = case.line(named.number) {
                return self.line(line, step.moment);
            }
        }
        self.out.put("        ");
        self.out.show(&StepWords(&step.label));
        self.out.put("\n");
        Ok(())
    }

    fn line(&mut self, line: &Line, moment: u64) -> Result<(), OutOfMemory> {
        self.numbers.read(line)?;
        self.shown.insert(line.number)?;
        self.out.say("{}  {}  ", &[line.number, moment]);
        let numbers = &self.numbers;
        self.out.show(&EventWords { numbers, line });
        self.out.put("\n");
        Ok(())
    }

    // Marks the step before as the refused one.
    fn mark(&mut self, refusal: Refusal) {
        match refusal {
            Refusal::At { rule, .. } => self.rule("^^^^^^^ refused: ", rule),
            Refusal::Nowhere | Refusal::Unplaced(_) | Refusal::Late { .. } => {}
        }
    }

    // Writes which duty is late after the last step, if one is.
    fn late(&mut self, refusal: Refusal) {
        match refusal {
            Refusal::Late { rule, .. } => self.rule("refused after the last step: ", rule),
            Refusal::Nowhere | Refusal::At { .. } | Refusal::Unplaced(_) => {}
        }
    }

    fn rule(&mut self, words: &str, rule: Rule) {
        self.out.put(words);
        self.out.show(&rule);
        self.out.put("\n");
    }
}
