//! The event lines of a case that was found, beside those of its trace.

use crate::case_text::CaseText;
use bstr::{ByteSlice, LinesWithTerminator};

/// The event lines of a case. All of its trace's are among them, in their order.
#[derive(Clone, Copy)]
pub struct CaseLines {
    /// How many the trace has.
    pub kept: u64,
    /// How many were added. Each shows a timeout.
    pub added: u64,
}

/// A trace with which the event lines of a case are compared, one piece after the other.
#[derive(Drop)]
pub struct Comparison<'t> {
    lines: CaseLines,
    /// The next line of the trace, and those after it.
    next: Option<&'t [u8]>,
    left: LinesWithTerminator<'t>,
    /// Whether a line was neither the next one of the trace nor shows a timeout.
    is_altered: bool,
}

impl<'t> Comparison<'t> {
    /// Nothing was compared with these event lines of a trace.
    pub fn new(trace: &'t [u8]) -> Comparison<'t> {
        let mut left = trace.lines_with_terminator();
        Comparison {
            lines: CaseLines { kept: 0, added: 0 },
            next: left.next(),
            left,
            is_altered: false,
        }
    }

    /// Compares the next event lines of the case.
    pub fn pass(&mut self, case: &[u8]) {
        for line in case.lines_with_terminator() {
            if self.next == Some(line) {
                self.lines.kept = self.lines.kept.saturating_add(1);
                self.next = self.left.next();
            } else if line.contains_str(b" T ") {
                self.lines.added = self.lines.added.saturating_add(1);
            } else {
                self.is_altered = true;
            }
        }
    }

    /// The event lines of the case. None: it lacks one of the trace's, has them in another order, or has one more that
    /// doesn't show a timeout.
    pub fn result(&self) -> Option<CaseLines> {
        (!self.is_altered && self.next.is_none()).then_some(self.lines)
    }
}

/// The event lines of a case, which are compared with those of its trace. None: they differ in more than added
/// timeouts.
pub fn case_lines(trace: &[u8], case: &CaseText<'_>) -> Option<CaseLines> {
    let mut comparison = Comparison::new(trace);
    // The first piece is the header.
    for index in 1..case.trace_pieces() {
        comparison.pass(case.piece(index));
    }
    comparison.result()
}
