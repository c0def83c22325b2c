//! Which lines of a trace are drawn.

use crate::fates::Fates;
use case_forms::{Label, Line};
use replayed::{Case, Refusal};

// How many lines are drawn if one end of the range is not named.
const LINES: u64 = 400;

// How many of them follow the refusal, if the trace has so many and no end of the range is named.
const AFTER: u64 = 50;

/// Which lines of the trace are drawn, by their numbers, both ends with them. If one end is None, at most 400 lines are
/// drawn, from the other end on. If both are None, the first 400 are drawn. If a case is refused further on, the 400
/// end 50 lines after the refusal instead.
#[derive(Clone, Copy)]
pub struct Range {
    pub from: Option<u64>,
    pub to: Option<u64>,
}

/// The lines that are drawn.
#[derive(Clone, Copy)]
pub(crate) struct Drawn {
    pub from: u64,
    pub to: u64,
}

impl Drawn {
    /// The lines of a case that are in a range.
    pub(crate) fn new(range: Range, case: &Case, fates: &Fates) -> Drawn {
        let (first, last) = (case.trace.header.first_event_line(), last_line(case));
        let to = match (range.from, range.to, line_refused(case, fates)) {
            (None, None, Some(line)) => {
                let earliest = first.saturating_add(LINES - 1);
                Some(line.saturating_add(AFTER).max(earliest))
            }
            (_, to, _) => to,
        };
        let from = match (range.from, to) {
            (None, Some(to)) => to.min(last).saturating_sub(LINES - 1),
            (from, _) => from.unwrap_or(first),
        };
        let from = from.max(first);
        let to = to.unwrap_or(from.saturating_add(LINES - 1)).min(last);
        Drawn { from, to }
    }

    /// Those lines.
    pub(crate) fn lines<'c>(self, case: &'c Case<'_>) -> &'c [Line] {
        let lines = case.trace.lines.as_slice();
        let first = case.trace.header.first_event_line();
        let begin = place_of(self.from, first);
        let end = place_of(self.to.saturating_add(1), first).min(lines.len());
        lines.get(begin..end).unwrap_or(&[])
    }

    /// Whether the line with this number is drawn.
    pub(crate) fn has(self, number: u64) -> bool {
        self.from <= number && number <= self.to
    }
}

// The line at which a case is refused: that of the refused step or, if the step is hidden or its line was used before,
// the line before the step. If a duty is late at the end, it is the last line. None: the case is not refused.
fn line_refused(case: &Case, fates: &Fates) -> Option<u64> {
    let step = match case.refusal() {
        Refusal::Nowhere => return None,
        Refusal::At { step, .. } => step,
        Refusal::Unplaced(number) => return Some(number),
        Refusal::Late { .. } => return Some(last_line(case)),
    };
    match &step.label {
        Label::L(named) if case.line(named.number).is_some() => Some(named.number.max(fates.last)),
        _ => Some(fates.last),
    }
}

// The place of a line, counted from the first one.
fn place_of(number: u64, first: u64) -> usize {
    usize::try_from(number.saturating_sub(first)).unwrap_or(usize::MAX)
}

/// The number of the last line of a case's trace.
pub(crate) fn last_line(case: &Case) -> u64 {
    let first = case.trace.header.first_event_line();
    let count = case.trace.lines.as_slice().len() as u64;
    first.saturating_add(count).saturating_sub(1)
}
