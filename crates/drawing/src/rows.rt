//! The rows of a picture: one for each line that is drawn, and rows of their own between them.

use crate::layout::{ROW, TOP};
use crate::range::Drawn;
use case_forms::{Line, OutOfMemory};
use std::alloc::Global;

// A gap is longer than this, and than so many times the median time between neighboring lines.
const SHORTEST_GAP: u64 = 200_000;

const GAP_FACTOR: u64 = 10;

/// Where the clock jumps.
#[derive(Clone, Copy)]
pub(crate) struct Gap {
    /// The line before it.
    pub after: u64,
    /// How many microseconds pass.
    pub length: u64,
    /// Its first row.
    pub y: u64,
}

/// What has rows of its own, each below a line, or above the first one.
#[derive(Clone, Copy)]
pub(crate) struct Marks {
    /// The line below which the refusal is marked. None: nothing is refused.
    pub refused: Option<u64>,
    /// The line below which a deadline is marked.
    pub due: Option<u64>,
}

/// The rows of the lines that are drawn.
#[derive(Drop)]
pub(crate) struct Rows {
    from: u64,
    /// The middle of each line's row.
    lines: Vec<u64>,
    pub gaps: Vec<Gap>,
    /// The middles of the rows of the marks; 0 without one.
    pub refused: u64,
    pub due: u64,
    /// The middle of the row below the last one.
    pub bottom: u64,
}

impl Rows {
    /// The rows of these lines, which are all lines of the range.
    pub(crate) fn new(
        alloc: Global,
        lines: &[Line],
        range: Drawn,
        marks: Marks,
    ) -> Result<Rows, OutOfMemory> {
        let mut rows = Rows {
            from: range.from,
            lines: Vec::new(alloc),
            gaps: Vec::new(alloc),
            refused: 0,
            due: 0,
            bottom: TOP,
        };
        let shortest = shortest_gap(alloc, lines)?;
        let above = range.from.saturating_sub(1);
        let refused = marks
            .refused
            .map(|line| line.max(above).min(range.to.max(above)));
        let marks = Marks { refused, ..marks };
        rows.add_marks(above, marks);
        for (place, line) in lines.iter().enumerate() {
            rows.lines.push(rows.bottom)?;
            rows.bottom = rows.bottom.saturating_add(ROW);
            let next = lines.get(place.saturating_add(1));
            let length = next.map_or(0, |next| next.moment.saturating_sub(line.moment));
            if shortest < length {
                rows.add_gap(line.number, length)?;
            }
            rows.add_marks(line.number, marks);
        }
        Ok(rows)
    }

    fn add_gap(&mut self, after: u64, length: u64) -> Result<(), OutOfMemory> {
        let y = self.bottom;
        self.gaps.push(Gap { after, length, y })?;
        self.bottom = y.saturating_add(ROW);
        Ok(())
    }

    // The rows of the marks below a line. A deadline comes before the refusal.
    fn add_marks(&mut self, after: u64, marks: Marks) {
        if marks.due == Some(after) {
            self.due = self.bottom;
            self.bottom = self.bottom.saturating_add(ROW);
        }
        if marks.refused == Some(after) {
            self.refused = self.bottom;
            self.bottom = self.bottom.saturating_add(ROW);
        }
    }

    /// The middle of a line's row; if the line isn't drawn, the upper or the lower end.
    pub(crate) fn y(&self, number: u64) -> u64 {
        let Some(place) = number.checked_sub(self.from) else {
            return TOP.saturating_sub(ROW / 2);
        };
        let place = usize::try_from(place).unwrap_or(usize::MAX);
        self.lines.get(place).copied().unwrap_or(self.bottom)
    }
}

// A jump of the clock is longer than this.
fn shortest_gap(alloc: Global, lines: &[Line]) -> Result<u64, OutOfMemory> {
    let mut gaps = Vec::new(alloc);
    for (line, next) in lines.iter().zip(lines.iter().skip(1)) {
        gaps.push(next.moment.saturating_sub(line.moment))?;
    }
    gaps.sort()?;
    let median = gaps.get(gaps.len() / 2).copied().unwrap_or(0);
    Ok(median.saturating_mul(GAP_FACTOR).max(SHORTEST_GAP))
}
