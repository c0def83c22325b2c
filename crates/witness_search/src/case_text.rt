//! The text of a case: the trace with added lines, and the witness.

use crate::added_lines::AddedLines;
use crate::found::Found;
use crate::witness_text::witness_blocks;
use case_forms::OutOfMemory;
use std::alloc::Global;
use std::io;
use std::io::{BufRead, Read, Write};
use std::mem::replace;
use witness::push_witness;

/// The text of a case, in pieces of whole lines, so that the event lines of the trace aren't copied. The pieces are the
/// header, event lines of the trace, an added line, event lines of the trace, and so on; then the witness.
#[derive(Drop)]
pub struct CaseText<'t> {
    header: Vec<u8>,
    /// The event lines of the trace.
    events: &'t [u8],
    added: AddedLines,
    /// For each added line, where it comes in `events`.
    cuts: Vec<usize>,
    witness: Vec<Vec<u8>>,
}

impl<'t> CaseText<'t> {
    /// The text of a case with this header, the event lines of its trace, and what was found for these. The added lines
    /// are moved.
    pub fn new(
        alloc: Global,
        header: Vec<u8>,
        events: &'t [u8],
        found: &mut Found,
    ) -> Result<CaseText<'t>, OutOfMemory> {
        let cuts = found.added.places_in(alloc, events)?;
        let witness = witness_blocks(alloc, &found.witness)?;
        Ok(CaseText {
            header,
            events,
            added: replace(&mut found.added, AddedLines::new(alloc)),
            cuts,
            witness,
        })
    }

    /// How many pieces the text of the trace has.
    pub fn trace_pieces(&self) -> usize {
        self.cuts.len().saturating_mul(2).saturating_add(2)
    }

    // How many pieces there are.
    fn pieces(&self) -> usize {
        self.trace_pieces().saturating_add(self.witness.len())
    }

    /// A piece, the header first. It's empty if there are fewer pieces.
    pub fn piece(&self, index: usize) -> &[u8] {
        if let Some(block) = index.checked_sub(self.trace_pieces()) {
            return self
                .witness
                .get(block)
                .map_or(&[], |block| block.as_slice());
        }
        let Some(index) = index.checked_sub(1) else {
            return self.header.as_slice();
        };
        let added = index / 2;
        if index % 2 == 0 {
            self.events_before(added)
        } else {
            self.added.at(added)
        }
    }

    // The event lines between an added line and the one before it.
    fn events_before(&self, added: usize) -> &[u8] {
        let start = match added.checked_sub(1) {
            Some(before) => self.cut(before),
            None => 0,
        };
        let stop = self.cut(added);
        match self.events.get(start..stop) {
            Some(lines) => lines,
            None => &[],
        }
    }

    // Where an added line comes among the event lines; their end if there is no such line.
    fn cut(&self, added: usize) -> usize {
        self.cuts.get(added).copied().unwrap_or(self.events.len())
    }

    /// The place among the trace's event lines of a line whose place among the case's event lines is given. None: the
    /// line was added.
    pub fn place_in_trace(&self, place: usize) -> Option<usize> {
        self.added.place_in_trace(place)
    }

    /// A reader of the text of the trace.
    pub fn trace(&self) -> Pieces<'_> {
        Pieces::new(self, 0, self.trace_pieces())
    }

    /// A reader of the text of the trace after its header.
    pub fn events(&self) -> Pieces<'_> {
        Pieces::new(self, 1, self.trace_pieces())
    }

    /// A reader of the text of the witness.
    pub fn witness(&self) -> Pieces<'_> {
        Pieces::new(self, self.trace_pieces(), self.pieces())
    }

    /// Writes the case.
    pub fn write_to<W: Write>(&self, w: &mut W) -> io::Result<()> {
        for index in 0..self.pieces() {
            w.write_all(self.piece(index))?;
        }
        Ok(())
    }

    /// The case as one text.
    pub fn joined(&self, alloc: Global) -> Result<Vec<u8>, OutOfMemory> {
        let len = (0..self.pieces()).fold(0, |len: usize, index| {
            len.saturating_add(self.piece(index).len())
        });
        let mut joined = Vec::with_capacity(alloc, len)?;
        for index in 0..self.pieces() {
            joined.extend_from_slice(self.piece(index))?;
        }
        Ok(joined)
    }
}

/// The text of a case with this header, the event lines of its trace, and what was found for these. Each line is
/// written once, without pieces.
pub(crate) fn join_case(
    alloc: Global,
    header: &[u8],
    events: &[u8],
    found: &Found,
) -> Result<Vec<u8>, OutOfMemory> {
    let cuts = found.added.places_in(alloc, events)?;
    let mut joined = Vec::with_capacity(alloc, header.len().saturating_add(events.len()))?;
    joined.extend_from_slice(header)?;
    let mut at: usize = 0;
    for (added, cut) in cuts.iter().enumerate() {
        joined.extend_from_slice(events.get(at..*cut).unwrap_or(&[]))?;
        joined.extend_from_slice(found.added.at(added))?;
        at = *cut;
    }
    joined.extend_from_slice(events.get(at..).unwrap_or(&[]))?;
    push_witness(&mut joined, &found.witness)?;
    Ok(joined)
}

/// A reader of some pieces of a case, one after the other.
#[derive(Drop)]
pub struct Pieces<'c> {
    case: &'c CaseText<'c>,
    /// The index of the piece after the current one, and of the first that isn't read.
    next: usize,
    stop: usize,
    /// What is left of the current piece.
    left: &'c [u8],
}

impl<'c> Pieces<'c> {
    // A reader of these pieces.
    fn new(case: &'c CaseText<'c>, next: usize, stop: usize) -> Pieces<'c> {
        Pieces {
            case,
            next,
            stop,
            left: &[],
        }
    }

    // Goes on to the next piece that isn't empty, if nothing is left of the current one.
    fn go_on(&mut self) {
        for index in self.next..self.stop {
            if !self.left.is_empty() {
                break;
            }
            self.left = self.case.piece(index);
            self.next = index.saturating_add(1);
        }
    }
}

impl Read for Pieces<'_> {
    fn read(&mut self, buf: &mut [u8]) -> io::Result<usize> {
        self.go_on();
        let count = self.left.len().min(buf.len());
        let (given, rest) = self.left.split_at(count);
        buf[..count].copy_from_slice(given);
        self.left = rest;
        Ok(count)
    }
}

impl BufRead for Pieces<'_> {
    fn fill_buf(&mut self) -> io::Result<&[u8]> {
        self.go_on();
        Ok(self.left)
    }

    fn consume(&mut self, amount: usize) {
        let count = self.left.len().min(amount);
        self.left = &self.left[count..];
    }
}
