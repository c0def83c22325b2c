//! The lines that a search adds to a trace.

use crate::findings::Added;
use bstr::ByteSlice;
use case_forms::{Line, OutOfMemory};
use line_fields::{push_end, push_host, push_number, push_space, push_word, timer_name};
use std::alloc::Global;

// An added line.
#[derive(Clone, Copy)]
struct AddedLine {
    /// Its place among the event lines of the case, from 0.
    place: usize,
    /// The place after its text.
    stop: usize,
}

/// The lines that a search added to a trace, in their order. Each shows a timer that expires.
#[derive(Drop)]
pub struct AddedLines {
    text: Vec<u8>,
    all: Vec<AddedLine>,
}

impl AddedLines {
    /// No lines.
    pub(crate) fn new(alloc: Global) -> AddedLines {
        AddedLines {
            text: Vec::new(alloc),
            all: Vec::new(alloc),
        }
    }

    /// Prints the lines that are added to a trace with these lines.
    pub(crate) fn print(&mut self, lines: &[Line], added: &[Added]) -> Result<(), OutOfMemory> {
        // A thread that no line has, if there is one above all others.
        let threads = lines.iter().map(|line| line.thread);
        let thread = threads.max().unwrap_or(0).saturating_add(1);
        for line in added {
            push_expiry(&mut self.text, line, thread)?;
            self.all.push(AddedLine {
                place: line.before.saturating_add(self.all.len()),
                stop: self.text.len(),
            })?;
        }
        Ok(())
    }

    /// How many there are.
    pub(crate) fn len(&self) -> usize {
        self.all.len()
    }

    /// The text of an added line, empty if it doesn't exist.
    pub(crate) fn at(&self, index: usize) -> &[u8] {
        let start = match index.checked_sub(1) {
            Some(before) => self.stop_of(before),
            None => 0,
        };
        self.text.get(start..self.stop_of(index)).unwrap_or(&[])
    }

    // The place after the text of an added line; 0 if it doesn't exist.
    fn stop_of(&self, index: usize) -> usize {
        match self.all.get(index) {
            Some(line) => line.stop,
            None => 0,
        }
    }

    /// For each added line, where it comes in the text of the trace's event lines.
    pub(crate) fn places_in(
        &self,
        alloc: Global,
        events: &[u8],
    ) -> Result<Vec<usize>, OutOfMemory> {
        let mut places = Vec::with_capacity(alloc, self.all.len())?;
        let (mut at, mut passed): (usize, usize) = (0, 0);
        for (index, line) in self.all.iter().enumerate() {
            let before = line.place.saturating_sub(index);
            let rest = events.get(at..).unwrap_or(&[]);
            let (lines, _) = split_lines(rest, before.saturating_sub(passed));
            at = at.saturating_add(lines.len());
            passed = before;
            places.push(at)?;
        }
        Ok(places)
    }

    /// The place among the trace's event lines of a line whose place among the case's event lines is given. None: the
    /// line was added.
    pub fn place_in_trace(&self, place: usize) -> Option<usize> {
        let added = self.all.as_slice();
        match added.binary_search_by_key(&place, |line| line.place) {
            Ok(_) => None,
            Err(before) => place.checked_sub(before),
        }
    }
}

/// The first lines of a text, so many of them, and what follows.
pub(crate) fn split_lines(text: &[u8], count: usize) -> (&[u8], &[u8]) {
    let lines = text.lines_with_terminator().take(count);
    let len = lines.fold(0, |len: usize, line| len.saturating_add(line.len()));
    text.split_at(len.min(text.len()))
}

// Writes a line that shows an expiry.
fn push_expiry(out: &mut Vec<u8>, line: &Added, thread: u32) -> Result<(), OutOfMemory> {
    let ports = line.key.ports();
    push_number(out, line.moment)?;
    push_space(out)?;
    push_number(out, u64::from(thread))?;
    push_word(out, " T ")?;
    push_host(out, line.key.host())?;
    push_space(out)?;
    push_number(out, u64::from(ports.lport))?;
    push_space(out)?;
    push_number(out, u64::from(ports.rport))?;
    push_space(out)?;
    push_word(out, timer_name(line.timer))?;
    push_end(out)
}
