//! The lines of a trace, which are read as steps use them.

use crate::replay::ReplayFault;
use case_forms::{Header, Line, Version};
use line_fields::next_line;
use std::alloc::Global;
use std::collections::BTreeMap;
use std::io::BufRead;
use trace_reader::{Counted, event_line};

/// The lines of a trace that no step has used.
#[derive(Drop)]
pub(crate) struct UnusedLines<A> {
    alloc: Global,
    version: Version,
    source: Counted<A>,
    /// The number of the next line.
    next: u64,
    /// The lines before it, by their numbers.
    read: BTreeMap<u64, Line>,
}

impl<A: BufRead> UnusedLines<A> {
    /// The lines of a trace with this header, by the text after the header.
    pub(crate) fn new(alloc: Global, header: &Header, source: Counted<A>) -> UnusedLines<A> {
        UnusedLines {
            alloc,
            version: header.version,
            source,
            next: header.first_event_line(),
            read: BTreeMap::new(alloc),
        }
    }

    /// Removes the line of this number. None: the trace has no such line, or the line was removed.
    pub(crate) fn remove(&mut self, number: u64) -> Result<Option<Line>, ReplayFault> {
        for _ in self.next..=number {
            if !self.read_next()? {
                break;
            }
        }
        Ok(self.read.remove(&number))
    }

    // Reads the next line. The result is whether there is one.
    fn read_next(&mut self) -> Result<bool, ReplayFault> {
        let number = self.next;
        if !next_line(&mut self.source, self.alloc, number)? {
            return Ok(false);
        }
        let line = event_line(self.alloc, self.version, 0, number, self.source.line())?;
        self.read.insert(number, line)?;
        self.next = number.saturating_add(1);
        Ok(true)
    }
}
