//! A trace that is read one line ahead, so that the checker knows when the next line is reached.

ghost use Rattle.std.specs.Prelude.{◌≡◌, ◌≢◌, ◌≤◌, ◌+◌, ℕ, List, Err, Ok, Some, IfOk, IfErr, IfSome, IsSome, OnOk};
ghost use Rattle.std.specs.Prelude.{None, nat_le, true};
ghost use Rattle.std.specs.Prelude.{false};
ghost use Rattle.std.specs.Option.{option_map, option_map_or};
ghost use Rattle.case_forms.specs.declared.trace.Line.{Line};
ghost use Rattle.case_forms.specs.Traces.{first_event_line};
ghost use Rattle.counted.specs.Counting.{failures_of, one_more};
ghost use Rattle.line_fields.specs.Left.{Yields};
ghost use Rattle.trace_reader.specs.EventLines.{behind};
ghost use Rattle.trace_reader.specs.TraceLeft.{place_of, fault_of, reader_failures, IsBegun, lines_left};
ghost use Rattle.trace_reader.specs.TraceLeft.{AreAt, Begins, StandsAt};
ghost use Rattle.trace_reader.specs.TraceText.{first_place};
ghost use Rattle.std.specs.Borrow.{Bor};
ghost use Rattle.checker.specs.Ahead.{source_ahead, line_ahead, left_ahead, trace_ahead, IsUnread, IsAhead, Skips};
ghost use Rattle.interval_order.specs.Orders.{with_line};
ghost use Rattle.checker.specs.Ahead.{IsAll, IsInStep, TraceFails, Follows};

use crate::case::{CaseFault, trace_fault};
use case_forms::{Header, Line};
use case_lines::KeptLines;
use counted::Counted;
use interval_order::{Window, is_reached};
use line_fields::SourceFault;
use std::alloc::Global;
use std::io::BufRead;
use trace_reader::TraceReader;

/// A trace, and its next line.
#[derive(Drop)]
pub(crate) struct Ahead<A> {
    reader: TraceReader<A>,
    // None before the header is read, and at the end.
    line: Option<Line>,
}

impl<A> Ahead<A> {
    /// A trace, before anything is read.
    pub(crate) fn new(alloc: Global, source: Counted<A>) -> Ahead<A>
        ensures source { source_ahead result ≡ source }
        ensures unread { IsUnread result }
    {
        Ahead {
            reader: TraceReader::new(alloc, source),
            line: None,
        }
    }

    /// The source: what was requested has been read, one more line, and nothing after it.
    pub(crate) fn into_source(self) -> Counted<A>
        ensures { result ≡ source_ahead self }
    {
        self.reader.into_source()
    }

    /// Whether the next line's moment is reached.
    pub(crate) fn is_reached(&self, moment: u64) -> bool
        ensures { result ≡ option_map_or (λ line. nat_le line.moment moment) (line_ahead self.now) false }
    {
        match &self.line {
            Some(line) => is_reached(line, moment),
            None => false,
        }
    }

    /// The number of the next line. None at the end.
    pub(crate) fn next_number(&self) -> Option<u64>
        ensures { result ≡ option_map (λ line. line.number) (line_ahead self.now) }
    {
        self.line.as_ref().map(|line| line.number)
    }
}

impl Ahead<&'static [u8]> {
    /// A trace whose lines were read before, after this header.
    pub(crate) fn of_lines(
        alloc: Global,
        header: &Header,
        lines: KeptLines,
    ) -> Result<Ahead<&'static [u8]>, CaseFault>
        requires { AreAt (first_place header.now) lines }
        ensures ahead { IfOk result IsAhead }
        ensures left { IfOk result (λ ahead. left_ahead (λ (text : Bor (List ℕ)). Some text.now) ahead
            ≡ Some (Ok lines)) }
        ensures first { IfOk result (λ ahead. IfSome (line_ahead ahead) (λ line. line.number
            ≡ first_event_line header.now)) }
    {
        let mut reader = TraceReader::of_lines(alloc, header, lines);
        let mut line = None;
        read_next(&mut reader, &mut line)?;
        Ok(Ahead { reader, line })
    }

    /// A trace with this header, of which no line is left.
    pub(crate) fn at_end(alloc: Global, header: &Header) -> Ahead<&'static [u8]>
        ensures ahead { IsAhead result }
        ensures end { line_ahead result ≡ None }
    {
        Ahead {
            reader: TraceReader::of_lines(alloc, header, KeptLines::new(alloc)),
            line: None,
        }
    }
}

impl<A: BufRead> Ahead<A> {
    /// The header, which is read before any line, and the first line after it.
    pub(crate) fn begin(&mut self) -> Result<Header, CaseFault>
        requires { IsUnread self.old }
        ensures ahead { IfOk result (λ header. IsAhead self.new) }
        ensures begins { IfOk result (Begins (trace_ahead A.remaining self.old) (left_ahead A.remaining self.new)) }
        ensures first { IfOk result (λ header. IfSome (line_ahead self.new) (λ line. line.number
            ≡ first_event_line header)) }
        ensures fault { IfErr result (λ e. TraceFails e (trace_ahead A.remaining self.old)) }
        ensures read { result ≡ Err CaseFault.Read
            → failures_of (source_ahead self.new) ≡ one_more (failures_of (source_ahead self.old)) }
        ensures same { result ≢ Err CaseFault.Read
            → failures_of (source_ahead self.new) ≡ failures_of (source_ahead self.old) }
    {
        match self.reader.header() {
            Ok(header) => {
                read_next(&mut self.reader, &mut self.line)?;
                Ok(header)
            }
            Err(SourceFault::Text(fault)) => Err(trace_fault(fault)),
            Err(SourceFault::Read) => Err(CaseFault::Read),
        }
    }

    /// Takes the line that was read ahead, and reads the next one.
    #[inline(always)]
    pub(crate) fn next(&mut self) -> Result<Option<Line>, CaseFault>
        requires { IsAhead self.old }
        ensures ahead { IfOk result (λ item. IsAhead self.new) }
        ensures item { IfOk result (λ item. item ≡ line_ahead self.old) }
        ensures next { IfOk result (Yields (left_ahead A.remaining self.old) (left_ahead A.remaining self.new)) }
        ensures follows { IfOk result (λ item. IfSome item (λ line. IfSome (line_ahead self.new) (Follows line))) }
        ensures fault { IfErr result (λ e. TraceFails e (left_ahead A.remaining self.old)) }
        ensures read { result ≡ Err CaseFault.Read
            → failures_of (source_ahead self.new) ≡ one_more (failures_of (source_ahead self.old)) }
        ensures same { result ≢ Err CaseFault.Read
            → failures_of (source_ahead self.new) ≡ failures_of (source_ahead self.old) }
    {
        if self.line.is_none() {
            return Ok(None);
        }
        let item = self.line.take();
        read_next(&mut self.reader, &mut self.line)?;
        Ok(item)
    }

    /// Offers the line that was read ahead, and reads the next one.
    #[inline(always)]
    pub(crate) fn offer_to(&mut self, window: &mut Window) -> Result<(), CaseFault>
        requires ahead { IsAhead self.old }
        requires step { IsInStep window.old (line_ahead self.old) }
        requires some { IsSome (line_ahead self.old) }
        ensures ahead { OnOk result (IsAhead self.new) }
        ensures offered { OnOk result (IfSome (line_ahead self.old) (λ line. window.new
            ≡ with_line window.old line)) }
        ensures next { OnOk result (Yields (left_ahead A.remaining self.old) (left_ahead A.remaining self.new)
            (line_ahead self.old)) }
        ensures follows { OnOk result (IfSome (line_ahead self.old) (λ line. IfSome (line_ahead self.new)
            (Follows line))) }
        ensures fault { IfErr result (λ e. TraceFails e (left_ahead A.remaining self.old)) }
        ensures read { result ≡ Err CaseFault.Read
            → failures_of (source_ahead self.new) ≡ one_more (failures_of (source_ahead self.old)) }
        ensures same { result ≢ Err CaseFault.Read
            → failures_of (source_ahead self.new) ≡ failures_of (source_ahead self.old) }
    {
        window.offer_from(&mut self.line)?;
        read_next(&mut self.reader, &mut self.line)
    }

    /// Reads on to the end of the trace.
    pub(crate) fn drain(&mut self) -> Result<(), CaseFault>
        requires { IsAhead self.old }
        ensures all { IfOk result (λ u. (items : List Line) × IsAll (left_ahead A.remaining self.old) items) }
        ensures fault { IfErr result (λ e. TraceFails e (left_ahead A.remaining self.old)) }
        ensures read { result ≡ Err CaseFault.Read
            → failures_of (source_ahead self.new) ≡ one_more (failures_of (source_ahead self.old)) }
        ensures same { result ≢ Err CaseFault.Read
            → failures_of (source_ahead self.new) ≡ failures_of (source_ahead self.old) }
    {
        match &self.line {
            Some(_) => drain_lines(&mut self.reader),
            None => Ok(()),
        }
    }
}

// Makes the next event line of a trace whose header was read the item.
#[inline(always)]
fn read_next<A: BufRead>(
    reader: &mut TraceReader<A>,
    item: &mut Option<Line>,
) -> Result<(), CaseFault>
    requires working { fault_of reader.old ≡ None }
    requires begun { IsBegun reader.old }
    ensures next { OnOk result
        (Yields (lines_left A.remaining reader.old) (lines_left A.remaining reader.new) item.new) }
    ensures place { OnOk result (IfSome item.new (λ line. StandsAt (place_of reader.old) line ×
        (place_of reader.new ≡ behind (place_of reader.old) line))) }
    ensures working { OnOk result (fault_of reader.new ≡ None) }
    ensures begun { IsBegun reader.new }
    ensures fault { IfErr result (λ e. TraceFails e (lines_left A.remaining reader.old)) }
    ensures read { result ≡ Err CaseFault.Read → reader_failures reader.new ≡ one_more (reader_failures reader.old) }
    ensures same { result ≢ Err CaseFault.Read → reader_failures reader.new ≡ reader_failures reader.old }
{
    match reader.next_into(item) {
        Ok(()) => Ok(()),
        Err(SourceFault::Text(fault)) => Err(trace_fault(fault)),
        Err(SourceFault::Read) => Err(CaseFault::Read),
    }
}

// Reads on to the end of a trace whose header was read.
fn drain_lines<A: BufRead>(reader: &mut TraceReader<A>) -> Result<(), CaseFault>
    requires working { fault_of reader.old ≡ None }
    requires begun { IsBegun reader.old }
    ensures all { IfOk result (λ u. (items : List Line) × IsAll (lines_left A.remaining reader.old) items) }
    ensures fault { IfErr result (λ e. TraceFails e (lines_left A.remaining reader.old)) }
    ensures read { result ≡ Err CaseFault.Read → reader_failures reader.new ≡ one_more (reader_failures reader.old) }
    ensures same { result ≢ Err CaseFault.Read → reader_failures reader.new ≡ reader_failures reader.old }
{
    while skip_line(reader)? {}
    Ok(())
}

// Skips an event line. False if there is none.
fn skip_line<A: BufRead>(reader: &mut TraceReader<A>) -> Result<bool, CaseFault>
    requires working { fault_of reader.old ≡ None }
    requires begun { IsBegun reader.old }
    ensures next { IfOk result (λ more. Skips more (lines_left A.remaining reader.old)
        (lines_left A.remaining reader.new)) }
    ensures place { result ≡ Ok true → ((place_of reader.new).1 ≡ (place_of reader.old).1 + 1)
        × ((place_of reader.old).1 ≤ 10000000) }
    ensures working { IfOk result (λ more. fault_of reader.new ≡ None) }
    ensures begun { IsBegun reader.new }
    ensures fault { IfErr result (λ e. TraceFails e (lines_left A.remaining reader.old)) }
    ensures read { result ≡ Err CaseFault.Read → reader_failures reader.new ≡ one_more (reader_failures reader.old) }
    ensures same { result ≢ Err CaseFault.Read → reader_failures reader.new ≡ reader_failures reader.old }
{
    match reader.skip() {
        Ok(more) => Ok(more),
        Err(SourceFault::Text(fault)) => Err(trace_fault(fault)),
        Err(SourceFault::Read) => Err(CaseFault::Read),
    }
}
