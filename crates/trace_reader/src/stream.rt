//! The reader of a trace whose lines are read on request.

ghost use Rattle.std.specs.Prelude.{◌≡◌, ◌≢◌, ◌≤◌, ◌+◌, ℕ, List, [], IfOk, OnOk, IfSome, Some, None, Ok, Err};
ghost use Rattle.std.specs.Prelude.{true, false};
ghost use Rattle.std.specs.Borrow.{Bor};
ghost use Rattle.case_forms.specs.declared.trace.Line.{Line};
ghost use Rattle.counted.specs.Counting.{one_more};
ghost use Rattle.line_fields.specs.declared.fault.TextFault.{TextFault};
ghost use Rattle.line_fields.specs.declared.fault.SourceFault.{SourceFault};
ghost use Rattle.line_fields.specs.Left.{Yields, FailsLeft};
ghost use Rattle.trace_reader.specs.EventLines.{behind};
ghost use Rattle.trace_reader.specs.TraceText.{first_place};
ghost use Rattle.case_lines.specs.CaseLines.{has_met, KeepsWitness};
ghost use Rattle.trace_reader.specs.TraceLeft.{source_of, place_of, version_of, fault_of, kept_of, end_of_text};
ghost use Rattle.trace_reader.specs.TraceLeft.{IsFresh, IsBegun, IsReadThrough, trace_left, lines_left, rows_behind};
ghost use Rattle.trace_reader.specs.TraceLeft.{Begins, reader_failures, StandsAt, AreAt, KeepsLine};

use crate::events::event_line;
use crate::header::header;
use crate::kept_events::keep_event_line;
use case_forms::{Header, Line, Version};
use case_lines::{KeptLines, TextEnd, TextLines};
use counted::Counted;
use line_fields::{SourceFault, TextFault, after_line, keep_fault};
use std::alloc::Global;
use std::io::BufRead;

/// A trace whose lines are read on request, first its header. Only one line of the text is kept in memory. After a
/// fault, each later call returns that fault.
#[derive(Drop)]
pub struct TraceReader<A> {
    alloc: Global,
    text: TextLines<A>,
    // Lines that were read before, and come before those of the text.
    kept: KeptLines,
    // The version that the header names, 1 before it is read.
    version: Version,
    // The moment of the event line before, 0 before the first.
    before: u64,
    // The number of the next line, 1 before the header is read.
    number: u64,
    fault: Option<SourceFault>,
}

impl<A> TraceReader<A> {
    /// A reader of a whole text, of which nothing has been read yet.
    pub fn new(alloc: Global, source: Counted<A>) -> TraceReader<A>
        ensures source { source_of result ≡ source }
        ensures end { end_of_text result ≡ TextEnd.Source }
        ensures fresh { IsFresh result }
        ensures open { fault_of result ≡ None }
    {
        TraceReader::before_end(alloc, source, TextEnd::Source)
    }

    /// A reader of the trace of a case, of which nothing has been read yet. The trace ends before the first line that
    /// begins a witness of the version that its own first line names, or with the source.
    pub fn of_case(alloc: Global, source: Counted<A>) -> TraceReader<A>
        ensures source { source_of result ≡ source }
        ensures end { end_of_text result ≡ TextEnd.Case }
        ensures fresh { IsFresh result }
        ensures open { fault_of result ≡ None }
    {
        TraceReader::before_end(alloc, source, TextEnd::Case)
    }

    // A reader of the text that ends there.
    fn before_end(alloc: Global, source: Counted<A>, end: TextEnd) -> TraceReader<A>
        ensures source { source_of result ≡ source }
        ensures end { end_of_text result ≡ end }
        ensures fresh { IsFresh result }
        ensures open { fault_of result ≡ None }
    {
        TraceReader {
            alloc,
            text: TextLines::new(alloc, source, end),
            kept: KeptLines::new(alloc),
            version: Version::One,
            before: 0,
            number: 1,
            fault: None,
        }
    }

    /// The source, of which only what was requested has been read.
    pub fn into_source(self) -> Counted<A>
        ensures { result ≡ source_of self }
    {
        self.text.into_source()
    }

    /// Whether the line that begins the case's witness was read.
    pub fn has_met_witness(&self) -> bool
        ensures { result ≡ has_met (end_of_text self.now) }
    {
        self.text.has_met()
    }
}

impl TraceReader<&'static [u8]> {
    /// A reader of event lines that were read before, after this header.
    pub fn of_lines(alloc: Global, header: &Header, lines: KeptLines) -> TraceReader<&'static [u8]>
        requires { AreAt (first_place header.now) lines }
        ensures lines { lines_left (λ (text : Bor (List ℕ)). Some text.now) result ≡ Some (Ok lines) }
        ensures place { place_of result ≡ first_place header.now }
        ensures begun { IsBegun result }
        ensures open { fault_of result ≡ None }
    {
        TraceReader {
            alloc,
            text: TextLines::new(alloc, Counted::new(b"".as_slice()), TextEnd::Over),
            kept: lines,
            version: header.version,
            before: 0,
            number: header.first_event_line(),
            fault: None,
        }
    }
}

impl<A: BufRead> TraceReader<A> {
    /// Reads the header, which comes before any event line. The error is the first fault, or a failed read.
    pub fn header(&mut self) -> Result<Header, SourceFault>
        requires { IsFresh self.old }
        ensures header { fault_of self.old ≡ None
            → IfOk result (Begins (trace_left A.remaining self.old) (lines_left A.remaining self.new)) }
        ensures place { IfOk result (λ header. place_of self.new ≡ first_place header) }
        ensures version { IfOk result (λ header. version_of self.new ≡ header.version) }
        ensures none { kept_of self.new ≡ kept_of self.old }
        ensures fault { (e : TextFault) → fault_of self.old ≡ None → result ≡ Err (SourceFault.Text e)
            → FailsLeft e (trace_left A.remaining self.old) }
        ensures witness { fault_of self.old ≡ None → IfOk result (λ header.
            KeepsWitness (rows_behind A.remaining self.old) (rows_behind A.remaining self.new)) }
        ensures again { (f : SourceFault) → fault_of self.old ≡ Some f → result ≡ Err f }
        ensures stays { (f : SourceFault) → fault_of self.old ≡ Some f → self.new ≡ self.old }
        ensures kept { (f : SourceFault) → result ≡ Err f → fault_of self.new ≡ Some f }
        ensures open { IfOk result (λ header. fault_of self.new ≡ None) }
        ensures begun { IsBegun self.new }
        ensures read { fault_of self.old ≡ None → result ≡ Err SourceFault.Read
            → reader_failures self.new ≡ one_more (reader_failures self.old) }
        ensures same { result ≢ Err SourceFault.Read → reader_failures self.new ≡ reader_failures self.old }
    {
        if let Some(fault) = self.fault {
            return Err(fault);
        }
        let read = header(&mut self.text);
        let header = keep_fault(&mut self.fault, read)?;
        self.version = header.version;
        self.number = header.first_event_line();
        Ok(header)
    }

    /// The next event line, or `None` at the end of the text. The header must have been read. The error is the first
    /// fault, or a failed read.
    #[inline(always)]
    pub fn next(&mut self) -> Result<Option<Line>, SourceFault>
        requires { IsBegun self.old }
        ensures next { fault_of self.old ≡ None → IfOk result
            (Yields (lines_left A.remaining self.old) (lines_left A.remaining self.new)) }
        ensures place { IfOk result (λ item. IfSome item (λ line. StandsAt (place_of self.old) line
            × (place_of self.new ≡ behind (place_of self.old) line))) }
        ensures fault { (e : TextFault) → fault_of self.old ≡ None → result ≡ Err (SourceFault.Text e)
            → FailsLeft e (lines_left A.remaining self.old) }
        ensures ended { IfOk result (λ item. item ≡ None → IsReadThrough self.new) }
        ensures witness { fault_of self.old ≡ None → IfOk result (λ item.
            KeepsWitness (rows_behind A.remaining self.old) (rows_behind A.remaining self.new)) }
        ensures again { (f : SourceFault) → fault_of self.old ≡ Some f → result ≡ Err f }
        ensures stays { (f : SourceFault) → fault_of self.old ≡ Some f → self.new ≡ self.old }
        ensures kept { (f : SourceFault) → result ≡ Err f → fault_of self.new ≡ Some f }
        ensures open { IfOk result (λ item. fault_of self.new ≡ None) }
        ensures begun { IsBegun self.new }
        ensures version { version_of self.new ≡ version_of self.old }
        ensures read { fault_of self.old ≡ None → result ≡ Err SourceFault.Read
            → reader_failures self.new ≡ one_more (reader_failures self.old) }
        ensures same { result ≢ Err SourceFault.Read → reader_failures self.new ≡ reader_failures self.old }
    {
        let mut item = None;
        self.next_into(&mut item)?;
        Ok(item)
    }

    /// Reads the next event line into the item, or `None` at the end of the text. After a fault, the item may be
    /// anything. The header must have been read. This avoids moving the line from call to call.
    #[inline(always)]
    pub fn next_into(&mut self, item: &mut Option<Line>) -> Result<(), SourceFault>
        requires { IsBegun self.old }
        ensures next { fault_of self.old ≡ None → OnOk result
            (Yields (lines_left A.remaining self.old) (lines_left A.remaining self.new) item.new) }
        ensures place { OnOk result (IfSome item.new (λ line. StandsAt (place_of self.old) line
            × (place_of self.new ≡ behind (place_of self.old) line))) }
        ensures fault { (e : TextFault) → fault_of self.old ≡ None → result ≡ Err (SourceFault.Text e)
            → FailsLeft e (lines_left A.remaining self.old) }
        ensures ended { OnOk result (item.new ≡ None → IsReadThrough self.new) }
        ensures witness { fault_of self.old ≡ None → OnOk result
            (KeepsWitness (rows_behind A.remaining self.old) (rows_behind A.remaining self.new)) }
        ensures again { (f : SourceFault) → fault_of self.old ≡ Some f → result ≡ Err f }
        ensures stays { (f : SourceFault) → fault_of self.old ≡ Some f → self.new ≡ self.old }
        ensures kept { (f : SourceFault) → result ≡ Err f → fault_of self.new ≡ Some f }
        ensures open { OnOk result (fault_of self.new ≡ None) }
        ensures begun { IsBegun self.new }
        ensures version { version_of self.new ≡ version_of self.old }
        ensures read { fault_of self.old ≡ None → result ≡ Err SourceFault.Read
            → reader_failures self.new ≡ one_more (reader_failures self.old) }
        ensures same { result ≢ Err SourceFault.Read → reader_failures self.new ≡ reader_failures self.old }
    {
        if let Some(fault) = self.fault {
            return Err(fault);
        }
        let read = self.read_into(item);
        keep_fault(&mut self.fault, read)
    }

    /// Reads over the next event line. False at the end of the text. The header must have been read. The error is the
    /// first fault, or a failed read.
    #[inline(always)]
    pub fn skip(&mut self) -> Result<bool, SourceFault>
        requires { IsBegun self.old }
        ensures next { fault_of self.old ≡ None → result ≡ Ok true → (line : Line)
            × Yields (lines_left A.remaining self.old) (lines_left A.remaining self.new) (Some line) }
        ensures end { fault_of self.old ≡ None → result ≡ Ok false
            → Yields (lines_left A.remaining self.old) (lines_left A.remaining self.new) None }
        ensures place { result ≡ Ok true → ((place_of self.new).1 ≡ (place_of self.old).1 + 1)
            × ((place_of self.old).1 ≤ 10000000) }
        ensures fault { (e : TextFault) → fault_of self.old ≡ None → result ≡ Err (SourceFault.Text e)
            → FailsLeft e (lines_left A.remaining self.old) }
        ensures again { (f : SourceFault) → fault_of self.old ≡ Some f → result ≡ Err f }
        ensures stays { (f : SourceFault) → fault_of self.old ≡ Some f → self.new ≡ self.old }
        ensures kept { (f : SourceFault) → result ≡ Err f → fault_of self.new ≡ Some f }
        ensures open { IfOk result (λ more. fault_of self.new ≡ None) }
        ensures begun { IsBegun self.new }
        ensures version { version_of self.new ≡ version_of self.old }
        ensures read { fault_of self.old ≡ None → result ≡ Err SourceFault.Read
            → reader_failures self.new ≡ one_more (reader_failures self.old) }
        ensures same { result ≢ Err SourceFault.Read → reader_failures self.new ≡ reader_failures self.old }
    {
        match self.next()? {
            Some(_) => Ok(true),
            None => Ok(false),
        }
    }

    // Reads the next event line into the item, if no fault was met.
    #[inline(always)]
    fn read_into(&mut self, item: &mut Option<Line>) -> Result<(), SourceFault>
        requires { AreAt (place_of self.old) (kept_of self.old) }
        ensures next { OnOk result
            (Yields (lines_left A.remaining self.old) (lines_left A.remaining self.new) item.new) }
        ensures place { OnOk result (IfSome item.new (λ line. StandsAt (place_of self.old) line
            × (place_of self.new ≡ behind (place_of self.old) line))) }
        ensures end { OnOk result (item.new ≡ None → place_of self.new ≡ place_of self.old) }
        ensures fault { (e : TextFault) → result ≡ Err (SourceFault.Text e)
            → FailsLeft e (lines_left A.remaining self.old) }
        ensures ended { OnOk result (item.new ≡ None → IsReadThrough self.new) }
        ensures witness { OnOk result
            (KeepsWitness (rows_behind A.remaining self.old) (rows_behind A.remaining self.new)) }
        ensures kept { OnOk result (AreAt (place_of self.new) (kept_of self.new)) }
        ensures open { fault_of self.new ≡ fault_of self.old }
        ensures version { version_of self.new ≡ version_of self.old }
        ensures read { result ≡ Err SourceFault.Read → reader_failures self.new ≡ one_more (reader_failures self.old) }
        ensures same { result ≢ Err SourceFault.Read → reader_failures self.new ≡ reader_failures self.old }
    {
        if !self.kept.is_empty() {
            return self.take_kept(item);
        }
        if !self.text.next_line(self.number)? {
            *item = None;
            return Ok(());
        }
        let line = event_line(
            self.alloc,
            self.version,
            self.before,
            self.number,
            self.text.raw(),
        )?;
        (self.before, self.number) = after_line(line.moment, self.number);
        *item = Some(line);
        Ok(())
    }

    // Takes the first line that was read before.
    #[inline(always)]
    fn take_kept(&mut self, item: &mut Option<Line>) -> Result<(), SourceFault>
        requires lines { AreAt (place_of self.old) (kept_of self.old) }
        requires some { kept_of self.old ≢ [] }
        ensures next { OnOk result
            (Yields (lines_left A.remaining self.old) (lines_left A.remaining self.new) item.new) }
        ensures place { OnOk result (IfSome item.new (λ line. StandsAt (place_of self.old) line
            × (place_of self.new ≡ behind (place_of self.old) line))) }
        ensures item { OnOk result (item.new ≢ None) }
        ensures fault { (e : TextFault) → result ≡ Err (SourceFault.Text e)
            → FailsLeft e (lines_left A.remaining self.old) }
        ensures witness { OnOk result
            (KeepsWitness (rows_behind A.remaining self.old) (rows_behind A.remaining self.new)) }
        ensures kept { OnOk result (AreAt (place_of self.new) (kept_of self.new)) }
        ensures open { fault_of self.new ≡ fault_of self.old }
        ensures version { version_of self.new ≡ version_of self.old }
        ensures read { result ≢ Err SourceFault.Read }
        ensures same { reader_failures self.new ≡ reader_failures self.old }
    {
        if self.kept.take_first(item).is_err() {
            return Err(SourceFault::Text(TextFault::out_of_memory()));
        }
        if let Some(line) = item {
            (self.before, self.number) = after_line(line.moment, self.number);
        }
        Ok(())
    }

    /// Reads the next event line and appends it to the lines. False at the end of the text. The header must have been
    /// read, and no line may have been read before it. What is kept of a line that is written as usual is read into its
    /// place. The error is the first fault, or a failed read; the lines then don't change.
    #[inline(always)]
    pub fn keep_next(&mut self, lines: &mut KeptLines) -> Result<bool, SourceFault>
        requires begun { IsBegun self.old }
        requires none { kept_of self.old ≡ [] }
        ensures next { fault_of self.old ≡ None → result ≡ Ok true →
            KeepsLine (lines_left A.remaining self.old) (lines_left A.remaining self.new) (place_of self.old)
            (place_of self.new) lines.old lines.new }
        ensures end { fault_of self.old ≡ None → result ≡ Ok false
            → Yields (lines_left A.remaining self.old) (lines_left A.remaining self.new) None }
        ensures ended { result ≡ Ok false → IsReadThrough self.new }
        ensures left { result ≢ Ok true → lines.new ≡ lines.old }
        ensures fault { (e : TextFault) → fault_of self.old ≡ None → result ≡ Err (SourceFault.Text e)
            → FailsLeft e (lines_left A.remaining self.old) }
        ensures witness { fault_of self.old ≡ None → OnOk result
            (KeepsWitness (rows_behind A.remaining self.old) (rows_behind A.remaining self.new)) }
        ensures again { (f : SourceFault) → fault_of self.old ≡ Some f → result ≡ Err f }
        ensures stays { (f : SourceFault) → fault_of self.old ≡ Some f → self.new ≡ self.old }
        ensures kept { (f : SourceFault) → result ≡ Err f → fault_of self.new ≡ Some f }
        ensures open { OnOk result (fault_of self.new ≡ None) }
        ensures begun { IsBegun self.new }
        ensures none { kept_of self.new ≡ [] }
        ensures version { version_of self.new ≡ version_of self.old }
        ensures read { fault_of self.old ≡ None → result ≡ Err SourceFault.Read
            → reader_failures self.new ≡ one_more (reader_failures self.old) }
        ensures same { result ≢ Err SourceFault.Read → reader_failures self.new ≡ reader_failures self.old }
    {
        if let Some(fault) = self.fault {
            return Err(fault);
        }
        let read = self.keep_line(lines);
        keep_fault(&mut self.fault, read)
    }

    // Appends the next event line to the lines, if no fault was met.
    #[inline(always)]
    fn keep_line(&mut self, lines: &mut KeptLines) -> Result<bool, SourceFault>
        requires { kept_of self.old ≡ [] }
        ensures next { result ≡ Ok true →
            KeepsLine (lines_left A.remaining self.old) (lines_left A.remaining self.new) (place_of self.old)
            (place_of self.new) lines.old lines.new }
        ensures end { result ≡ Ok false
            → Yields (lines_left A.remaining self.old) (lines_left A.remaining self.new) None }
        ensures stays { result ≡ Ok false → place_of self.new ≡ place_of self.old }
        ensures ended { result ≡ Ok false → IsReadThrough self.new }
        ensures left { result ≢ Ok true → lines.new ≡ lines.old }
        ensures fault { (e : TextFault) → result ≡ Err (SourceFault.Text e)
            → FailsLeft e (lines_left A.remaining self.old) }
        ensures witness { OnOk result
            (KeepsWitness (rows_behind A.remaining self.old) (rows_behind A.remaining self.new)) }
        ensures none { kept_of self.new ≡ [] }
        ensures open { fault_of self.new ≡ fault_of self.old }
        ensures version { version_of self.new ≡ version_of self.old }
        ensures read { result ≡ Err SourceFault.Read → reader_failures self.new ≡ one_more (reader_failures self.old) }
        ensures same { result ≢ Err SourceFault.Read → reader_failures self.new ≡ reader_failures self.old }
    {
        if !self.text.next_line(self.number)? {
            return Ok(false);
        }
        let moment = keep_event_line(
            self.alloc,
            self.version,
            self.before,
            self.number,
            self.text.raw(),
            lines,
        )?;
        (self.before, self.number) = after_line(moment, self.number);
        Ok(true)
    }
}
