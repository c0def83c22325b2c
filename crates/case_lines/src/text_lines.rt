//! The lines of a trace's text, which are all lines of a source, or those of a case before its witness.

ghost use Rattle.std.specs.Prelude.{◌≡◌, ◌≢◌, Err, Ok, OnOk, true, false};
ghost use Rattle.counted.specs.Counting.{one_more};
ghost use Rattle.line_fields.specs.declared.fault.TextFault.{TextFault};
ghost use Rattle.line_fields.specs.Rows.{TakesRow, HasNoRow, next_text, needed_text, FailsAt};
ghost use Rattle.case_lines.specs.CaseLines.{end_with, end_after, has_met, IsOpen, IsAtEnd, KeepsWitness};
ghost use Rattle.case_lines.specs.TextLeft.{lines_source, end_of, last_raw, rows_left, witness_left, text_failures};

use crate::first_line::version_of_line;
use case_forms::Version;
use counted::Counted;
use line_fields::{SourceFault, TextFault, next_line};
use std::alloc::Global;
use std::io::BufRead;
use witness::begins_witness;

/// Where the text of a trace ends.
#[derive(Clone, Copy)]
pub enum TextEnd {
    /// With its source.
    Source,
    /// Before the first line that begins a witness of the version that the first line names, or with the source.
    /// Nothing was read.
    Case,
    /// Before the first line that begins a witness of this version, or with the source.
    Witness(Version),
    /// It has ended: the line that begins the witness was read.
    Met,
    /// It has ended with the source, without a witness.
    Over,
}

impl TextEnd {
    // Where it ends after this line, which may begin the witness.
    #[inline(always)]
    fn after(self, raw: &[u8]) -> TextEnd
        ensures { result ≡ end_after self raw.now }
    {
        match self {
            TextEnd::Case => before_witness(version_of_line(raw), raw),
            TextEnd::Witness(version) => before_witness(version, raw),
            end => end,
        }
    }
}

// Where the text of a case ends after this line.
#[inline(always)]
fn before_witness(version: Version, raw: &[u8]) -> TextEnd
    ensures { result ≡ end_with version raw.now }
{
    if begins_witness(version, raw) {
        TextEnd::Met
    } else {
        TextEnd::Witness(version)
    }
}

/// The lines of a trace's text. Only the line that was read last is kept, and 8 KiB at most of what follows it.
#[derive(Drop)]
pub struct TextLines<A> {
    alloc: Global,
    source: Counted<A>,
    end: TextEnd,
}

impl<A> TextLines<A> {
    /// The lines of a source, of which nothing was read; the text ends there.
    pub fn new(alloc: Global, source: Counted<A>, end: TextEnd) -> TextLines<A>
        ensures source { lines_source result ≡ source }
        ensures end { end_of result ≡ end }
    {
        TextLines { alloc, source, end }
    }

    /// The source: what was requested has been read.
    pub fn into_source(self) -> Counted<A>
        ensures { result ≡ lines_source self }
    {
        self.source
    }

    /// Whether the line that begins the witness was read.
    pub fn has_met(&self) -> bool
        ensures { result ≡ has_met (end_of self.now) }
    {
        matches!(self.end, TextEnd::Met)
    }

    /// The bytes of the line that was read last, with its end.
    #[inline(always)]
    pub fn raw(&self) -> &[u8]
        ensures { result.now ≡ last_raw self.now }
    {
        self.source.line()
    }
}

impl<A: BufRead> TextLines<A> {
    /// Reads the next line, which has this number. False at the end of the text. The error is a line that is too long,
    /// a failed read, or that memory ran out.
    #[inline(always)]
    pub fn next_line(&mut self, number: u64) -> Result<bool, SourceFault>
        ensures line { result ≡ Ok true → TakesRow (rows_left A.remaining self.old) (rows_left A.remaining self.new)
            (last_raw self.new) }
        ensures none { result ≡ Ok false → HasNoRow (rows_left A.remaining self.old) (rows_left A.remaining self.new) }
        ensures ended { result ≡ Ok false → IsAtEnd (end_of self.new) }
        ensures witness { OnOk result
            (KeepsWitness (witness_left A.remaining self.old) (witness_left A.remaining self.new)) }
        ensures fault { (e : TextFault) → result ≡ Err (SourceFault.Text e)
            → FailsAt (next_text number) e (rows_left A.remaining self.old) }
        ensures read { result ≡ Err SourceFault.Read → text_failures self.new ≡ one_more (text_failures self.old) }
        ensures same { result ≢ Err SourceFault.Read → text_failures self.new ≡ text_failures self.old }
    {
        match self.end {
            TextEnd::Source => next_line(&mut self.source, self.alloc, number),
            TextEnd::Met | TextEnd::Over => Ok(false),
            TextEnd::Case | TextEnd::Witness(_) => self.next_of_case(number),
        }
    }

    // The same for a case whose witness wasn't met.
    #[inline(always)]
    fn next_of_case(&mut self, number: u64) -> Result<bool, SourceFault>
        requires { IsOpen (end_of self.old) }
        ensures line { result ≡ Ok true → TakesRow (rows_left A.remaining self.old) (rows_left A.remaining self.new)
            (last_raw self.new) }
        ensures none { result ≡ Ok false → HasNoRow (rows_left A.remaining self.old) (rows_left A.remaining self.new) }
        ensures ended { result ≡ Ok false → IsAtEnd (end_of self.new) }
        ensures witness { OnOk result
            (KeepsWitness (witness_left A.remaining self.old) (witness_left A.remaining self.new)) }
        ensures fault { (e : TextFault) → result ≡ Err (SourceFault.Text e)
            → FailsAt (next_text number) e (rows_left A.remaining self.old) }
        ensures read { result ≡ Err SourceFault.Read → text_failures self.new ≡ one_more (text_failures self.old) }
        ensures same { result ≢ Err SourceFault.Read → text_failures self.new ≡ text_failures self.old }
    {
        if !next_line(&mut self.source, self.alloc, number)? {
            self.end = TextEnd::Over;
            return Ok(false);
        }
        self.end = self.end.after(self.source.line());
        Ok(!self.has_met())
    }

    /// Reads the next line, which must exist. A missing one is Header at its number, columns 0 to 0.
    pub fn require_line(&mut self, number: u64) -> Result<(), SourceFault>
        ensures line { OnOk result (TakesRow (rows_left A.remaining self.old) (rows_left A.remaining self.new)
            (last_raw self.new)) }
        ensures witness { OnOk result
            (KeepsWitness (witness_left A.remaining self.old) (witness_left A.remaining self.new)) }
        ensures fault { (e : TextFault) → result ≡ Err (SourceFault.Text e)
            → FailsAt (needed_text number) e (rows_left A.remaining self.old) }
        ensures read { result ≡ Err SourceFault.Read → text_failures self.new ≡ one_more (text_failures self.old) }
        ensures same { result ≢ Err SourceFault.Read → text_failures self.new ≡ text_failures self.old }
    {
        if self.next_line(number)? {
            return Ok(());
        }
        Err(SourceFault::Text(TextFault::missing_line(number)))
    }
}
