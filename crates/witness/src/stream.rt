//! The reader of a witness whose steps are read on request.

ghost use Rattle.std.specs.Prelude.{◌≡◌, ◌≢◌, IfOk, OnOk, IfSome, Some, None, Err};
ghost use Rattle.counted.specs.Counting.{left_of, failures_of, one_more};
ghost use Rattle.line_fields.specs.declared.fault.TextFault.{TextFault};
ghost use Rattle.line_fields.specs.declared.fault.SourceFault.{SourceFault};
ghost use Rattle.line_fields.specs.Rows.{rows_of, rest_alone, Reads};
ghost use Rattle.line_fields.specs.Left.{Yields, FailsLeft, Remains};
ghost use Rattle.witness.specs.WitnessText.{number_after};
ghost use Rattle.witness.specs.StepsLeft.{first_line, source_of, version_of, number_read, number_of, fault_of};
ghost use Rattle.witness.specs.StepsLeft.{steps_left, reader_failures, StandsAt};

use crate::from_bytes::read_step_into;
use case_forms::{Step, Version};
use counted::Counted;
use line_fields::{
    FIRST_STEP, SourceFault, expect_line, first_text, keep_fault, next_line, none_kept,
    require_line,
};
use std::alloc::Global;
use std::io::BufRead;

/// A witness of some version, whose steps are read on request. Only one line of the text is kept in memory, and 8 KiB
/// at most of what follows it. After a fault, each later call returns that fault.
#[derive(Drop)]
pub struct StepReader<B> {
    alloc: Global,
    version: Version,
    source: Counted<B>,
    // The number of the next line, none before the first line is read.
    number: Option<u64>,
    fault: Option<SourceFault>,
}

// The first line, which has a fixed text.
fn first_line<B: BufRead>(
    source: &mut Counted<B>,
    alloc: Global,
    version: Version,
) -> Result<(), SourceFault>
    ensures line { Reads rest_alone (first_line version) (rows_of (left_of B.remaining source.old))
        (rows_of (left_of B.remaining source.new)) result }
    ensures read { result ≡ Err SourceFault.Read → failures_of source.new ≡ one_more (failures_of source.old) }
    ensures same { result ≢ Err SourceFault.Read → failures_of source.new ≡ failures_of source.old }
{
    require_line(source, alloc, 1)?;
    expect_line(1, first_text(version), source.line())?;
    Ok(())
}

impl<B> StepReader<B> {
    /// A reader of a whole text for a trace of this version, of which nothing has been read yet. A witness of another
    /// version has the fault of its first line, Header.
    pub fn new(alloc: Global, version: Version, source: Counted<B>) -> StepReader<B>
        ensures source { source_of result ≡ source }
        ensures version { version_of result ≡ version }
        ensures fresh { number_read result ≡ None }
        ensures open { fault_of result ≡ None }
    {
        StepReader {
            alloc,
            version,
            source,
            number: None,
            fault: None,
        }
    }

    /// A reader of the rest of a text for a trace of this version, of which only the first line was read, and names
    /// this version.
    pub fn behind_first_line(alloc: Global, version: Version, source: Counted<B>) -> StepReader<B>
        ensures source { source_of result ≡ source }
        ensures version { version_of result ≡ version }
        ensures first { number_read result ≡ Some 2 }
        ensures open { fault_of result ≡ None }
    {
        StepReader {
            alloc,
            version,
            source,
            number: Some(FIRST_STEP),
            fault: None,
        }
    }

    /// The source, of which only what was requested has been read.
    pub fn into_source(self) -> Counted<B>
        ensures { result ≡ source_of self }
    {
        self.source
    }
}

impl<B: BufRead> StepReader<B> {
    /// The next step, or `None` at the end of the text. The error is the first fault, or a failed read.
    #[inline(always)]
    pub fn next(&mut self) -> Result<Option<Step>, SourceFault>
        ensures next { fault_of self.old ≡ None → IfOk result
            (Yields (steps_left B.remaining self.old) (steps_left B.remaining self.new)) }
        ensures place { IfOk result (λ item. IfSome item
            (λ step. StandsAt (version_of self.old) (number_of self.old) step
            × (number_of self.new ≡ number_after (number_of self.old) step))) }
        ensures fault { (e : TextFault) → fault_of self.old ≡ None → result ≡ Err (SourceFault.Text e)
            → FailsLeft e (steps_left B.remaining self.old) }
        ensures again { (f : SourceFault) → fault_of self.old ≡ Some f → result ≡ Err f }
        ensures stays { (f : SourceFault) → fault_of self.old ≡ Some f → self.new ≡ self.old }
        ensures kept { (f : SourceFault) → result ≡ Err f → fault_of self.new ≡ Some f }
        ensures open { IfOk result (λ item. fault_of self.new ≡ None) }
        ensures version { version_of self.new ≡ version_of self.old }
        ensures read { fault_of self.old ≡ None → result ≡ Err SourceFault.Read
            → reader_failures self.new ≡ one_more (reader_failures self.old) }
        ensures same { result ≢ Err SourceFault.Read → reader_failures self.new ≡ reader_failures self.old }
    {
        let mut item = None;
        self.next_into(&mut item)?;
        Ok(item)
    }

    /// Reads the next step into the item, or `None` at the end of the text. After a fault, the item may be anything.
    /// This avoids moving the step from call to call.
    #[inline(always)]
    pub fn next_into(&mut self, item: &mut Option<Step>) -> Result<(), SourceFault>
        ensures next { fault_of self.old ≡ None → OnOk result
            (Yields (steps_left B.remaining self.old) (steps_left B.remaining self.new) item.new) }
        ensures place { OnOk result (IfSome item.new (λ step. StandsAt (version_of self.old) (number_of self.old) step
            × (number_of self.new ≡ number_after (number_of self.old) step))) }
        ensures fault { (e : TextFault) → fault_of self.old ≡ None → result ≡ Err (SourceFault.Text e)
            → FailsLeft e (steps_left B.remaining self.old) }
        ensures again { (f : SourceFault) → fault_of self.old ≡ Some f → result ≡ Err f }
        ensures stays { (f : SourceFault) → fault_of self.old ≡ Some f → self.new ≡ self.old }
        ensures kept { (f : SourceFault) → result ≡ Err f → fault_of self.new ≡ Some f }
        ensures open { OnOk result (fault_of self.new ≡ None) }
        ensures version { version_of self.new ≡ version_of self.old }
        ensures read { fault_of self.old ≡ None → result ≡ Err SourceFault.Read
            → reader_failures self.new ≡ one_more (reader_failures self.old) }
        ensures same { result ≢ Err SourceFault.Read → reader_failures self.new ≡ reader_failures self.old }
    {
        none_kept(self.fault)?;
        let read = self.read(item);
        keep_fault(&mut self.fault, read)
    }

    // Reads the next step into the item, if no fault was met.
    #[inline(always)]
    fn read(&mut self, item: &mut Option<Step>) -> Result<(), SourceFault>
        ensures next { OnOk result
            (Yields (steps_left B.remaining self.old) (steps_left B.remaining self.new) item.new) }
        ensures place { OnOk result (IfSome item.new (λ step. StandsAt (version_of self.old) (number_of self.old) step
            × (number_of self.new ≡ number_after (number_of self.old) step))) }
        ensures fault { (e : TextFault) → result ≡ Err (SourceFault.Text e)
            → FailsLeft e (steps_left B.remaining self.old) }
        ensures open { fault_of self.new ≡ fault_of self.old }
        ensures version { version_of self.new ≡ version_of self.old }
        ensures read { result ≡ Err SourceFault.Read → reader_failures self.new ≡ one_more (reader_failures self.old) }
        ensures same { result ≢ Err SourceFault.Read → reader_failures self.new ≡ reader_failures self.old }
    {
        let number = self.begin()?;
        self.read_line(number, item)
    }

    // The number of the next line. Before the first step the first line is read.
    #[inline(always)]
    fn begin(&mut self) -> Result<u64, SourceFault>
        ensures remains { OnOk result (Remains (steps_left B.remaining self.old) (steps_left B.remaining self.new)) }
        ensures number { IfOk result (λ number. (number_read self.new ≡ Some number) × (number ≡ number_of self.old)) }
        ensures fault { (e : TextFault) → result ≡ Err (SourceFault.Text e)
            → FailsLeft e (steps_left B.remaining self.old) }
        ensures open { fault_of self.new ≡ fault_of self.old }
        ensures version { version_of self.new ≡ version_of self.old }
        ensures read { result ≡ Err SourceFault.Read → reader_failures self.new ≡ one_more (reader_failures self.old) }
        ensures same { result ≢ Err SourceFault.Read → reader_failures self.new ≡ reader_failures self.old }
    {
        if let Some(number) = self.number {
            return Ok(number);
        }
        first_line(&mut self.source, self.alloc, self.version)?;
        self.number = Some(FIRST_STEP);
        Ok(FIRST_STEP)
    }

    // Reads the step of the next line, which has this number, into the item.
    #[inline(always)]
    fn read_line(&mut self, number: u64, item: &mut Option<Step>) -> Result<(), SourceFault>
        requires { number_read self.old ≡ Some number }
        ensures next { OnOk result
            (Yields (steps_left B.remaining self.old) (steps_left B.remaining self.new) item.new) }
        ensures place { OnOk result (IfSome item.new (λ step. StandsAt (version_of self.old) number step ×
            (number_read self.new ≡ Some (number_after number step)))) }
        ensures fault { (e : TextFault) → result ≡ Err (SourceFault.Text e)
            → FailsLeft e (steps_left B.remaining self.old) }
        ensures open { fault_of self.new ≡ fault_of self.old }
        ensures version { version_of self.new ≡ version_of self.old }
        ensures read { result ≡ Err SourceFault.Read → reader_failures self.new ≡ one_more (reader_failures self.old) }
        ensures same { result ≢ Err SourceFault.Read → reader_failures self.new ≡ reader_failures self.old }
    {
        if !next_line(&mut self.source, self.alloc, number)? {
            *item = None;
            return Ok(());
        }
        read_step_into(self.alloc, self.version, number, self.source.line(), item)?;
        self.number = Some(number + 1);
        Ok(())
    }
}
