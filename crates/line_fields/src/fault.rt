//! Why a text can't be read, and where.

ghost use Rattle.std.specs.Prelude.{◌≡◌, None, Some, IfOk, OnOk, IfErr};
ghost use Rattle.line_fields.specs.Faults.{kind_name, missing_line};
ghost use Rattle.line_fields.specs.declared.fault.FaultKind.TheVariants.{OutOfMemory};

use case_forms::Span;
use segment::SegFault;
use std::alloc::{AllocError, AllocFailed};
use thiserror::Error;

/// The kind of a fault.
#[derive(Clone, Copy, Debug, PartialEq, Eq)]
pub enum FaultKind {
    /// A line of the header has another word, another count of fields, or is missing.
    Header,
    /// A field is missing, empty or one too many, or its word is unknown.
    Field,
    /// A number is not written in decimal as required, or is outside its limits.
    Number,
    /// Hex digits are wrong, or there are too many bytes.
    Hex,
    /// Bytes in hex are not a segment, for this reason.
    Segment(SegFault),
    /// A moment is below that of the line before.
    MomentFalls,
    /// A line has more than 140,000 bytes, not counting its end.
    LineTooLong,
    /// The last line has no LF.
    Cut,
    /// The number of a line is above 10,000,000.
    TooManyLines,
    /// Memory ran out; the text may be valid.
    OutOfMemory,
}

impl FaultKind {
    /// The name under which it is printed.
    pub fn name(self) -> &'static str
        ensures { result.now ≡ kind_name self }
    {
        match self {
            FaultKind::Header => "header",
            FaultKind::Field => "field",
            FaultKind::Number => "number",
            FaultKind::Hex => "hex",
            FaultKind::Segment(fault) => segment_fault_name(fault),
            FaultKind::MomentFalls => "moment-falls",
            FaultKind::LineTooLong => "line-too-long",
            FaultKind::Cut => "cut",
            FaultKind::TooManyLines => "too-many-lines",
            FaultKind::OutOfMemory => "memory",
        }
    }
}

// The name of a segment's fault, after a word.
fn segment_fault_name(fault: SegFault) -> &'static str
    ensures { result.now ≡ kind_name (FaultKind.Segment fault) }
{
    match fault {
        SegFault::Short => "segment short",
        SegFault::Offset => "segment offset",
        SegFault::OptionLength => "segment option-length",
        SegFault::TooLong => "segment too-long",
        SegFault::OutOfMemory => "segment memory",
    }
}

/// The first fault of a text, and its place. If memory ran out, the place has no meaning.
#[derive(Clone, Copy, Debug, PartialEq, Eq, Error)]
#[error("line {}, columns {} to {}: {kind:?}", .span.line, .span.start, .span.stop)]
pub struct TextFault {
    pub kind: FaultKind,
    pub span: Span,
}

impl TextFault {
    /// The fault for a missing line of the header.
    pub fn missing_line(number: u64) -> TextFault
        ensures { result ≡ missing_line number }
    {
        TextFault {
            kind: FaultKind::Header,
            span: Span {
                line: number,
                start: 0,
                stop: 0,
            },
        }
    }

    /// If memory runs out, no line is at fault.
    pub fn out_of_memory() -> TextFault
        ensures { result.kind ≡ FaultKind.OutOfMemory }
    {
        TextFault {
            kind: FaultKind::OutOfMemory,
            span: Span {
                line: 0,
                start: 0,
                stop: 0,
            },
        }
    }
}

impl From<AllocError> for TextFault {
    ghost from_gives = { λ _ e. e.kind ≡ OutOfMemory };

    fn from(_e: AllocError) -> TextFault {
        TextFault::out_of_memory()
    }
}

impl<T: Drop> From<AllocFailed<T>> for TextFault {
    ghost from_gives = { λ _ e. e.kind ≡ OutOfMemory };

    fn from(_e: AllocFailed<T>) -> TextFault {
        TextFault::out_of_memory()
    }
}

/// Why a text that is read line by line can't be read further.
#[derive(Clone, Copy, Debug, PartialEq, Eq, Error)]
pub enum SourceFault {
    /// The text that was read has a fault, or memory ran out.
    #[error("{0}")]
    Text(TextFault),
    /// A read failed.
    #[error("a read failed")]
    Read,
}

impl From<TextFault> for SourceFault {
    ghost use Rattle.line_fields.specs.declared.fault.SourceFault.TheVariants.{Text};

    ghost from_gives = { λ e fault. fault ≡ Text e };

    fn from(e: TextFault) -> SourceFault {
        SourceFault::Text(e)
    }
}

/// The fault of a text in memory. A read of it fails only if its `Counted` made 2^50 reads before, more than any text
/// in memory needs. That is reported as if memory had run out.
impl From<SourceFault> for TextFault {
    ghost use Rattle.line_fields.specs.Faults.{IsTextFault};

    ghost from_gives = { IsTextFault };

    fn from(fault: SourceFault) -> TextFault {
        match fault {
            SourceFault::Text(e) => e,
            SourceFault::Read => TextFault::out_of_memory(),
        }
    }
}

/// What a reader that keeps its first fault returns before it reads on: that fault, if it met one.
#[inline(always)]
pub fn none_kept(fault: Option<SourceFault>) -> Result<(), SourceFault>
    ensures open { OnOk result (fault ≡ None) }
    ensures kept { IfErr result (λ f. fault ≡ Some f) }
{
    match fault {
        Some(fault) => Err(fault),
        None => Ok(()),
    }
}

/// What such a reader returns after it read on: what was read. A fault is kept for later calls.
#[inline(always)]
pub fn keep_fault<T>(
    fault: &mut Option<SourceFault>,
    read: Result<T, SourceFault>,
) -> Result<T, SourceFault>
    ensures read { result ≡ read }
    ensures open { IfOk result (λ x. fault.new ≡ fault.old) }
    ensures kept { IfErr result (λ f. fault.new ≡ Some f) }
{
    if let Err(met) = &read {
        *fault = Some(*met);
    }
    read
}
