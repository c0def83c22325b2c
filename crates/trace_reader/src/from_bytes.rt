//! A whole text, read from bytes.

ghost use Rattle.std.specs.Prelude.{IfOk, Ok};
ghost use Rattle.case_forms.specs.declared.trace.Trace.{Trace};
ghost use Rattle.case_forms.specs.Traces.{IsTrace};
ghost use Rattle.line_fields.specs.Reading.{Gives};
ghost use Rattle.trace_reader.specs.TraceText.{IsTraceText, trace_of};

use crate::stream::TraceReader;
use case_forms::{Lines, Trace};
use counted::Counted;
use line_fields::TextFault;
use std::alloc::Global;

// The trace, or the first fault.
fn read(alloc: Global, text: &[u8]) -> Result<Trace, TextFault>
    ensures { Gives (λ trace. trace) result (trace_of text.now) }
{
    let mut reader = TraceReader::new(alloc, Counted::new(text));
    let header = reader.header()?;
    let mut lines = Lines::new(alloc);
    while let Some(line) = reader.next()? {
        lines.push(line)?;
    }
    Ok(Trace { header, lines })
}

/// The trace that a text spells, or the text's first fault with its place.
pub fn read_trace(alloc: Global, text: &[u8]) -> Result<Trace, TextFault>
    // What is read is spelled so.
    ensures found { IfOk result (λ trace. IsTraceText trace text.now) }
    // What is spelled so is read, unless memory runs out.
    ensures only { (t : Trace) → IsTraceText t text.now → Gives (λ trace. trace) result (Ok t) }
    // Which fault is returned.
    ensures exact { Gives (λ trace. trace) result (trace_of text.now) }
    // The lines are numbered consecutively, and no moment falls.
    ensures recorded { IfOk result IsTrace }
{
    read(alloc, text)
}
