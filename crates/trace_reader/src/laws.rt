//! The reader returns the first fault.

ghost use Rattle.std.specs.Prelude.{◌≡◌, ◌↔◌, ℕ, List, Err};
ghost use Rattle.case_forms.specs.declared.version.Version.{Version};
ghost use Rattle.line_fields.specs.declared.fault.TextFault.{TextFault};
ghost use Rattle.trace_reader.specs.EventLines.{Place, behind, line_of};
ghost use Rattle.line_fields.specs.Folding.{read_lines};
ghost use Rattle.trace_reader.specs.EventForms.{IsLineFault, IsEventsFault};
ghost use Rattle.trace_reader.specs.HeaderForms.{IsHeaderFault};
ghost use Rattle.trace_reader.specs.Headers.{header_of};
ghost use Rattle.trace_reader.specs.TraceFaults.{IsTraceFault};
ghost use Rattle.trace_reader.specs.TraceText.{trace_of};

/// Reading an event line gives this fault if and only if it is the line's first one: that of the line as a whole, or
/// else that of the first field that doesn't fit the form of an event line.
pub fn event_line_faults()
    ensures { (v : Version) (place : Place) (raw : List ℕ) (e : TextFault) → (line_of v place raw ≡ Err e)
        ↔ IsLineFault v place raw e }
{}

/// Reading event lines from a place on gives this fault if and only if it is the first fault of the first line that has
/// one, and those before it are spelled as event lines.
pub fn first_event_fault()
    ensures { (v : Version) (place : Place) (raws : List (List ℕ)) (e : TextFault)
        → (read_lines (line_of v) behind place raws ≡ Err e)
        ↔ IsEventsFault v place raws e }
{}

/// Reading a header, given by its lines, gives this fault if and only if it is the header's first one. That is the
/// fault of the first line, which is missing, has a fault as a whole or names no version. Or the first line is right,
/// those after it are each a name and a value as their version requires, and the next one is missing or has this fault
/// as a whole or by its form.
pub fn header_faults()
    ensures { (raws : List (List ℕ)) (e : TextFault) → (header_of raws ≡ Err e) ↔ IsHeaderFault raws e }
{}

/// Reading a text as a trace gives this fault if and only if it is the text's first one: that of its header, or, if the
/// text begins with a header, that of the event lines after it.
pub fn trace_faults()
    ensures { (text : List ℕ) (e : TextFault) → (trace_of text ≡ Err e) ↔ IsTraceFault text e }
{}
