//! Bytes of a text, and the faults of texts, as lines show them.
//!
//! Bytes quoted from a text are escaped, so that a terminal shows them and doesn't obey them.

use case_forms::OutOfMemory;
use line_fields::TextFault;
use std::alloc::Global;
use std::fmt;

// At most this many bytes are shown.
const SHOWN: usize = 160;

/// Bytes of a text, escaped; a long run is cut. Printable ASCII and tabs stay as they are; any other byte becomes `\x`
/// and its two hex digits, such as `\x1b`.
#[derive(Clone, Copy)]
pub struct Shown<'t>(pub &'t [u8]);

impl fmt::Display for Shown<'_> {
    fn fmt<W: fmt::Write>(&self, f: &mut fmt::Formatter<W>) -> fmt::Result {
        let count = self.0.len();
        escape_all(f, self.0)?;
        if SHOWN <= count {
            write!(f, " .. ({count} bytes)")
        } else {
            Ok(())
        }
    }
}

fn escape_all<W: fmt::Write>(f: &mut fmt::Formatter<W>, bytes: &[u8]) -> fmt::Result {
    for byte in bytes.iter().take(SHOWN) {
        escape(f, *byte)?;
    }
    Ok(())
}

fn escape<W: fmt::Write>(f: &mut fmt::Formatter<W>, byte: u8) -> fmt::Result {
    if is_shown(byte) {
        write!(f, "{}", char::from(byte))
    } else {
        write!(f, "\\x{byte:02x}")
    }
}

/// Whether `Shown` leaves a byte as it is.
pub fn is_shown(byte: u8) -> bool {
    byte == b'\t' || (0x20 <= byte && byte < 0x7f)
}

/// The line that reports a text's fault.
pub fn fault_line(alloc: Global, refusal: &str, fault: &TextFault) -> Result<String, OutOfMemory> {
    let (span, kind) = (fault.span, fault.kind.name());
    format!(in alloc;
        "{refusal}{} {} {} {kind}\n",
        span.line, span.start, span.stop
    )
}
