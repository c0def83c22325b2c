//! A line of a text that can't be read, with a mark under its columns.

use line_fields::{FaultKind, TextFault};
use plain_words::{Sheet, Shown, is_shown};
use replayed::line_at;
use segment::SegFault;

// How many bytes before the mark are shown.
const BEFORE: usize = 60;

// How many bytes are shown in all.
const SHOWN: usize = 110;

/// Writes the line with the fault, and a mark under its columns.
pub(crate) fn mark(out: &mut Sheet, text: &[u8], fault: &TextFault) {
    let meaning = meaning(fault.kind);
    let Some(line) = line_at(text, fault.span.line) else {
        out.put("the text ends before this line: ");
        out.put(meaning);
        out.put("\n");
        return;
    };
    let from = fault.span.start.saturating_sub(BEFORE);
    let left = line.get(from..).unwrap_or(&[]);
    let shown = left.get(..SHOWN).unwrap_or(left);
    let before = fault.span.start.saturating_sub(from);
    let marked = fault.span.stop.saturating_sub(fault.span.start);
    out.put("  ");
    out.show(&Shown(shown));
    out.put("\n  ");
    push_blank(out, shown.get(..before).unwrap_or(shown));
    push_marks(out, shown.get(before..).unwrap_or(&[]), marked);
    out.put("\n");
    out.put(meaning);
    out.put("\n");
}

// Writes a space under each column of the bytes shown, and a tab under a tab.
fn push_blank(out: &mut Sheet, bytes: &[u8]) {
    for byte in bytes {
        out.put(match *byte {
            b'\t' => "\t",
            byte if is_shown(byte) => " ",
            _ => "    ",
        });
    }
}

// Writes marks under the first `count` of the bytes shown; one mark if there are none.
fn push_marks(out: &mut Sheet, bytes: &[u8], count: usize) {
    let start = out.len();
    for byte in bytes.iter().take(count) {
        out.put(if is_shown(*byte) { "^" } else { "^^^^" });
    }
    if out.len() == start {
        out.put("^");
    }
}

fn meaning(kind: FaultKind) -> &'static str {
    match kind {
        FaultKind::Header =>
            "a header line is missing, is another line, or isn't exactly a word and a value",
        FaultKind::Field => "a field is an unknown word, empty, missing or too many",
        FaultKind::Number =>
            "the number is badly written (a sign, a leading zero) or outside its limits",
        FaultKind::Hex =>
            "an odd count of hex digits, a character that is no digit, or too many bytes",
        FaultKind::Segment(fault) => meaning_of_segment(fault),
        FaultKind::MomentFalls => "the moment is below that of the event line before it",
        FaultKind::LineTooLong => "a line has at most 140,000 bytes",
        FaultKind::Cut => "the last line has no line feed: the text was cut off",
        FaultKind::TooManyLines => "a text has at most 10,000,000 lines",
        FaultKind::OutOfMemory => "memory ran out",
    }
}

fn meaning_of_segment(fault: SegFault) -> &'static str {
    match fault {
        SegFault::Short => "a TCP segment has at least 20 bytes",
        SegFault::Offset => "the TCP header's data offset is below 5, or points past the last byte",
        SegFault::OptionLength =>
            "an option of the TCP header is shorter than 2 bytes, or longer than the header",
        SegFault::TooLong => "a TCP segment has at most 65,515 bytes",
        SegFault::OutOfMemory => "memory ran out",
    }
}
