//! A verdict, and its text.

ghost use Rattle.std.specs.Prelude.{◌≡◌, ◌++◌, ◌+◌, ◌≤◌, ◌<◌, ◌∷◌, [], Some, length, OnOk, OnErr, IsOk, vec_len};
ghost use Rattle.std.specs.Prelude.{vec_capacity, decimal};
ghost use Rattle.verdict.specs.VerdictText.{two_numbers, verdict_text};

use crate::rule::Rule;
use itoa::Buffer;
use std::alloc::AllocError;
use std::fmt;

/// Whether the steps of a witness explain a trace.
#[derive(Clone, Copy, PartialEq, Eq)]
pub enum Verdict {
    /// The steps explain the trace.
    Yes {
        /// How many event lines the trace has.
        lines: u64,
        /// How many steps use no line (hidden steps).
        hidden: u64,
    },
    /// They don't, and this is the first step that shows it, or what is left after the last step.
    No {
        /// The step's line in the witness, from 1; 0 if no step breaks a rule, but a line is not placed, or a duty is
        /// late after the last step.
        witness_line: u64,
        /// The number of a trace line that the step names, 0 if it names none. Without a step: for the rule `unplaced`,
        /// the first line that is not placed; for `process-late`, the line of the segment that waits; else 0.
        trace_line: u64,
        /// The lowest-numbered rule that is broken.
        rule: Rule,
    },
}

/// Appends the verdict's text, `yes <lines> <hidden>` or `no <witness line> <trace line> <rule>`, without an end of
/// line. Memory is used only if `out` lacks the room; if it runs out, `out` doesn't change.
pub fn print_verdict(verdict: &Verdict, out: &mut Vec<u8>) -> Result<(), AllocError>
    ensures ok { OnOk result (out.new.items ≡ out.old.items ++ verdict_text verdict.now) }
    ensures err { OnErr result (out.new.items ≡ out.old.items) }
    ensures room { vec_len out.old + length (verdict_text verdict.now) ≤ vec_capacity out.old → IsOk result }
{
    match verdict {
        Verdict::Yes { lines, hidden } => append_words(out, "yes ", *lines, *hidden, "", ""),
        Verdict::No {
            witness_line,
            trace_line,
            rule,
        } => append_words(out, "no ", *witness_line, *trace_line, " ", rule.name()),
    }
}

// Appends the head, both numbers with a space between them, the gap and the tail.
fn append_words(
    out: &mut Vec<u8>,
    head: &str,
    first: u64,
    second: u64,
    gap: &str,
    tail: &str,
) -> Result<(), AllocError>
    requires { (length head.now ≤ 4) × (length gap.now ≤ 1) × (length tail.now ≤ 14) }
    ensures ok { OnOk result (out.new.items ≡ out.old.items
        ++ (head.now ++ two_numbers first second ++ gap.now ++ tail.now)) }
    ensures err { OnErr result (out.new.items ≡ out.old.items) }
    ensures room { vec_len out.old + length (head.now ++ two_numbers first second ++ gap.now
        ++ tail.now) ≤ vec_capacity out.old → IsOk result }
{
    let mut first_buffer = Buffer::new();
    let mut second_buffer = Buffer::new();
    let first = first_buffer.format(first);
    let second = second_buffer.format(second);
    out.reserve(head.len() + first.len() + 1 + second.len() + gap.len() + tail.len())?;
    append_reserved(out, head.as_bytes());
    append_reserved(out, first.as_bytes());
    append_reserved(out, b" ");
    append_reserved(out, second.as_bytes());
    append_reserved(out, gap.as_bytes());
    append_reserved(out, tail.as_bytes());
    Ok(())
}

// Appends the text; the room was reserved.
fn append_reserved(out: &mut Vec<u8>, piece: &[u8])
    requires { vec_len out.old + length piece.now ≤ vec_capacity out.old }
    ensures items { out.new.items ≡ out.old.items ++ piece.now }
    ensures len { vec_len out.new ≡ vec_len out.old + length piece.now }
    ensures capacity { vec_capacity out.old ≤ vec_capacity out.new }
{
    let _ = out.extend_from_slice(piece);
}

impl fmt::Display for Verdict {
    ghost output = { λ verdict. Some (verdict_text verdict) };

    fn fmt<W: fmt::Write>(&self, f: &mut fmt::Formatter<W>) -> fmt::Result {
        match self {
            Verdict::Yes { lines, hidden } => write!(f, "yes {lines} {hidden}"),
            Verdict::No {
                witness_line,
                trace_line,
                rule,
            } => write!(f, "no {witness_line} {trace_line} {rule}"),
        }
    }
}
