//! What is written, and the status with which the program then ends.

use crate::report::{Outcome, Report, line_of, lines_of};
use crate::words::Form;
use case_forms::OutOfMemory;
use counted::Counted;
use judging::JudgeFault;
use line_fields::{FaultKind, TextFault};
use plain_words::fault_line;
use replayed::{ReplayFault, line_at};
use serde::Serialize;
use std::alloc::Global;
use std::io;
use std::io::{Eprint, Write};

/// Done.
pub(crate) const DONE: u8 = 0;

/// The answer is no.
pub(crate) const NO: u8 = 1;

/// The text is refused.
const REFUSED: u8 = 2;

/// The words are bad usage.
pub(crate) const USAGE: u8 = 3;

/// Memory ran out.
const MEMORY: u8 = 4;

/// A file or a stream can't be opened, read or written.
pub(crate) const DEVICE: u8 = 5;

/// Writes a text. The status is this one, or 5 if a write failed; standard error then has the reason.
pub(crate) fn say<H: Eprint, W: Write>(rt: &H, w: &mut Counted<W>, text: &[u8], status: u8) -> u8 {
    say_written(rt, w.write_all(text), w, status)
}

/// Flushes what was written. The status is this one, or 5 if a write failed; standard error then has the reason.
pub(crate) fn say_written<H: Eprint, W: Write>(
    rt: &H,
    written: io::Result<()>,
    w: &mut Counted<W>,
    status: u8,
) -> u8 {
    match written.and_then(|()| w.flush()) {
        Ok(()) => status,
        Err(error) => {
            let _ = eprintln!(rt; "standard output: {error}");
            DEVICE
        }
    }
}

/// An answer that has no numbers.
#[derive(Clone, Copy)]
struct Fixed {
    line: &'static str,
    object: &'static str,
    status: u8,
}

const BAD_MEMORY: Fixed = Fixed {
    line: "bad memory\n",
    object: "{\"status\":4,\"answer\":\"bad memory\",\"said\":[\"bad memory\"]}\n",
    status: MEMORY,
};

const BAD_DEVICE: Fixed = Fixed {
    line: "bad device\n",
    object: "{\"status\":5,\"answer\":\"bad device\",\"said\":[\"bad device\"]}\n",
    status: DEVICE,
};

const TOO_MANY_STEPS: Fixed = Fixed {
    line: "too many steps\n",
    object: "{\"status\":2,\"answer\":\"too many steps\",\"said\":[\"too many steps\"]}\n",
    status: REFUSED,
};

const ALTERED: Fixed = Fixed {
    line: "altered trace\n",
    object: "{\"status\":2,\"answer\":\"altered trace\",\"said\":[\"altered trace\"]}\n",
    status: REFUSED,
};

fn say_fixed<H: Eprint, W: Write>(rt: &H, form: Form, fixed: Fixed, w: &mut Counted<W>) -> u8 {
    let text = match form {
        Form::Lines => fixed.line,
        Form::Json => fixed.object,
    };
    say(rt, w, text.as_bytes(), fixed.status)
}

/// Writes an object as a line.
pub(crate) fn say_object<H: Eprint, W: Write, T: Serialize>(
    rt: &H,
    alloc: Global,
    object: &T,
    status: u8,
    w: &mut Counted<W>,
) -> u8 {
    match line_of(alloc, object) {
        Ok(line) => say(rt, w, line.as_slice(), status),
        Err(_) => say_bad_memory(rt, Form::Json, w),
    }
}

/// Writes that a file or a stream can't be used, with its name and the reason on standard error.
pub(crate) fn say_bad_device<H: Eprint, W: Write>(
    rt: &H,
    form: Form,
    name: &str,
    error: &io::Error,
    w: &mut Counted<W>,
) -> u8 {
    let _ = eprintln!(rt; "{name}: {error}");
    say_fixed(rt, form, BAD_DEVICE, w)
}

/// Writes that memory ran out.
pub(crate) fn say_bad_memory<H: Eprint, W: Write>(rt: &H, form: Form, w: &mut Counted<W>) -> u8 {
    say_fixed(rt, form, BAD_MEMORY, w)
}

/// Writes why a case can't be replayed.
pub(crate) fn say_bad_replay<H: Eprint, W: Write>(
    rt: &H,
    form: Form,
    fault: ReplayFault,
    w: &mut Counted<W>,
) -> u8 {
    match fault {
        ReplayFault::OutOfMemory => say_bad_memory(rt, form, w),
        ReplayFault::TooManySteps => {
            let _ = eprintln!(rt; "{fault}");
            say_fixed(rt, form, TOO_MANY_STEPS, w)
        }
    }
}

/// Writes that the case that was found isn't one of the trace.
pub(crate) fn say_altered<H: Eprint, W: Write>(rt: &H, form: Form, w: &mut Counted<W>) -> u8 {
    let _ = eprintln!(rt; "{}", JudgeFault::Altered);
    say_fixed(rt, form, ALTERED, w)
}

/// Which text has a fault.
#[derive(Clone, Copy)]
pub(crate) enum Refused {
    Trace,
    Witness,
}

impl Refused {
    // The first words of the answer.
    fn answer(self) -> &'static str {
        match self {
            Refused::Trace => "bad trace",
            Refused::Witness => "bad witness",
        }
    }

    // The same with a space after them.
    fn before_numbers(self) -> &'static str {
        match self {
            Refused::Trace => "bad trace ",
            Refused::Witness => "bad witness ",
        }
    }
}

/// Writes the fault of a text.
pub(crate) fn say_fault<H: Eprint, W: Write>(
    rt: &H,
    alloc: Global,
    form: Form,
    refused: Refused,
    fault: &TextFault,
    w: &mut Counted<W>,
) -> u8 {
    if let FaultKind::OutOfMemory = fault.kind {
        return say_bad_memory(rt, form, w);
    }
    let line = match fault_line(alloc, refused.before_numbers(), fault) {
        Ok(line) => line,
        Err(_) => return say_bad_memory(rt, form, w),
    };
    match form {
        Form::Lines => say(rt, w, line.as_bytes(), REFUSED),
        Form::Json => match report_of(alloc, refused, fault, line.as_str()) {
            Ok(report) => say_object(rt, alloc, &report, REFUSED, w),
            Err(_) => say_bad_memory(rt, form, w),
        },
    }
}

// The fault of a text as an object.
fn report_of<'r>(
    alloc: Global,
    refused: Refused,
    fault: &TextFault,
    line: &'r str,
) -> Result<Report<'r>, OutOfMemory> {
    Ok(Report {
        status: REFUSED,
        outcome: Outcome::from_fault(refused.answer(), fault),
        said: lines_of(alloc, line)?,
    })
}

/// Writes the fault of a text that should be a trace. If it's a case, standard error has a command that passes its
/// trace alone to this subcommand.
pub(crate) fn say_bad_trace<H: Eprint, W: Write>(
    rt: &H,
    alloc: Global,
    form: Form,
    subcommand: &str,
    text: &[u8],
    fault: &TextFault,
    w: &mut Counted<W>,
) -> u8 {
    let line = fault.span.line;
    if begins_witness(text, line) {
        let _ = eprintln!(rt;
            "this is a case, with a witness from line {line} on. For {subcommand}, pass the trace alone:"
        );
        let _ = eprintln!(rt; "  sed '/^witness/,$d' FILE | tcpwit_lab {subcommand}");
    }
    say_fault(rt, alloc, form, Refused::Trace, fault, w)
}

// Whether the line of this number begins the witness of a case.
fn begins_witness(text: &[u8], number: u64) -> bool {
    match line_at(text, number) {
        Some(line) => line.starts_with(b"witness "),
        None => false,
    }
}
