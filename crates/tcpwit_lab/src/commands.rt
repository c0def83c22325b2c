//! What the program does with its standard input.

use crate::output::{
    DEVICE, DONE, NO, Refused, say, say_altered, say_bad_device, say_bad_memory, say_bad_replay,
    say_bad_trace, say_fault, say_object, say_written,
};
use crate::report::{JudgedReport, RemarkedReport, Report};
use crate::words::{Asked, Form, Judging};
use cli::INPUT_BYTES;
use counted::Counted;
use drawing::{draw, show};
use judging::{JudgeFault, Judgement, judge};
use remarks::{Remarks, remark};
use replayed::Case;
use std::alloc::{AllocError, Global};
use std::fs::File;
use std::io;
use std::io::{BufRead, BufReader, Eprint, ErrorKind, Input, Read, Write};
use std::rt::Files;
use verdict::Verdict;
use why::{Explanation, explain};
use witness_search::{CaseText, Ending, FoundCase, Unusual, Ways, find_within};

/// Does what is asked for with the text of standard input, and returns the status: 0 if it is done, 1 if the answer is
/// no, 2 if the text is refused, 4 if memory ran out, and 5 if a read or a write failed.
pub(crate) fn run<H: Files + Eprint + Input, W: Write>(
    rt: &H,
    alloc: Global,
    asked: Asked<'_>,
    w: &mut Counted<W>,
) -> u8 {
    if let Asked::JudgeMany(judging) = asked {
        return judge_many(rt, alloc, judging, w);
    }
    let mut text = Vec::new(alloc);
    match rt.reader().read_to_end(&mut text) {
        Ok(_) => write_answer(rt, alloc, asked, text.as_slice(), w),
        Err(error) if error.kind() == ErrorKind::OutOfMemory => {
            say_bad_memory(rt, asked.form(), w)
        }
        Err(error) => say_bad_device(rt, asked.form(), "standard input", &error, w),
    }
}

// Judges the traces of standard input, each ended by a line `end`, and writes an object for each before the next one is
// read. The status is the highest of their statuses; the first failed read or write ends the run.
fn judge_many<H: Files + Eprint + Input, W: Write>(
    rt: &H,
    alloc: Global,
    judging: Judging<'_>,
    w: &mut Counted<W>,
) -> u8 {
    let Ok(mut reader) = BufReader::with_capacity(alloc, INPUT_BYTES, rt.reader()) else {
        return say_bad_memory(rt, Form::Json, w);
    };
    let mut text = Vec::new(alloc);
    let mut highest = DONE;
    for _ in 0..u64::MAX {
        match read_trace(&mut reader, &mut text) {
            Ok(true) => {
                let trace = text.as_slice();
                highest = highest.max(write_judgement(rt, alloc, judging, Form::Json, trace, w));
            }
            Ok(false) => break,
            Err(error) if error.kind() == ErrorKind::OutOfMemory => {
                return say_bad_memory(rt, Form::Json, w);
            }
            Err(error) => return say_bad_device(rt, Form::Json, "standard input", &error, w),
        }
        if highest == DEVICE {
            break;
        }
    }
    highest
}

// Reads the next trace into `text`: the lines before the next line `end`, or all that are left. Returns whether there
// is one.
fn read_trace<R: BufRead>(reader: &mut R, text: &mut Vec<u8>) -> io::Result<bool> {
    text.clear();
    for _ in 0..u64::MAX {
        let begin = text.len();
        if reader.read_until(b'\n', text)? == 0 {
            break;
        }
        if text.get(begin..) == Some(b"end\n".as_slice()) {
            text.truncate(begin);
            return Ok(true);
        }
    }
    Ok(!text.is_empty())
}

// Does what is asked for with a text.
fn write_answer<H: Files + Eprint, W: Write>(
    rt: &H,
    alloc: Global,
    asked: Asked<'_>,
    text: &[u8],
    w: &mut Counted<W>,
) -> u8 {
    match asked {
        Asked::Find(options) => match find_within(alloc, text, options) {
            Ok(found) => write_found(rt, &found, w),
            Err(fault) => say_bad_trace(rt, alloc, Form::Lines, "find", text, &fault, w),
        },
        Asked::Explain(origin, form) => match explain(alloc, text, origin) {
            Ok(said) => write_explanation(rt, alloc, form, &said, w),
            Err(fault) => say_bad_replay(rt, form, fault, w),
        },
        Asked::Judge(judging, form) => write_judgement(rt, alloc, judging, form, text, w),
        Asked::JudgeMany(judging) => write_judgement(rt, alloc, judging, Form::Json, text, w),
        Asked::Show | Asked::Draw(_) | Asked::Remark(_) => match Case::read(alloc, text) {
            Ok(case) => write_case(rt, alloc, asked, &case, w),
            Err(fault) => say_fault(rt, alloc, asked.form(), Refused::Trace, &fault, w),
        },
    }
}

// Writes the explanation of a verdict.
fn write_explanation<H: Eprint, W: Write>(
    rt: &H,
    alloc: Global,
    form: Form,
    said: &Explanation,
    w: &mut Counted<W>,
) -> u8 {
    match form {
        Form::Lines => say(rt, w, said.text.as_bytes(), said.status),
        Form::Json => match Report::from_explanation(alloc, said) {
            Ok(report) => say_object(rt, alloc, &report, said.status, w),
            Err(_) => say_bad_memory(rt, form, w),
        },
    }
}

// Shows or draws a case, or writes the remarks on it.
fn write_case<H: Eprint, W: Write>(
    rt: &H,
    alloc: Global,
    asked: Asked<'_>,
    case: &Case<'_>,
    w: &mut Counted<W>,
) -> u8 {
    match asked {
        Asked::Draw(range) => write_text(rt, draw(alloc, case, range), w),
        Asked::Remark(form) => match &case.verdict {
            Ok(verdict) => match remark(alloc, case) {
                Ok(remarked) => write_remarks(rt, alloc, form, *verdict, &remarked, w),
                Err(fault) => say_bad_replay(rt, form, fault, w),
            },
            Err(fault) => say_fault(rt, alloc, form, Refused::Witness, fault, w),
        },
        Asked::Show
        | Asked::Find(_)
        | Asked::Explain(..)
        | Asked::Judge(..)
        | Asked::JudgeMany(_) => { write_text(rt, show(alloc, case), w) }
    }
}

// Writes the remarks on a case with this verdict. The status is 0 if there is none, and 1 if there is any.
fn write_remarks<H: Eprint, W: Write>(
    rt: &H,
    alloc: Global,
    form: Form,
    verdict: Verdict,
    remarked: &Remarks,
    w: &mut Counted<W>,
) -> u8 {
    let status = if remarked.places.is_empty() { DONE } else { NO };
    match form {
        Form::Lines => say(rt, w, remarked.text.as_bytes(), status),
        Form::Json => match RemarkedReport::new(alloc, status, verdict, remarked) {
            Ok(report) => say_object(rt, alloc, &report, status, w),
            Err(_) => say_bad_memory(rt, form, w),
        },
    }
}

// Judges a trace and writes the answer. If a file is named for the case of the last level, it writes that, and says
// which lines it has. The status is 0 if the level that `--least` names or a stricter one has a yes, and 1 if none has.
fn write_judgement<H: Files + Eprint, W: Write>(
    rt: &H,
    alloc: Global,
    judging: Judging<'_>,
    form: Form,
    text: &[u8],
    w: &mut Counted<W>,
) -> u8 {
    let judgement = match judge(alloc, text, judging.settings) {
        Ok(judgement) => judgement,
        Err(fault) => return say_unjudged(rt, alloc, form, text, fault, w),
    };
    if let Some(name) = judging.case {
        if let Err(error) = write_file(rt, name, &judgement.case) {
            return say_bad_device(rt, form, name, &error, w);
        }
    }
    let status = if judgement.meets(judging.least) {
        DONE
    } else {
        NO
    };
    let is_written = judging.case.is_some();
    match form {
        Form::Lines => say_judgement(rt, &judgement, status, is_written, w),
        Form::Json => match JudgedReport::new(alloc, status, &judgement, is_written) {
            Ok(report) => say_object(rt, alloc, &report, status, w),
            Err(_) => say_bad_memory(rt, form, w),
        },
    }
}

// Writes why a trace can't be judged.
fn say_unjudged<H: Eprint, W: Write>(
    rt: &H,
    alloc: Global,
    form: Form,
    text: &[u8],
    fault: JudgeFault,
    w: &mut Counted<W>,
) -> u8 {
    match fault {
        JudgeFault::Trace(fault) => say_bad_trace(rt, alloc, form, "judge", text, &fault, w),
        JudgeFault::Witness(fault) => say_fault(rt, alloc, form, Refused::Witness, &fault, w),
        JudgeFault::Replay(fault) => say_bad_replay(rt, form, fault, w),
        JudgeFault::Altered => say_altered(rt, form, w),
    }
}

// Writes the lines of an answer, and which lines the case has if it was written to a file.
fn say_judgement<H: Eprint, W: Write>(
    rt: &H,
    judgement: &Judgement<'_>,
    status: u8,
    is_written: bool,
    w: &mut Counted<W>,
) -> u8 {
    let said = say(rt, w, judgement.text.as_bytes(), status);
    if !is_written || said != status {
        return said;
    }
    say(rt, w, judgement.kept.as_bytes(), status)
}

// Writes a case to a file.
fn write_file<H: Files>(rt: &H, name: &str, case: &CaseText<'_>) -> io::Result<()> {
    let mut file = File::create(rt, name)?;
    case.write_to(&mut file)
}

// Writes a case. If lines were left or the search went back, standard error has how far it came.
fn write_found<H: Eprint, W: Write>(rt: &H, found: &FoundCase<'_>, w: &mut Counted<W>) -> u8 {
    let tried = found.tried;
    let _ = match found.ending {
        Ending::Whole if tried == 0 => Ok(()),
        Ending::Whole => eprintln!(rt; "every line is explained; other choices tried: {tried}"),
        Ending::Exhausted { line: 0 } => eprintln!(rt;
            "no choice that find knows keeps the duties at the end of the trace; other choices tried: {tried}"
        ),
        Ending::BudgetSpent { line: 0 } => eprintln!(rt;
            "a duty is late at the end of the trace, and the budget is spent; other choices tried: {tried}"
        ),
        Ending::Exhausted { line } => eprintln!(rt;
            "no choice that find knows explains line {line} of the trace; other choices tried: {tried}"
        ),
        Ending::BudgetSpent { line } => eprintln!(rt;
            "line {line} of the trace isn't explained, and the budget is spent; other choices tried: {tried}"
        ),
        Ending::TooManySteps { line } => eprintln!(rt;
            "line {line} of the trace isn't explained, and a case can't have more steps; other choices tried: {tried}"
        ),
    };
    say_ways(rt, &found.ways);
    say_written(rt, found.case.write_to(w), w, DONE)
}

// Writes which ways of the hosts explain most, if they aren't the usual ones.
fn say_ways<H: Eprint>(rt: &H, ways: &Ways) {
    for unusual in ways.unusual() {
        if let Some(Unusual { host, words }) = unusual {
            let (host, name, does) = (host as u8, words.name, words.does);
            let _ = eprintln!(rt; "host {host} {does}: --ways {host}:{name}");
        }
    }
}

// Writes a text.
fn write_text<H: Eprint, W: Write>(
    rt: &H,
    text: Result<String, AllocError>,
    w: &mut Counted<W>,
) -> u8 {
    match text {
        Ok(text) => say(rt, w, text.as_bytes(), DONE),
        Err(AllocError) => say_bad_memory(rt, Form::Lines, w),
    }
}
