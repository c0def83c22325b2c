//! What a yes says, and what a no refuses, in a sentence.

use crate::connections::Connections;
use crate::levels::{Answer, Level, is_yes_without_duties};
use crate::one_level::{Question, Tried};
use case_forms::{Judged, OutOfMemory};
use itoa::Buffer;
use plain_words::{about, word_if};
use replayed::{Late, Reason, Refused};
use std::alloc::Global;
use std::fmt;
use verdict::{Rule, Verdict};
use witness_search::{CaseLines, Ending, Unusual, Ways};

/// The name of a level.
pub fn level_name(level: Judged) -> &'static str {
    match level {
        Judged::Full => "full",
        Judged::Recovery => "recovery",
        Judged::NoControl => "none",
    }
}

/// The lines of the answer: each level with its verdict, and what the verdict of the last level means.
pub(crate) fn answer(
    alloc: Global,
    question: Question<'_, '_>,
    levels: &[Level],
    last: &Tried,
) -> Result<String, OutOfMemory> {
    let mut out = String::new(alloc);
    for level in levels {
        let (name, verdict) = (level_name(level.judged), level.answer.verdict);
        writeln!(out, "{name:<10}{verdict}")?;
    }
    say_meaning(&mut out, question, levels, last)?;
    if question.header.version.is_half() {
        out.push_str("Only host 0 was recorded; the other host isn't judged.\n")?;
    }
    say_added(&mut out, last.facts.lines)?;
    say_refusals(alloc, &mut out, question.slack, levels)?;
    say_without_duties(&mut out, levels)?;
    Ok(out)
}

// Writes what the verdict of the last level means.
fn say_meaning(
    out: &mut String,
    question: Question<'_, '_>,
    levels: &[Level],
    last: &Tried,
) -> Result<(), OutOfMemory> {
    match last.facts.answer.verdict {
        Verdict::Yes { .. } => {
            out.push_str(meaning(last.level))?;
            say_slack(out, question, last.level)?;
            say_ways(out, &last.ways)?;
            say_connections(out, last.facts.connections)
        }
        Verdict::No { .. } => say_none(out, levels, last.ending),
    }
}

// Writes what each level refused, if it did. Levels that follow each other share a line if they refused the same.
fn say_refusals(
    alloc: Global,
    out: &mut String,
    slack: Option<u64>,
    levels: &[Level],
) -> Result<(), OutOfMemory> {
    let mut names = Vec::new(alloc);
    let mut said = String::new(alloc);
    for level in levels {
        let own = sentence(alloc, slack, level)?;
        if own != said {
            say_under(out, names.as_slice(), said.as_str())?;
            names.clear();
            said = own;
        }
        names.push(level_name(level.judged))?;
    }
    say_under(out, names.as_slice(), said.as_str())
}

// Writes what the levels with these names refused, if the sentence has it.
fn say_under(out: &mut String, names: &[&str], sentence: &str) -> Result<(), OutOfMemory> {
    if sentence.is_empty() {
        return Ok(());
    }
    match names {
        [] => Ok(()),
        [only] => writeln!(out, "Under {only}: {sentence}"),
        [first, last] => writeln!(out, "Under {first} and {last}: {sentence}"),
        [first, second, last, ..] => {
            writeln!(out, "Under {first}, {second} and {last}: {sentence}")
        }
    }
}

// Writes the verdicts without duties.
fn say_without_duties(out: &mut String, levels: &[Level]) -> Result<(), OutOfMemory> {
    for level in levels {
        if let Some(Answer { verdict, .. }) = level.without_duties {
            let name = level_name(level.judged);
            writeln!(out, "Under {name}, without duties: {verdict}")?;
        }
    }
    Ok(())
}

// What a yes at a level says. docs/reference/formats.md, section 5, has the same sentences.
fn meaning(level: Judged) -> &'static str {
    match level {
        Judged::Full => "The run follows RFC 9293, 6298 and 5681 as this profile reads them.\n",
        Judged::Recovery => "The run follows RFC 9293 and 6298 as this profile reads them.\n\
Data is retransmitted only if a timer expired, fast recovery began, or a closed window opened.\n\
The congestion window isn't judged.\n",
        Judged::NoControl => "The run follows RFC 9293 as this profile reads it.\n\
The congestion window isn't judged.\n\
The choice of when to retransmit data isn't judged either.\n",
    }
}

// The rules of duties that a level judges, in version 6 or before.
fn duty_rules(level: Judged, is_six: bool) -> &'static str {
    match (level, is_six) {
        (Judged::Full, _) => "rules 40 to 52",
        (Judged::Recovery, false) => "rules 40 to 50 and 52",
        (Judged::Recovery, true) => "rules 40 to 50, 52, 56 and 57",
        (Judged::NoControl, false) => "rules 40 to 49 and 52",
        (Judged::NoControl, true) => "rules 40 to 49, 52, 56 and 57",
    }
}

// Writes how late a host may have been with its duties, in microseconds, and which rules say that at a level. None:
// they weren't judged.
fn say_slack(
    out: &mut String,
    question: Question<'_, '_>,
    level: Judged,
) -> Result<(), OutOfMemory> {
    let rules = duty_rules(level, question.header.version.says_sender());
    match question.slack {
        None => Ok(()),
        Some(0) => writeln!(out, "No duty was late ({rules})."),
        Some(slack) => writeln!(
            out,
            "No duty was late by more than {} ({rules}).",
            Time(slack)
        ),
    }
}

// Writes which ways of the hosts explain the run, if they aren't the usual ones.
fn say_ways(out: &mut String, ways: &Ways) -> Result<(), OutOfMemory> {
    for unusual in ways.unusual() {
        if let Some(Unusual { host, words }) = unusual {
            let (host, name, does) = (host as u8, words.name, words.does);
            writeln!(
                out,
                "The run is a yes if host {host} {does}: --ways {host}:{name}."
            )?;
        }
    }
    Ok(())
}

// Writes how many connections were established, unless all were.
fn say_connections(out: &mut String, connections: Connections) -> Result<(), OutOfMemory> {
    let (begun, established) = (Grouped(connections.begun), Grouped(connections.established));
    if connections.begun == 0 {
        out.push_str("No connection was opened.\n")
    } else if connections.established < connections.begun {
        writeln!(
            out,
            "{established} of {begun} connections were established."
        )
    } else {
        Ok(())
    }
}

// Writes how many lines the search added to those of the trace, if any.
fn say_added(out: &mut String, lines: CaseLines) -> Result<(), OutOfMemory> {
    if lines.added == 0 {
        return Ok(());
    }
    let (s, added) = (word_if(lines.added != 1, "s"), Grouped(lines.added));
    write!(out, "The search added {added} timeout{s}")?;
    writeln!(out, " (`T` line{s}) that the trace doesn't show.")
}

/// That a case has every line of its trace.
pub(crate) fn lines_kept(alloc: Global, lines: CaseLines) -> Result<String, OutOfMemory> {
    let kept = Grouped(lines.kept);
    format!(in alloc; "The case has all {kept} event lines of the trace, in order.\n")
}

// Writes that no level has a yes, and why the search ended without one.
fn say_none(out: &mut String, levels: &[Level], ending: Ending) -> Result<(), OutOfMemory> {
    let s = word_if(is_yes_without_duties(levels), " that keeps every duty");
    writeln!(
        out,
        "No witness was found{s}, even without judging congestion control."
    )?;
    out.push_str(match ending {
        // If every line is explained, a duty is late at the end.
        Ending::Whole | Ending::Exhausted { .. } =>
            "The search ran out of alternatives. It tries other ways of a host, and two changes at once near the\n\
refused line; a witness that needs other changes may still exist.\n",
        Ending::BudgetSpent { .. } =>
            "The search spent its budget. With a larger one (--budget), it may find a witness.\n",
        Ending::TooManySteps { .. } =>
            "The search stopped at 40,000,000 steps, the most that a case can have.\n",
    })
}

/// What a level refused with this slack, as the end of a sentence; empty if nothing was.
pub fn sentence(alloc: Global, slack: Option<u64>, level: &Level) -> Result<String, OutOfMemory> {
    let mut out = String::new(alloc);
    if let Some(refused) = level.refused {
        match refused.line {
            0 => out.push_str("after the last step")?,
            line => write!(out, "line {line}")?,
        }
        say_reason(&mut out, slack, &refused)?;
        out.push_str(".")?;
    }
    Ok(out)
}

// By when something was due that is late, as the end of a sentence. The slack and moments are in microseconds.
fn say_late(out: &mut String, slack: Option<u64>, late: &Late) -> Result<(), OutOfMemory> {
    let Late { since, due, at } = late;
    if *due == u128::from(*since) {
        write!(out, "; due at {due}")?;
    } else {
        write!(out, "; owed since {since}, due by {due}")?;
    }
    let latest = due.saturating_add(u128::from(slack.unwrap_or(0)));
    write!(out, ", with the slack by {latest}, and late at {at}")
}

fn say_reason(out: &mut String, slack: Option<u64>, refused: &Refused) -> Result<(), OutOfMemory> {
    let rule = refused.rule;
    match refused.reason {
        Reason::Beyond { bytes, cwnd } => {
            let (s, bytes) = (word_if(bytes != 1, "s"), Grouped(bytes));
            write!(out, " sends {bytes} byte{s} beyond the congestion window")?;
            write!(out, " of {} ({rule}; RFC 5681, 3.1)", Grouped(cwnd))
        }
        Reason::Gap { pos, sent } => {
            write!(out, " begins at position {pos}, but only positions")?;
            write!(out, " below {sent} were sent before ({rule})")
        }
        Reason::Acknowledged { pos, una } => {
            write!(out, " begins at position {pos}, and everything")?;
            write!(out, " below {una} is acknowledged already ({rule})")
        }
        // Fast recovery begins after the handshake, so only a timeout permits retransmitting a SYN.
        Reason::Again { syn: true } => {
            write!(out, " retransmits a SYN before its timeout")?;
            write!(out, " ({rule}; RFC 6298, 5)")
        }
        Reason::Again { syn: false } => {
            write!(out, " retransmits data without a timeout, fast recovery")?;
            write!(out, " or a reopened window ({rule})")
        }
        Reason::Late(late) => {
            say_rule(out, rule)?;
            say_late(out, slack, &late)
        }
        Reason::Other => say_rule(out, rule),
    }
}

fn say_rule(out: &mut String, rule: Rule) -> Result<(), OutOfMemory> {
    write!(out, ": {} ({rule})", about(rule).refused)
}

// A number with a comma before each three digits.
#[derive(Clone, Copy)]
struct Grouped(u64);

impl fmt::Display for Grouped {
    fn fmt<W: fmt::Write>(&self, f: &mut fmt::Formatter<W>) -> fmt::Result {
        let mut buffer = Buffer::new();
        let digits = buffer.format(self.0).as_bytes();
        for (place, digit) in digits.iter().enumerate() {
            if place != 0 && digits.len().saturating_sub(place) % 3 == 0 {
                write!(f, ",")?;
            }
            write!(f, "{}", char::from(*digit))?;
        }
        Ok(())
    }
}

// A time in microseconds, in seconds if they are whole.
#[derive(Clone, Copy)]
struct Time(u64);

impl fmt::Display for Time {
    fn fmt<W: fmt::Write>(&self, f: &mut fmt::Formatter<W>) -> fmt::Result {
        let (count, unit) = if self.0 != 0 && self.0 % 1_000_000 == 0 {
            (self.0 / 1_000_000, "second")
        } else {
            (self.0, "microsecond")
        };
        write!(f, "{} {unit}", Grouped(count))?;
        write!(f, "{}", word_if(count != 1, "s"))
    }
}
