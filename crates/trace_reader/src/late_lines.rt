//! The lines of the header after line 6, which version 1 doesn't have.

ghost use Rattle.std.specs.Prelude.{◌≡◌, ◌≢◌, Err, codes, IfOk};
ghost use Rattle.counted.specs.Counting.{one_more};
ghost use Rattle.line_fields.specs.Congestion.{judged_field};
ghost use Rattle.line_fields.specs.Reading.{Gives};
ghost use Rattle.line_fields.specs.Rows.{with_rest, Reads};
ghost use Rattle.case_lines.specs.CaseLines.{KeepsWitness};
ghost use Rattle.case_lines.specs.TextLeft.{rows_left, witness_left, text_failures};
ghost use Rattle.line_fields.specs.Slack.{slack_field};
ghost use Rattle.trace_reader.specs.Headers.{value_line, initial_field, initial_line};
ghost use Rattle.trace_reader.specs.Headers.{congestion_line, slack_line, last_line};
ghost use Rattle.trace_reader.specs.Headers.{half_lines, judged_lines, late_lines};

use crate::control_lines::control_lines;
use crate::named_lines::{named_rest, next_number};
use case_forms::{Growth, Initial, Judged, Sender, Version};
use case_lines::TextLines;
use line_fields::{FaultKind, Fields, SourceFault, TextFault, hosted, judged, slack};
use std::io::BufRead;

// The number of the line that names the RFC of the first congestion window.
const INITIAL_LINE: u64 = 7;

// The number of the line that says that only one host is recorded.
const HALF_LINE: u64 = 8;

// The number of the line that says how many hosts were recorded.
const HOSTS_LINE: u64 = 8;

// The number of the line that says how much of congestion control is judged.
const CONGESTION_LINE: u64 = 9;

// The number of the line that says how late a host may be.
const SLACK_LINE: u64 = 10;

/// The content of the header's lines after line 6, or the values for a version that doesn't have them.
#[derive(Clone, Copy)]
pub(crate) struct LateLines {
    pub(crate) version: Version,
    pub(crate) initial: Initial,
    pub(crate) congestion: Judged,
    pub(crate) slack: Option<u64>,
    pub(crate) sender: Sender,
    pub(crate) growth: Growth,
}

// The next field, one of the two RFCs by number. Any other number is Number.
#[tactic(auto, unfolding(crate::specs::Headers::initial_field))]
fn initial_field(fields: &mut Fields) -> Result<Initial, TextFault>
    ensures { Gives (λ initial. (initial, fields.new)) result (initial_field fields.old) }
{
    let field = fields.next()?;
    match field.number(5681, 6928)? {
        5681 => Ok(Initial::Rfc5681),
        6928 => Ok(Initial::Rfc6928),
        _ => Err(field.fault(FaultKind::Number)),
    }
}

// The RFC of a line made of `initial` and a number.
#[tactic(auto, unfolding(crate::specs::Headers::value_line))]
fn named_initial(raw: &[u8]) -> Result<Initial, TextFault>
    ensures { Gives (λ initial. initial) result (value_line 7 (codes "initial") initial_field raw.now) }
{
    let (mut fields, fault) = named_rest(INITIAL_LINE, "initial", raw)?;
    let initial = initial_field(&mut fields)?;
    if !fields.is_empty() {
        return Err(fault);
    }
    Ok(initial)
}

// The RFC of the next line, which is `initial` and a number.
#[tactic(auto, unfolding(crate::specs::Headers::next_value))]
fn next_initial<A: BufRead>(text: &mut TextLines<A>) -> Result<Initial, SourceFault>
    ensures value { Reads with_rest initial_line
        (rows_left A.remaining text.old) (rows_left A.remaining text.new) result }
    ensures witness { IfOk result (λ x.
        KeepsWitness (witness_left A.remaining text.old) (witness_left A.remaining text.new)) }
    ensures read { result ≡ Err SourceFault.Read → text_failures text.new ≡ one_more (text_failures text.old) }
    ensures same { result ≢ Err SourceFault.Read → text_failures text.new ≡ text_failures text.old }
{
    text.require_line(INITIAL_LINE)?;
    let initial = named_initial(text.raw())?;
    Ok(initial)
}

// How much of congestion control is judged, from a line made of `congestion` and a word.
#[tactic(auto, unfolding(crate::specs::Headers::value_line))]
fn named_congestion(raw: &[u8], version: Version) -> Result<Judged, TextFault>
    ensures { Gives (λ word. word) result (value_line 9 (codes "congestion") (judged_field version) raw.now) }
{
    let (mut fields, fault) = named_rest(CONGESTION_LINE, "congestion", raw)?;
    let congestion = judged(&mut fields, version)?;
    if !fields.is_empty() {
        return Err(fault);
    }
    Ok(congestion)
}

// How much of congestion control is judged, from the next line, which is `congestion` and a word.
#[tactic(auto, unfolding(crate::specs::Headers::next_value))]
fn next_congestion<A: BufRead>(
    text: &mut TextLines<A>,
    version: Version,
) -> Result<Judged, SourceFault>
    ensures value { Reads with_rest (congestion_line version)
        (rows_left A.remaining text.old) (rows_left A.remaining text.new) result }
    ensures witness { IfOk result (λ x.
        KeepsWitness (witness_left A.remaining text.old) (witness_left A.remaining text.new)) }
    ensures read { result ≡ Err SourceFault.Read → text_failures text.new ≡ one_more (text_failures text.old) }
    ensures same { result ≢ Err SourceFault.Read → text_failures text.new ≡ text_failures text.old }
{
    text.require_line(CONGESTION_LINE)?;
    let congestion = named_congestion(text.raw(), version)?;
    Ok(congestion)
}

// How late a host may be, from a line made of `slack` and that field.
#[tactic(auto, unfolding(crate::specs::Headers::value_line))]
fn named_slack(raw: &[u8]) -> Result<Option<u64>, TextFault>
    ensures { Gives (λ slack. slack) result (value_line 10 (codes "slack") slack_field raw.now) }
{
    let (mut fields, fault) = named_rest(SLACK_LINE, "slack", raw)?;
    let slack = slack(&mut fields)?;
    if !fields.is_empty() {
        return Err(fault);
    }
    Ok(slack)
}

// How late a host may be, from the next line, which is `slack` and that field.
#[tactic(auto, unfolding(crate::specs::Headers::next_value))]
fn next_slack<A: BufRead>(text: &mut TextLines<A>) -> Result<Option<u64>, SourceFault>
    ensures value { Reads with_rest slack_line
        (rows_left A.remaining text.old) (rows_left A.remaining text.new) result }
    ensures witness { IfOk result (λ x.
        KeepsWitness (witness_left A.remaining text.old) (witness_left A.remaining text.new)) }
    ensures read { result ≡ Err SourceFault.Read → text_failures text.new ≡ one_more (text_failures text.old) }
    ensures same { result ≢ Err SourceFault.Read → text_failures text.new ≡ text_failures text.old }
{
    text.require_line(SLACK_LINE)?;
    let slack = named_slack(text.raw())?;
    Ok(slack)
}

// How late a host may be, from the next line, if the version has that line.
fn last_line<A: BufRead>(
    text: &mut TextLines<A>,
    version: Version,
) -> Result<Option<u64>, SourceFault>
    ensures value { Reads with_rest (last_line version)
        (rows_left A.remaining text.old) (rows_left A.remaining text.new) result }
    ensures witness { IfOk result (λ x.
        KeepsWitness (witness_left A.remaining text.old) (witness_left A.remaining text.new)) }
    ensures read { result ≡ Err SourceFault.Read → text_failures text.new ≡ one_more (text_failures text.old) }
    ensures same { result ≢ Err SourceFault.Read → text_failures text.new ≡ text_failures text.old }
{
    if version.says_slack() {
        next_slack(text)
    } else {
        Ok(None)
    }
}

// The RFC of the first congestion window, and after it the line `half 0`, which says that only host 0 is recorded.
fn half_lines<A: BufRead>(text: &mut TextLines<A>) -> Result<LateLines, SourceFault>
    ensures value { Reads with_rest half_lines
        (rows_left A.remaining text.old) (rows_left A.remaining text.new) result }
    ensures witness { IfOk result (λ x.
        KeepsWitness (witness_left A.remaining text.old) (witness_left A.remaining text.new)) }
    ensures read { result ≡ Err SourceFault.Read → text_failures text.new ≡ one_more (text_failures text.old) }
    ensures same { result ≢ Err SourceFault.Read → text_failures text.new ≡ text_failures text.old }
{
    let initial = next_initial(text)?;
    next_number(text, HALF_LINE, "half", 0, 0)?;
    Ok(LateLines {
        version: Version::Three,
        initial,
        congestion: Judged::Full,
        slack: None,
        sender: Sender::Reno,
        growth: Growth::OneSegment,
    })
}

// The RFC of the first congestion window, how many hosts were recorded, how much of congestion control is judged, from
// version 5 on how late a host may be, and in version 6 the sender's congestion control.
fn judged_lines<A: BufRead>(
    text: &mut TextLines<A>,
    version: Version,
) -> Result<LateLines, SourceFault>
    ensures value { Reads with_rest (judged_lines version)
        (rows_left A.remaining text.old) (rows_left A.remaining text.new) result }
    ensures witness { IfOk result (λ x.
        KeepsWitness (witness_left A.remaining text.old) (witness_left A.remaining text.new)) }
    ensures read { result ≡ Err SourceFault.Read → text_failures text.new ≡ one_more (text_failures text.old) }
    ensures same { result ≢ Err SourceFault.Read → text_failures text.new ≡ text_failures text.old }
{
    let initial = next_initial(text)?;
    let hosts = next_number(text, HOSTS_LINE, "hosts", 1, 2)?;
    let congestion = next_congestion(text, version)?;
    let slack = last_line(text, version)?;
    let (sender, growth) = control_lines(text, version)?;
    Ok(LateLines {
        version: hosted(version, hosts),
        initial,
        congestion,
        slack,
        sender,
        growth,
    })
}

/// The content of the late lines, if the version has any.
pub(crate) fn late_lines<A: BufRead>(
    text: &mut TextLines<A>,
    version: Version,
) -> Result<LateLines, SourceFault>
    ensures value { Reads with_rest (late_lines version)
        (rows_left A.remaining text.old) (rows_left A.remaining text.new) result }
    ensures witness { IfOk result (λ x.
        KeepsWitness (witness_left A.remaining text.old) (witness_left A.remaining text.new)) }
    ensures read { result ≡ Err SourceFault.Read → text_failures text.new ≡ one_more (text_failures text.old) }
    ensures same { result ≢ Err SourceFault.Read → text_failures text.new ≡ text_failures text.old }
{
    match version {
        Version::One => Ok(LateLines {
            version,
            initial: Initial::Rfc5681,
            congestion: Judged::Full,
            slack: None,
            sender: Sender::Reno,
            growth: Growth::OneSegment,
        }),
        Version::Two => {
            let initial = next_initial(text)?;
            Ok(LateLines {
                version,
                initial,
                congestion: Judged::Full,
                slack: None,
                sender: Sender::Reno,
                growth: Growth::OneSegment,
            })
        }
        Version::Three => half_lines(text),
        Version::Four
        | Version::FourHalf
        | Version::Five
        | Version::FiveHalf
        | Version::Six
        | Version::SixHalf => judged_lines(text, version),
    }
}
