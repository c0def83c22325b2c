//! Lines of a header that are a name and a value.

ghost use Rattle.std.specs.Prelude.{◌≡◌, ◌≢◌, ◌≤◌, Err, IfOk};
ghost use Rattle.counted.specs.Counting.{one_more};
ghost use Rattle.line_fields.specs.Reading.{Gives, number_field};
ghost use Rattle.line_fields.specs.Rows.{with_rest, Reads};
ghost use Rattle.case_lines.specs.CaseLines.{KeepsWitness};
ghost use Rattle.case_lines.specs.TextLeft.{rows_left, witness_left, text_failures};
ghost use Rattle.trace_reader.specs.Headers.{named_rest, value_line, next_value};

use case_lines::TextLines;
use line_fields::{FaultKind, Fields, SourceFault, Span, TextFault, checked_fields};
use std::io::BufRead;

/// The fields of a line after its name, at least one, and the fault for another count of fields. That is Header at the
/// whole line, as for another name.
#[tactic(auto, unfolding(crate::specs::Headers::named_rest))]
pub(crate) fn named_rest<'a>(
    number: u64,
    name: &str,
    raw: &'a [u8],
) -> Result<(Fields<'a>, TextFault), TextFault>
    ensures { Gives (λ rest. rest) result (named_rest number name.now raw.now) }
{
    let mut fields = checked_fields(number, raw)?;
    let span = Span {
        line: number,
        start: 0,
        stop: fields.stop(),
    };
    let fault = TextFault {
        kind: FaultKind::Header,
        span,
    };
    let word = fields.next()?;
    if !word.is(name) {
        return Err(fault);
    }
    if fields.is_empty() {
        return Err(fault);
    }
    Ok((fields, fault))
}

// The number of a line that is a name and a number from `least` to `most`.
#[tactic(auto, unfolding(crate::specs::Headers::value_line))]
fn number_line(number: u64, name: &str, least: u64, most: u64, raw: &[u8]) -> Result<u64, TextFault>
    ensures value { Gives (λ n. n) result (value_line number name.now (number_field least most) raw.now) }
    ensures range { IfOk result (λ n. (least ≤ n) × (n ≤ most)) }
{
    let (mut fields, fault) = named_rest(number, name, raw)?;
    let value = fields.number(least, most)?;
    if !fields.is_empty() {
        return Err(fault);
    }
    Ok(value)
}

/// The number of the next line, which is a name and a number.
#[tactic(auto, unfolding(crate::specs::Headers::next_value))]
pub(crate) fn next_number<A: BufRead>(
    text: &mut TextLines<A>,
    number: u64,
    name: &str,
    least: u64,
    most: u64,
) -> Result<u64, SourceFault>
    ensures value { Reads with_rest (next_value number name.now (number_field least most))
        (rows_left A.remaining text.old) (rows_left A.remaining text.new) result }
    ensures range { IfOk result (λ n. (least ≤ n) × (n ≤ most)) }
    ensures witness { IfOk result (λ x.
        KeepsWitness (witness_left A.remaining text.old) (witness_left A.remaining text.new)) }
    ensures read { result ≡ Err SourceFault.Read → text_failures text.new ≡ one_more (text_failures text.old) }
    ensures same { result ≢ Err SourceFault.Read → text_failures text.new ≡ text_failures text.old }
{
    text.require_line(number)?;
    let value = number_line(number, name, least, most, text.raw())?;
    Ok(value)
}
